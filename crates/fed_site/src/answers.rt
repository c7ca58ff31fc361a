//! Answers by a text.
ghost use Rattle.std.specs.Prelude.{◌≡◌, ◌++◌, ◌||◌, false, Some, None, IfOk, string_bytes};
ghost use Rattle.std.specs.Cow.{cow_str_bytes};
ghost use Rattle.std.specs.Option.{option_or};
ghost use Rattle.fed_site.specs.SiteAnswer.{text_of};

use crate::complaints::Complaint;
use crate::identifier_lines::IdentifierLine;
use fed_lattice::NoMemory;
use fed_qstat::AnswerText;
use fed_record::Moment;
use fed_stamp::JobId;
use std::alloc::{AllocError, Global};
use std::borrow::CowStr;

/// A job that a line began.
#[derive(Clone, Copy, PartialEq, Eq, Debug)]
pub struct Begun {
    /// The job.
    pub job: JobId,
    /// When it began, in seconds.
    pub moment: Moment,
}

/// The text of an answer.
#[derive(Drop)]
pub enum LineText {
    /// The line of an identifier.
    Identifier(IdentifierLine),
    /// Another.
    Other(AnswerText),
}

impl LineText {
    /// The text.
    pub fn as_str(&self) -> &str
        ensures { result.now ≡ text_of self.now }
    {
        match self {
            LineText::Identifier(line) => line.as_str(),
            LineText::Other(text) => text.as_str(),
        }
    }

    /// The text, to which others can be added.
    fn into_string(self, alloc: Global) -> Result<String, AllocError>
        ensures { IfOk result (λ text. string_bytes text ≡ text_of self) }
    {
        match self {
            LineText::Identifier(line) => String::from_str(alloc, line.as_str()),
            LineText::Other(text) => text.into_owned(alloc),
        }
    }
}

/// An answer by a text.
#[derive(Drop)]
pub struct TextAnswer {
    /// The text.
    pub text: LineText,
    /// Whether the line changed what the site holds, so that it is to be kept.
    pub kept: bool,
    /// Why the line isn't done as it asks, if so: the first complaint of its commands.
    pub complaint: Option<Complaint>,
    /// The job that the line began, if it did: the first, where it began several.
    pub begun: Option<Begun>,
}

/// A text that tells of no change.
pub(crate) fn told(text: AnswerText) -> TextAnswer
    ensures text { text_of result.text ≡ cow_str_bytes text.entry }
    ensures kept { result.kept ≡ false }
    ensures complaint { result.complaint ≡ None }
    ensures begun { result.begun ≡ None }
{
    TextAnswer {
        text: LineText::Other(text),
        kept: false,
        complaint: None,
        begun: None,
    }
}

/// A text that says why nothing is done.
pub(crate) fn undone(text: AnswerText, complaint: Complaint) -> TextAnswer
    ensures text { text_of result.text ≡ cow_str_bytes text.entry }
    ensures kept { result.kept ≡ false }
    ensures complaint { result.complaint ≡ Some complaint }
    ensures begun { result.begun ≡ None }
{
    TextAnswer {
        text: LineText::Other(text),
        kept: false,
        complaint: Some(complaint),
        begun: None,
    }
}

/// The answer to commands, the last of which is answered by the second of these.
pub(crate) fn both(
    alloc: Global,
    first: TextAnswer,
    last: TextAnswer,
) -> Result<TextAnswer, NoMemory>
    ensures text { IfOk result (λ a. text_of a.text ≡ text_of first.text ++ text_of last.text) }
    ensures kept { IfOk result (λ a. a.kept ≡ (first.kept || last.kept)) }
    ensures complaint { IfOk result (λ a. a.complaint ≡ option_or first.complaint last.complaint) }
    ensures begun { IfOk result (λ a. a.begun ≡ option_or first.begun last.begun) }
{
    let mut text = first.text.into_string(alloc)?;
    text.push_str(last.text.as_str())?;
    Ok(TextAnswer {
        text: LineText::Other(CowStr::Owned(text)),
        kept: first.kept || last.kept,
        complaint: first.complaint.or(last.complaint),
        begun: first.begun.or(last.begun),
    })
}
