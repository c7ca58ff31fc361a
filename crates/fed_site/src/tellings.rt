//! Answers, and what the user is told beside them.
ghost use Rattle.std.specs.Prelude.{◌≡◌, IfOk, option_map, string_bytes};
ghost use Rattle.fed_site.specs.Told.{AreWordsOf, IsTold};

use crate::reasons::{reason_text, warning_text};
use crate::site::{Site, SiteAnswer};
use fed_lattice::NoMemory;
use std::alloc::Global;

/// An answer, and what the user is told beside it.
#[derive(Drop)]
pub struct Told {
    /// What the site answered to the line.
    pub answer: SiteAnswer,
    /// What is told beside it, where that is asked for: one line.
    pub words: Option<String>,
}

/// What the user is told of a line that the site has just answered so, one line: why it isn't done as it asks, or what else
/// there is to say of one that changed what the site holds.
pub fn words_beside(
    alloc: Global,
    site: &Site,
    line: &[u8],
    answer: &SiteAnswer,
) -> Result<Option<String>, NoMemory>
    ensures { IfOk result (λ words. AreWordsOf answer.now (option_map string_bytes words)) }
{
    match answer.complaint() {
        Some(complaint) => Ok(Some(reason_text(alloc, site, line, &complaint)?)),
        None if answer.is_kept() => warning_text(alloc, site, answer.begun()),
        None => Ok(None),
    }
}

impl Told {
    /// The answer that the site has just given to a line, and the words beside it where they are asked for.
    pub fn new(
        alloc: Global,
        site: &Site,
        line: &[u8],
        answer: SiteAnswer,
        asked: bool,
    ) -> Result<Told, NoMemory>
        ensures answer { IfOk result (λ told. told.answer ≡ answer) }
        ensures words { IfOk result (IsTold asked) }
    {
        let words = if asked {
            words_beside(alloc, site, line, &answer)?
        } else {
            None
        };
        Ok(Told { answer, words })
    }
}
