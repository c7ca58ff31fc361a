//! The fields of a job read from JSON values.
ghost use Rattle.std.specs.Prelude.{◌≡◌, Some};
ghost use Rattle.serde_json.specs.Data.{Data};
ghost use Rattle.serde_json.specs.View.{view};
ghost use Rattle.fed_lattice.specs.Results.{mapped};
ghost use Rattle.fed_json.specs.Reading.{Reading};
ghost use Rattle.fed_job_json.specs.Fields.{field_of, name_of, priority_of, nodes_of, limit_of, account_in};
ghost use Rattle.fed_job_json.specs.Job.{account_of, fields_of};
ghost use Rattle.fed_job_json.specs.Members.{members_value};
ghost use Rattle.fed_record.specs.JobParts.{fields_set};

use crate::formats::Format;
use crate::members::JobMembers;
use crate::stamps::read_stamp;
use fed_json::{Flaw, both, elements, integer, natural, text};
use fed_record::{
    Account, FieldParts, Fields, Limit, MAX_LIMIT, MAX_PRIORITY, MIN_PRIORITY, Nodes, Priority,
};
use fed_stamp::{MAX_NODES, Stamp, Word};
use serde_json::Value;

/// A value that a field of a job has.
trait FieldValue: Sized + Copy {
    // What is read of a JSON value.
    ghost reading: { Data → Reading Self };

    /// What is read of a JSON value: `Shape` where it has another form, else `Range` where it is out of its range.
    fn read(value: &Value) -> Result<Self, Flaw>
        ensures { result ≡ reading (view value.now) };
}

impl FieldValue for Word {
    ghost reading = { name_of };

    fn read(value: &Value) -> Result<Word, Flaw> {
        Word::new(text(value)?).ok_or(Flaw::Range)
    }
}

impl FieldValue for Priority {
    ghost reading = { priority_of };

    fn read(value: &Value) -> Result<Priority, Flaw> {
        let number = integer(value)?;
        if i128::from(MIN_PRIORITY) <= number && number <= i128::from(MAX_PRIORITY) {
            Priority::new(number as i16).ok_or(Flaw::Range)
        } else {
            Err(Flaw::Range)
        }
    }
}

impl FieldValue for Nodes {
    ghost reading = { nodes_of };

    fn read(value: &Value) -> Result<Nodes, Flaw> {
        Nodes::new(natural(value, 1, MAX_NODES)?).ok_or(Flaw::Range)
    }
}

impl FieldValue for Limit {
    ghost reading = { limit_of };

    fn read(value: &Value) -> Result<Limit, Flaw> {
        Limit::new(natural(value, 1, MAX_LIMIT)?).ok_or(Flaw::Range)
    }
}

impl FieldValue for Account {
    ghost reading = { account_in };

    fn read(value: &Value) -> Result<Account, Flaw> {
        Account::new(text(value)?).ok_or(Flaw::Range)
    }
}

/// A value beside its stamp: an array of the two.
fn field<T: FieldValue>(value: &Value) -> Result<(Stamp, T), Flaw>
    ensures { mapped (λ f. Some f) result ≡ field_of T.reading (view value.now) }
{
    match elements(value)? {
        [set, at] => {
            let (set, stamp) = both(T::read(set), read_stamp(at))?;
            Ok((stamp, set))
        }
        _ => Err(Flaw::Shape),
    }
}

// The account; in format 1 the empty one that the submission set.
#[tactic(auto, using(crate::proofs::MemberLaws::account_of_one, crate::proofs::MemberLaws::account_of_two))]
fn account_member(members: &JobMembers<'_>, format: Format) -> Result<(Stamp, Account), Flaw>
    ensures { mapped (λ f. Some f) result ≡ account_of format (members_value members.now) }
{
    match format {
        Format::One => Ok((read_stamp(members.id)?, Account::EMPTY)),
        Format::Two => field(members.account.ok_or(Flaw::Shape)?),
    }
}

/// The fields, each beside its stamp; `Shape` where one has another form or the account of format 2 is missing, else
/// `Range` where a value is out of its range.
pub fn fields(members: &JobMembers<'_>, format: Format) -> Result<FieldParts, Flaw>
    ensures { mapped fields_set result ≡ fields_of format (members_value members.now) }
{
    let names = both(field(members.owner), field(members.name));
    let numbers = both(field(members.nodes), field(members.limit));
    let others = both(numbers, account_member(members, format));
    match both(names, both(field(members.priority), others)) {
        Ok(read) => {
            let (names, (priority, (numbers, account))) = read;
            Ok(Fields {
                owner: names.0,
                name: names.1,
                priority,
                nodes: numbers.0,
                limit: numbers.1,
                account,
            })
        }
        Err(flaw) => Err(flaw),
    }
}
