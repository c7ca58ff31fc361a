//! Identifiers of jobs.
ghost use Rattle.std.specs.Prelude.{◌≡◌, position};
ghost use Rattle.fed_words.specs.Identifier.{is_dot, job_in, sequence_in};

use crate::faults::UsageFault;
use crate::numbers::read_number;
use crate::sites::read_site;
use fed_stamp::{JobId, MAX_COUNTER, Roster, SiteId, Stamp};

/// How many digits the sequence number of an identifier has at most.
pub const MAX_SEQUENCE_DIGITS: usize = 10;

/// The job that a word names where it is read at `here`. An identifier is a sequence number, a dot and the name of a
/// site, or a sequence number alone, which means the site that reads it. A sequence number is 1 to
/// `MAX_SEQUENCE_DIGITS` decimal digits, of which the first may be zeros, with a value from 1 to `MAX_COUNTER`.
///
/// `BadIdentifier` where the word has another form, and `UnknownSite` where the roster has no site of this name.
pub fn read_identifier(roster: &Roster, here: SiteId, word: &str) -> Result<JobId, UsageFault>
    ensures { result ≡ job_in roster.now here word.now }
{
    match dot_in(word.as_bytes()) {
        Some(dot) => {
            let counter = read_sequence(&word[..dot])?;
            let site = read_site(UsageFault::BadIdentifier, roster, &word[dot + 1..])?;
            Ok(Stamp::new(counter, site).unwrap())
        }
        None => Ok(Stamp::new(read_sequence(word)?, here).unwrap()),
    }
}

/// The index of the first dot.
fn dot_in(word: &[u8]) -> Option<usize>
    ensures { result ≡ position is_dot word.now }
{
    word.iter().position(|byte| *byte == b'.')
}

/// The number that 1 to `MAX_SEQUENCE_DIGITS` decimal digits write.
fn read_sequence(word: &str) -> Result<u64, UsageFault>
    ensures { result ≡ sequence_in word.now }
{
    if word.len() > MAX_SEQUENCE_DIGITS {
        return Err(UsageFault::BadIdentifier);
    }
    match read_number(word) {
        Some(number) => {
            if 1 <= number && number <= MAX_COUNTER {
                Ok(number)
            } else {
                Err(UsageFault::BadIdentifier)
            }
        }
        None => Err(UsageFault::BadIdentifier),
    }
}
