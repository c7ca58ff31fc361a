//! What single words say.
ghost use Rattle.std.specs.Prelude.{◌≡◌};
ghost use Rattle.fed_script.specs.Values.{identifier, moment, packet, status};

use fed_model::Moment;
use fed_stamp::{JobId, Roster, SiteId};
use fed_words::{read_identifier, read_number};

/// The identifier of a job or of a reservation, as it is read at the site `here`.
pub fn read_id(roster: &Roster, here: SiteId, word: &str) -> Option<JobId>
    ensures { result ≡ identifier roster.now here word.now }
{
    read_identifier(roster, here, word).ok()
}

/// A moment, in seconds.
pub fn read_moment(word: &str) -> Option<Moment>
    ensures { result ≡ moment word.now }
{
    Moment::new(read_number(word)?)
}

/// The status that a job gave, from 0 to `MAX_STATUS`.
pub(crate) fn read_status(word: &str) -> Option<u8>
    ensures { result ≡ status word.now }
{
    u8::try_from(read_number(word)?).ok()
}

/// The number of a packet, where `made` packets were made: from 1 to `made`.
pub(crate) fn read_packet(made: u64, word: &str) -> Option<u64>
    ensures { result ≡ packet made word.now }
{
    let number = read_number(word)?;
    if 1 <= number && number <= made {
        Some(number)
    } else {
        None
    }
}
