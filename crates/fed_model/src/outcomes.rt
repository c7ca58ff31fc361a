//! What is answered to an event.
ghost use Rattle.std.specs.Prelude.{◌≡◌};

use crate::refusals::Refusal;
use crate::replies::Reply;
use crate::taken::Taken;
use fed_stamp::SiteId;

/// What is answered to an event.
#[derive(Clone, Copy, PartialEq, Eq, Debug)]
pub enum Outcome {
    /// The command was done, with this reply.
    Replied(Reply),
    /// The command was refused.
    Refused(Refusal),
    /// The packet with this number was made.
    Packet(u64),
    /// The packet was taken.
    Taken(Taken),
    /// The packet was not taken, since the site lacks something of this site.
    Gap(SiteId),
    /// No packet has this number.
    NoPacket,
    /// There is no such site in the federation.
    NoSite,
}

/// What a replica says to a command, as an outcome.
impl From<Result<Reply, Refusal>> for Outcome {
    ghost use Rattle.fed_model.specs.Outcome.{outcome_of};

    ghost from_gives = { λ said outcome. outcome ≡ outcome_of said };

    fn from(said: Result<Reply, Refusal>) -> Outcome {
        match said {
            Ok(reply) => Outcome::Replied(reply),
            Err(refusal) => Outcome::Refused(refusal),
        }
    }
}
