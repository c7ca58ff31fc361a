//! What a replica answers to commands and to packets.
ghost use Rattle.std.specs.Prelude.{◌≡◌, ◌≢◌, Err, false, IfOk, OnErr};
ghost use Rattle.fed_model.specs.declared.refusals.Refusal.{Refusal};
ghost use Rattle.fed_model.specs.Outcome.{outcome_of};
ghost use Rattle.fed_replica.specs.Outcome.{outcome_of_received};

use fed_lattice::NoMemory;
use fed_model::{Outcome, Taken};
use fed_record::{Refusal, Reply};
use fed_stamp::SiteId;

/// What is said to a command, and whether an operation was added.
#[derive(Clone, Copy, PartialEq, Eq, Debug)]
pub struct Answered {
    /// The reply, or the refusal. It is never `NoMemory`.
    pub said: Result<Reply, Refusal>,
    /// Whether an operation was added.
    pub added: bool,
}

/// What came of a packet.
#[derive(Clone, Copy, PartialEq, Eq, Debug)]
pub enum Received {
    /// It was taken.
    Taken(Taken),
    /// It was not taken, since the replica lacks something of this site.
    Gap(SiteId),
}

impl Answered {
    /// What is said, as the outcome of an event.
    pub fn outcome(&self) -> Outcome
        ensures { result ≡ outcome_of self.now.said }
    {
        match &self.said {
            Ok(reply) => Outcome::Replied(*reply),
            Err(refusal) => Outcome::Refused(*refusal),
        }
    }
}

impl Received {
    /// What came of the packet, as the outcome of an event.
    pub fn outcome(&self) -> Outcome
        ensures { result ≡ outcome_of_received self.now }
    {
        match self {
            Received::Taken(taken) => Outcome::Taken(*taken),
            Received::Gap(missing) => Outcome::Gap(*missing),
        }
    }
}

/// What is answered where a command is refused, but for want of memory.
pub(crate) fn refused(refusal: Refusal) -> Result<Answered, NoMemory>
    ensures answer { IfOk result (λ a. a ≡ record { said = Err refusal; added = false }) }
    ensures told { IfOk result (λ a. refusal ≢ Refusal.NoMemory) }
    ensures memory { OnErr result (refusal ≡ Refusal.NoMemory) }
{
    match refusal {
        Refusal::NoMemory => Err(NoMemory),
        _ => Ok(Answered {
            said: Err(refusal),
            added: false,
        }),
    }
}
