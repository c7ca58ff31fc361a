//! Why a site refuses a command, each cause with its number.
ghost use Rattle.std.specs.Prelude.{◌≡◌, ◌≤◌};
ghost use Rattle.fed_model.specs.Refusal.{number_of};

use fed_lattice::NoMemory;
use fed_stamp::{ClockFull, SiteId};
use thiserror::Error;

/// Why a command is refused, in the order in which the reasons are looked for: the first that applies is
/// answered, and nothing changes. A job is granted where its grant is open: given to a site and not handed back.
#[derive(Clone, Copy, PartialEq, Eq, Debug, Drop, Error)]
pub enum Refusal {
    /// 1: the job isn't on the site's board. To all commands that name a job.
    #[error("this site does not know the job")]
    UnknownJob,
    /// 2: the asker's role forbids it. To Alter, Hold, Release, Delete, Reserve and Cancel.
    #[error("the role of the asker does not permit it")]
    NotPermitted,
    /// 3: the job has no letter: it is finished, or was deleted before it began. To all commands that name a job, to Decline
    /// only where it is finished.
    #[error("the job is finished or deleted")]
    Gone,
    /// 4: the job is granted, to whatever site. To Alter and Hold.
    #[error("the job is granted")]
    Granted,
    /// 5: the job was submitted at another site than this. To Grant.
    #[error("the job was submitted at another site")]
    NotOrigin,
    /// 6: a hold is present, and the job is not granted (to Grant) or not begun (to Begin).
    #[error("the job is held")]
    Held,
    /// 7: the job is not granted, and the asker isn't among its sites. To Grant.
    #[error("the job may not run at that site")]
    NotEligible,
    /// 8: the job is granted to another site than the asker, which this names. To Grant.
    #[error("the job is granted to another site")]
    TakenBy(SiteId),
    /// 9: the job isn't granted to the site that is asked. To Begin, Finish, HandBack and Decline.
    #[error("the job is not granted to this site")]
    NotGranted,
    /// 10: the job has begun. To Begin, HandBack and Decline.
    #[error("the job has begun")]
    Begun,
    /// 11: the job hasn't begun. To Finish.
    #[error("the job has not begun")]
    NotBegun,
    /// 12: the window's end is not above its start or is above `MAX_MOMENT`, or its nodes are 0 or above
    /// `MAX_NODES`. To Reserve.
    #[error("the reservation ends before it starts, or its end or nodes are out of range")]
    BadWindow,
    /// 13: the reservation isn't on the site's board, or is cancelled. To Cancel.
    #[error("this site does not know the reservation, or it is cancelled")]
    UnknownReservation,
    /// 14: 10,000 or more jobs of this site are not retired (to Submit), or 1,000 or more reservations (to Reserve). Jobs
    /// that are gone and reservations that are cancelled count until they are retired. To Retire where the site would then
    /// have more than 1,000 ranges, of which none touches another; of a range whose ends are as 17 asks.
    #[error("the site has as many jobs, reservations or ranges of retired identifiers as it may have")]
    SiteFull,
    /// 15: an operation would be added, and the greatest counter that the site has seen is `MAX_COUNTER`. To all
    /// commands. To Grant also where the term that was handed back is `MAX_TERM`.
    #[error("the numbers that it needs are used up")]
    ClockFull,
    /// 16: an allocation failed. To all commands.
    #[error("there was no memory for it")]
    NoMemory,
    /// 17: the range is empty, begins at 0 or reaches beyond the site's own counter, a job of this site in it is not
    /// settled, so that it runs or could still begin, or a reservation of this site in it is not cancelled. To Retire.
    #[error("the range is none of this site, or a job or a reservation in it is not settled")]
    NotSettled,
}

/// 16: memory was refused.
impl From<NoMemory> for Refusal {
    ghost use Rattle.fed_model.specs.declared.refusals.Refusal.TheVariants.{NoMemory};

    ghost from_gives = { λ _ refusal. refusal ≡ NoMemory };

    fn from(_error: NoMemory) -> Refusal {
        Refusal::NoMemory
    }
}

/// 15: no greater counter is left for a stamp.
impl From<ClockFull> for Refusal {
    ghost use Rattle.fed_model.specs.declared.refusals.Refusal.TheVariants.{ClockFull};

    ghost from_gives = { λ _ refusal. refusal ≡ ClockFull };

    fn from(_error: ClockFull) -> Refusal {
        Refusal::ClockFull
    }
}

impl Refusal {
    /// The number of the refusal, from 1 to 17.
    pub fn number(self) -> u8
        ensures { result ≡ number_of self }
    {
        match self {
            Refusal::UnknownJob => 1,
            Refusal::NotPermitted => 2,
            Refusal::Gone => 3,
            Refusal::Granted => 4,
            Refusal::NotOrigin => 5,
            Refusal::Held => 6,
            Refusal::NotEligible => 7,
            Refusal::TakenBy(_) => 8,
            Refusal::NotGranted => 9,
            Refusal::Begun => 10,
            Refusal::NotBegun => 11,
            Refusal::BadWindow => 12,
            Refusal::UnknownReservation => 13,
            Refusal::SiteFull => 14,
            Refusal::ClockFull => 15,
            Refusal::NoMemory => 16,
            Refusal::NotSettled => 17,
        }
    }
}
