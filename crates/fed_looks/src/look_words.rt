//! The words that ask for a look.
ghost use Rattle.std.specs.Prelude.{◌≡◌};
ghost use Rattle.fed_looks.specs.LookWord.{look_named};

/// The first word of a line that asks for a look. A user may have such a name: a line of another form is that user's.
#[derive(Clone, Copy, PartialEq, Eq, Debug)]
pub enum LookWord {
    /// `why JOB MOMENT`
    Why,
    /// `machine MOMENT`
    Machine,
    /// `reservations`
    Reservations,
    /// `jobs [JOB ..]`
    Jobs,
    /// `seen`
    Seen,
    /// `chart MOMENT`
    Chart,
    /// `plan MOMENT but JOB ..`
    Plan,
    /// `plan-json MOMENT [but JOB ..]`
    PlanJson,
    /// `machine-json MOMENT`
    MachineJson,
    /// `roster`
    Roster,
    /// `seen-json`
    SeenJson,
    /// `reservations-json`
    ReservationsJson,
}

impl LookWord {
    /// What a word asks for, or `None` where it asks for no look.
    pub fn named(word: &str) -> Option<LookWord>
        ensures { result ≡ look_named word.now }
    {
        match word {
            "why" => Some(LookWord::Why),
            "machine" => Some(LookWord::Machine),
            "reservations" => Some(LookWord::Reservations),
            "jobs" => Some(LookWord::Jobs),
            "seen" => Some(LookWord::Seen),
            "chart" => Some(LookWord::Chart),
            "plan" => Some(LookWord::Plan),
            "plan-json" => Some(LookWord::PlanJson),
            "machine-json" => Some(LookWord::MachineJson),
            "roster" => Some(LookWord::Roster),
            "seen-json" => Some(LookWord::SeenJson),
            "reservations-json" => Some(LookWord::ReservationsJson),
            _ => None,
        }
    }
}
