//! The utilities and their options.
ghost use Rattle.std.specs.Prelude.{◌≡◌};
ghost use Rattle.fed_words.specs.Utility.{choice_of, takes_argument as wants_argument, utility_named};

/// A batch utility of POSIX.1-2017, XCU chapter 3.
#[derive(Clone, Copy, PartialEq, Eq, Debug)]
pub enum Utility {
    /// `qsub`: submit a job.
    Qsub,
    /// `qalter`: set values of jobs.
    Qalter,
    /// `qhold`: add holds to jobs.
    Qhold,
    /// `qrls`: release holds of jobs.
    Qrls,
    /// `qdel`: delete jobs.
    Qdel,
    /// `qstat`: list jobs.
    Qstat,
}

/// An option of a utility.
#[derive(Clone, Copy, PartialEq, Eq, Debug)]
pub enum Choice {
    /// `-A account_string`
    Account,
    /// `-h` of `qsub`: submit with a user hold.
    Held,
    /// `-h hold_list` of `qhold` and `qrls`.
    Kinds,
    /// `-l list`
    Resources,
    /// `-N name`
    Name,
    /// `-p priority`
    Priority,
    /// `-f`: list in full.
    Full,
}

impl Utility {
    /// The utility of this name, or `None` where there is none.
    pub fn named(name: &str) -> Option<Utility>
        ensures { result ≡ utility_named name.now }
    {
        match name.as_bytes() {
            b"qsub" => Some(Utility::Qsub),
            b"qalter" => Some(Utility::Qalter),
            b"qhold" => Some(Utility::Qhold),
            b"qrls" => Some(Utility::Qrls),
            b"qdel" => Some(Utility::Qdel),
            b"qstat" => Some(Utility::Qstat),
            _ => None,
        }
    }

    /// The option of this letter, or `None` where the utility has none.
    pub fn choice(self, letter: char) -> Option<Choice>
        ensures { result ≡ choice_of self letter }
    {
        match (self, letter) {
            (Utility::Qsub | Utility::Qalter, 'A') => Some(Choice::Account),
            (Utility::Qsub, 'h') => Some(Choice::Held),
            (Utility::Qhold | Utility::Qrls, 'h') => Some(Choice::Kinds),
            (Utility::Qsub | Utility::Qalter, 'l') => Some(Choice::Resources),
            (Utility::Qsub | Utility::Qalter, 'N') => Some(Choice::Name),
            (Utility::Qsub | Utility::Qalter, 'p') => Some(Choice::Priority),
            (Utility::Qstat, 'f') => Some(Choice::Full),
            _ => None,
        }
    }
}

impl Choice {
    /// Whether the option takes an argument.
    pub fn takes_argument(self) -> bool
        ensures { result ≡ wants_argument self }
    {
        match self {
            Choice::Held | Choice::Full => false,
            Choice::Account | Choice::Kinds | Choice::Resources | Choice::Name | Choice::Priority =>
                true,
        }
    }
}
