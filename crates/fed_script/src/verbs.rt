//! The words that say what a line asks of its site, where no user stands.
ghost use Rattle.std.specs.Prelude.{◌≡◌};
ghost use Rattle.fed_script.specs.Verb.{verb_named};

/// A word that stands behind the name of a site where no user does. No user of a script has such a name.
#[derive(Clone, Copy, PartialEq, Eq, Debug)]
pub enum Verb {
    /// `grant JOB ASKER`
    Grant,
    /// `begin JOB MOMENT`
    Begin,
    /// `finish JOB MOMENT STATUS`
    Finish,
    /// `handback JOB`
    HandBack,
    /// `decline JOB`
    Decline,
    /// `retire FIRST LAST`
    Retire,
    /// `ship SITE`
    Ship,
    /// `take PACKET`
    Take,
    /// `plan MOMENT`
    Plan,
}

impl Verb {
    /// The verb that a word is.
    pub fn named(word: &str) -> Option<Verb>
        ensures { result ≡ verb_named word.now }
    {
        match word.as_bytes() {
            b"grant" => Some(Verb::Grant),
            b"begin" => Some(Verb::Begin),
            b"finish" => Some(Verb::Finish),
            b"handback" => Some(Verb::HandBack),
            b"decline" => Some(Verb::Decline),
            b"retire" => Some(Verb::Retire),
            b"ship" => Some(Verb::Ship),
            b"take" => Some(Verb::Take),
            b"plan" => Some(Verb::Plan),
            _ => None,
        }
    }
}
