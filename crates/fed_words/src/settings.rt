//! What options set.
ghost use Rattle.std.specs.Prelude.{◌≡◌, ◌∷◌, ◌++◌, [], List, Some, Ok, Err, if◌then◌else◌};
ghost use Rattle.fed_stamp.specs.Word.{is_name};
ghost use Rattle.fed_words.specs.declared.faults.UsageFault.{UsageFault};
ghost use Rattle.fed_words.specs.Fault.{Gives};
ghost use Rattle.fed_words.specs.Setting.{last_settings, settings_in};
ghost use Rattle.fed_words.specs.Spelling.{Item};

use crate::faults::UsageFault;
use crate::kinds::read_kinds;
use crate::priorities::read_priority;
use crate::resources::{Resources, read_resources};
use crate::utilities::Choice;
use fed_model::{Account, Changes, HoldKinds, Priority};
use fed_stamp::{Roster, Word};
use std::alloc::Global;

/// What an option sets, as the definitions speak of it.
#[derive(Clone, Copy, PartialEq, Eq, Debug)]
pub enum Setting {
    /// `-A account_string`
    Account(Account),
    /// `-h` of `qsub`
    Held,
    /// `-h hold_list`
    Kinds(HoldKinds),
    /// `-l list`
    Resources(Resources),
    /// `-N name`
    Name(Word),
    /// `-p priority`
    Priority(Priority),
    /// `-f`
    Full,
}

/// What the options of a line set.
#[derive(Clone, Copy, PartialEq, Eq, Debug)]
pub struct Settings {
    /// What they set of a job.
    pub changes: Changes,
    /// Whether `-h` of `qsub` is given.
    pub held: bool,
    /// The kinds of holds.
    pub kinds: Option<HoldKinds>,
    /// Whether `-f` is given.
    pub full: bool,
}

impl Settings {
    /// Where no option is given.
    pub(crate) fn none() -> Settings
        ensures { result ≡ last_settings [] }
    {
        Settings {
            changes: Changes {
                name: None,
                priority: None,
                nodes: None,
                limit: None,
                account: None,
                sites: None,
            },
            held: false,
            kinds: None,
            full: false,
        }
    }

    /// Sets what an option with this argument sets, in the place of what an earlier one of its letter set. Not inlined,
    /// so that settings stay where they are: a loop would move all of them in each turn.
    #[inline(never)]
    pub(crate) fn set(
        &mut self,
        alloc: Global,
        roster: &Roster,
        option: Choice,
        argument: &str,
    ) -> Result<(), UsageFault>
        ensures { (items : List Item) → settings_in roster.now items ≡ Ok self.old →
            Gives (λ _. self.new) result (settings_in roster.now (items ++ (option, argument.now) ∷ [])) }
    {
        match option {
            Choice::Account => self.changes.account = Some(read_account(argument)?),
            Choice::Held => self.held = true,
            Choice::Kinds => self.kinds = Some(read_kinds(argument).ok_or(UsageFault::BadValue)?),
            Choice::Resources => {
                let resources = read_resources(alloc, roster, argument)?;
                self.changes.nodes = resources.nodes;
                self.changes.limit = resources.limit;
                self.changes.sites = resources.sites;
            }
            Choice::Name => {
                self.changes.name = Some(Word::new(argument).ok_or(UsageFault::BadValue)?)
            }
            Choice::Priority => {
                self.changes.priority = Some(read_priority(argument).ok_or(UsageFault::BadValue)?)
            }
            Choice::Full => self.full = true,
        }
        Ok(())
    }
}

/// The account that an account string names; an empty string names none.
#[tactic(auto, unfolding(fed_stamp::specs::Word::is_name))]
fn read_account(text: &str) -> Result<Account, UsageFault>
    ensures { result ≡ (if is_name text.now then Ok (Some text.now) else Err UsageFault.BadValue) }
{
    if text.is_empty() {
        return Err(UsageFault::BadValue);
    }
    Account::new(text).ok_or(UsageFault::BadValue)
}
