//! What the lines of a script do, one after another.
ghost use Rattle.std.specs.Prelude.{◌≡◌, IfOk, IsSome, OnErr, None, option_map};
ghost use Rattle.std.specs.Cow.{cow_str_bytes};
ghost use Rattle.std.specs.Option.{option_and_then};
ghost use Rattle.fed_replay.specs.ScriptWorld.{state_of};
ghost use Rattle.fed_script.specs.LineView.{said_by};
ghost use Rattle.fed_replay.specs.Script.{answered, begun_by, does, says};

use crate::script_worlds::ScriptWorld;
use fed_lattice::NoMemory;
use fed_qstat::AnswerText;
use fed_script::{Line, read_first_line};
use std::alloc::Global;
use std::borrow::CowStr;

/// A script's state: no world before the line that names its sites.
#[derive(Drop)]
pub(crate) struct Session {
    /// The world, once its sites are named.
    pub(crate) world: Option<ScriptWorld>,
}

impl Session {
    /// No world as yet.
    pub(crate) fn new() -> Session
        ensures { result.world ≡ None }
    {
        Session { world: None }
    }

    /// Does what a line says that was read where no line has named the sites yet, and gives the text that answers it, or
    /// `None` where the line can't be read.
    fn begin(&mut self, alloc: Global, read: Option<Line>) -> Result<Option<AnswerText>, NoMemory>
        requires { self.old.world ≡ None }
        ensures ok { IfOk result (λ text. option_map (λ t. says (state_of self.new.world) (cow_str_bytes t)) text ≡
            option_map (does None) (option_map said_by read)) }
        // memory is wanted where the sites are named, and nowhere else
        ensures err { OnErr result (IsSome (option_and_then begun_by (option_map said_by read))) }
    {
        match read {
            Some(Line::Begin { roster }) => {
                self.world = Some(ScriptWorld::new(alloc, roster)?);
                Ok(Some(CowStr::Borrowed("")))
            }
            Some(_) => Ok(Some(CowStr::Borrowed(""))),
            None => Ok(None),
        }
    }

    /// Runs a line where no line has named the sites yet.
    fn run_first(&mut self, alloc: Global, bytes: &[u8]) -> Result<Option<AnswerText>, NoMemory>
        requires { self.old.world ≡ None }
        ensures { IfOk result (λ text. option_map (λ t. says (state_of self.new.world) (cow_str_bytes t)) text ≡
            answered None bytes.now) }
    {
        let read = read_first_line(alloc, bytes)?;
        self.begin(alloc, read)
    }

    /// Runs a line, and gives the text that answers it, or `None` where the line can't be read.
    pub(crate) fn run_line(
        &mut self,
        alloc: Global,
        bytes: &[u8],
    ) -> Result<Option<AnswerText>, NoMemory>
        ensures { IfOk result (λ text. option_map (λ t. says (state_of self.new.world) (cow_str_bytes t)) text ≡
            answered (state_of self.old.world) bytes.now) }
    {
        match &mut self.world {
            Some(world) => world.run_line(alloc, bytes),
            None => self.run_first(alloc, bytes),
        }
    }
}
