//! Inputs that are served while homes are compacted and opened again, on files in memory.
ghost use Rattle.std.specs.Prelude.{IfOk};
ghost use Rattle.fed_journal.specs.Memory.{memory_may_leave, memory_seen};
ghost use Rattle.fed_home.specs.Home.{IsOpen};
ghost use Rattle.fed_serve.specs.Openings.{IsLeft};

use crate::inputs::{MADE, in_pieces, opened};
use fed_home::{Home, HomeFault};
use fed_journal::Memory;
use fed_serve::openings::compact_long;
use fed_serve::{NotCompacted, Place, serve_all};
use fed_site::Site;
use std::alloc::Global;
use std::test::Fail;

/// Homes in memory, each opened from what the disk of the one before has.
#[derive(Drop)]
struct Disks {
    alloc: Global,
}

impl Place<Memory> for Disks {
    type Fault = HomeFault;

    // the tests rely on no clause
    ghost trusted = { λ place. ⊥ };

    fn may_replace(&self, _site: &Site) -> bool {
        true
    }

    fn open_again(&mut self, home: Home<Memory>) -> Result<Home<Memory>, HomeFault>
        ensures open { IfOk result (λ again. IsOpen memory_seen memory_may_leave again) }
        ensures found { IfOk result (λ again. ⊥ → IsLeft memory_seen memory_may_leave home again) }
        ensures before { ⊥ → ⊥ }
    {
        opened(self.alloc, &home.into_device().into_disk(), usize::MAX)
    }

    fn tell_not_kept(&self, _cause: HomeFault) {}

    fn tell_not_compacted(&self, _cause: NotCompacted) {}
}

// The disk stops at its fifth call, and has room again once it is opened.
#[test]
fn answers_go_on_behind_lines_that_are_not_kept(rt: HostRuntime) -> Result<(), Fail> {
    let alloc = rt.alloc();
    let home = opened(alloc, MADE, 4)?;
    let mut input = in_pieces(b"ann qsub\nann qsub\nann qstat\nann qsub\n", 9);
    let mut output = Vec::new(alloc);
    let mut place = Disks { alloc };
    let ended = serve_all(
        alloc,
        &mut place,
        home,
        &mut input,
        &mut output,
        false,
        false,
    );
    assert!(rt; ended.is_ok());
    assert_eq!(rt;
        output.as_slice(),
        b"1.argonne\n\nnot kept\n\n1.argonne          STDIN            ann              Q      0        1      3600 -\n\n2.argonne\n\n".as_slice()
    );
    Ok(())
}

// 100 alterations of one job come to less than a fourth of their bytes.
#[test]
fn a_long_journal_is_compacted(rt: HostRuntime) -> Result<(), Fail> {
    let alloc = rt.alloc();
    let mut home = opened(alloc, MADE, usize::MAX)?;
    let mut lines: Vec<&[u8]> = vec![in alloc; b"ann qsub".as_slice()]?;
    for _ in 0..50 {
        lines.push(b"ann qalter -p 5 1")?;
        lines.push(b"ann qalter -p 6 1")?;
    }
    home.answer(&lines, false)?;
    let before = home.journal_len();
    let compacted = compact_long(&Disks { alloc }, &mut home);
    assert!(rt; compacted.goes_on);
    assert_eq!(rt; compacted.longest, 1_048_576);
    let after = home.into_device().into_disk();
    assert!(rt; after.len() <= before / 4 && after.starts_with(b"+ "));
    Ok(())
}
