//! Each allocation of a script's run is refused in turn.

use super::EVERY_COMMAND;
use super::table::{Row, joined};
use dq_replay::{ReplayFault, run};
use dq_testing::RefusingHeap;
use linked_list_allocator::LocalHeap;
use std::alloc::Global;
use std::process::Abort;
use std::test::Fail;

// Runs a script again and again, each time with the next of its allocations refused, until none is. A refused run
// ends between two answers; answers how often it ended later than the run before, the first run counted too, and how
// many allocations the script makes.
fn refuse_each_allocation(
    rt: &impl Abort,
    alloc: Global,
    capacity: usize,
    script: &[u8],
    answers: &[u8],
) -> Result<(usize, u64), Fail> {
    let mut ends = 0usize;
    let mut answered = 0;
    for grants in 0..1000u64 {
        let all = LocalHeap::new(alloc, 1 << 16)?;
        let heap = RefusingHeap::new(&all, grants);
        let mut reader = script;
        let mut written = Vec::new(alloc);
        let end = run(&heap, &mut reader, &mut written, capacity);
        assert_eq!(rt; all.used(), 0);
        assert!(rt; answers.starts_with(&written));
        if !heap.has_refused() {
            assert_eq!(rt; end, Ok(()));
            assert!(rt; written.len() == answers.len());
            return Ok((ends, grants));
        }
        assert_eq!(rt; end, Err(ReplayFault::NoMemory));
        assert!(rt; written.is_empty() || written.ends_with(b"\n"));
        if grants == 0 || written.len() > answered {
            ends = ends.saturating_add(1);
        }
        answered = written.len();
    }
    assert!(rt; false, "each run was refused");
    Ok((ends, 0))
}

// Each command of a table takes memory, so the refused runs end before the first answer and behind each but the last.
// There are as many of them as the whole script makes allocations.
fn each_command_takes_memory(
    rt: &impl Abort,
    alloc: Global,
    capacity: usize,
    first: &str,
    rows: &[Row],
    allocations: u64,
) -> Result<(), Fail> {
    let (script, answers) = joined(alloc, first, rows)?;
    let refused = refuse_each_allocation(
        rt,
        alloc,
        capacity,
        script.as_bytes(),
        answers.as_bytes(),
    )?;
    assert_eq!(rt; refused, (rows.len(), allocations));
    Ok(())
}

// promise: replay.want-memory
#[test]
fn refused_memory(rt: HostRuntime) -> Result<(), Fail> {
    let table: &[Row] = &[
        ("insert a 5", "a at 5"),
        (
            "insert aaaaaaaaaaaaaaaaaaaaaaaaaaaaaaaa 5",
            "aaaaaaaaaaaaaaaaaaaaaaaaaaaaaaaa at 5",
        ),
        ("insert b 3", "b at 3"),
        ("insert c 4", "c at 4"),
        ("insert d 4", "d at 4"),
        ("insert e 4", "e at 4"),
        (
            "tick 4",
            "b expired 3\nc expired 4\nd expired 4\ne expired 4\ntick 4",
        ),
        (
            "tick 9",
            "a expired 5\naaaaaaaaaaaaaaaaaaaaaaaaaaaaaaaa expired 5\ntick 9",
        ),
    ];
    each_command_takes_memory(&rt, rt.alloc(), 6, "delay 1", table, 45)
}

// promise: replay.want-memory
#[test]
fn refused_memory_at_every_command(rt: HostRuntime) -> Result<(), Fail> {
    for first in ["delay 1", "delay 2"] {
        each_command_takes_memory(&rt, rt.alloc(), 2, first, &EVERY_COMMAND, 61)?;
    }
    Ok(())
}
