//! A bell is played, and refused each allocation in turn.
ghost use Rattle.dq_bell.specs.Lines.{IsFreshLine};
ghost use Rattle.dq_bell.specs.Seats.{IsFreshLeader};
ghost use Rattle.dq_bell.specs.Turns.{IsFreshTurns};

use dq_bell::{Call, Closer, Leader, Line, NEVER, Turns};
use dq_testing::RefusingHeap;
use std::alloc::{AllocError, Allocator};
use std::process::Abort;

// A bell of two places and one that closes: nobody is rung until somebody sleeps beyond a hint, and then once.
fn play<A: Allocator + Clone>(rt: &impl Abort, heap: A) -> Result<(), AllocError> {
    let mut leader = Leader::new(heap, 3)?;
    let played = play_two(rt, &mut leader);
    leader.end();
    played
}

fn play_two<A: Allocator>(rt: &impl Abort, leader: &mut Leader<A>) -> Result<(), AllocError>
    requires { IsFreshLeader 3 leader.old }
{
    let mut one = leader.add_place()?;
    let mut two = leader.add_place()?;
    let mut closer = Closer::new(leader.add_place()?);
    assert!(rt; !one.set(100).is_leader(), "nobody sleeps");
    assert!(rt; !leader.may_sleep(101), "an entry is due before");
    assert!(rt; leader.may_sleep(100), "none is due before");
    assert!(rt; !two.set(200).is_leader(), "it sleeps no longer");
    assert!(rt; two.set(50).is_leader(), "it sleeps beyond");
    assert!(rt; !two.set(40).is_leader(), "it was rung");
    assert!(rt; !leader.may_sleep(100), "an entry came meanwhile");
    assert!(rt; leader.may_sleep(40), "none is due before");
    assert!(rt; !two.set(300).is_leader(), "it wakes before");
    assert!(rt; two.tick() == 300 && one.tick() == 100, "as they were told");
    assert!(rt; leader.may_sleep(90) && !closer.is_closed(), "it is open");
    assert!(rt;
        closer.close().is_leader() && closer.is_closed(),
        "it sleeps"
    );
    assert!(rt; !closer.close().is_leader(), "it was rung");
    assert!(rt; !leader.may_sleep(1), "nobody sleeps from then on");
    Ok(())
}

// promise: bell.set bell.may-sleep bell.close
#[test]
fn a_sleeper_is_rung_once(rt: HostRuntime) -> Result<(), AllocError> {
    play(&rt, rt.alloc())
}

// promise: bell.new bell.add-place
#[test]
fn each_allocation_of_a_bell_is_refused(rt: HostRuntime) {
    for grants in 0..100u64 {
        let heap = RefusingHeap::new(rt.alloc(), grants);
        let played = play(&rt, &heap);
        assert!(rt;
            played.is_err() == heap.has_refused(),
            "refused where memory is"
        );
        if played.is_ok() {
            assert!(rt; grants > 3, "each was refused once");
            return;
        }
    }
    panic!(rt; "it takes memory without end");
}

// Two wait in line, each with a call that owns memory.
fn wait_in_line<A: Allocator + Clone>(rt: &impl Abort, heap: A) -> Result<(), AllocError> {
    let mut line = Line::new(heap.clone()?, 1)?;
    let waited = two_wait(rt, &mut line, heap);
    line.end();
    waited
}

fn two_wait<A: Allocator + Clone>(
    rt: &impl Abort,
    line: &mut Line<Box<u64, A>, A>,
    heap: A,
) -> Result<(), AllocError>
    requires { IsFreshLine 1 line.old }
{
    let mut hint = line.add_place()?;
    let hints = line.hints()?;
    assert!(rt; line.first().is_none(), "nobody leads");
    let first = line.join()?;
    let second = line.join()?;
    let one = Box::new(heap.clone()?, 1)?;
    let two = Box::new(heap.clone()?, 2)?;
    let again = Box::new(heap, 3)?;
    assert!(rt; line.sleep(second, 7, two).is_ok(), "who follows sleeps");
    assert!(rt;
        line.sleep(first, 100, one).is_ok(),
        "nothing is due before"
    );
    assert!(rt; line.sleep(first, 100, again).is_err(), "it sleeps already");
    assert!(rt;
        told_by(line.ring(hint.set(100))) == 0,
        "it sleeps no longer"
    );
    assert!(rt; told_by(line.ring(hint.set(50))) == 1, "it sleeps beyond");
    assert!(rt; told_by(line.ring(hint.set(40))) == 0, "it was rung");
    assert!(rt;
        hints.tick(1) == 40 && hints.tick(0) != 0,
        "as it was lowered"
    );
    assert!(rt;
        hints.first_before(0, 41) == Some(1) && hints.first_before(0, 40).is_none(),
        "the one place that is before that tick"
    );
    assert!(rt; line.first() == Some(first), "it leads");
    assert!(rt; line.rise(first).is_none(), "it was called");
    assert!(rt; told_by(line.leave(first)) == 2, "the next one leads");
    assert!(rt; told_by(line.close()) == 0, "nobody sleeps");
    assert!(rt; hints.tick(0) == 0, "it is closed");
    assert!(rt; hints.first_before(0, 41) == Some(0), "the least one");
    assert!(rt; line.rise(second).is_none(), "it was called");
    assert!(rt; told_by(line.leave(second)) == 0, "nobody is left");
    Ok(())
}

fn told_by<A: Allocator>(call: Option<Call<Box<u64, A>>>) -> u64 {
    match call {
        Some(Call(number)) => *number,
        None => 0,
    }
}

// promise: bell.hints line.first line.join line.sleep line.rise line.leave line.ring line.close
#[test]
fn two_wait_and_one_leads(rt: HostRuntime) -> Result<(), AllocError> {
    wait_in_line(&rt, rt.alloc())
}

// promise: line.new line.join
#[test]
fn each_allocation_of_a_line_is_refused(rt: HostRuntime) {
    for grants in 0..100u64 {
        let heap = RefusingHeap::new(rt.alloc(), grants);
        let waited = wait_in_line(&rt, &heap);
        assert!(rt;
            waited.is_err() == heap.has_refused(),
            "refused where memory is"
        );
        if waited.is_ok() {
            assert!(rt; grants > 6, "each was refused once");
            return;
        }
    }
    panic!(rt; "it takes memory without end");
}

// One leads and one follows, each a task or a thread; until when the first sleeps, until when the other one is told to
// watch it from tick 0 on, and a tick at which that one takes the lead or doesn't.
#[derive(Clone, Copy)]
struct Waits {
    leads_task: bool,
    follows_task: bool,
    until: u64,
    watched: u64,
    at: u64,
    takes_lead: bool,
}

const fn watching(
    (leads_task, follows_task): (bool, bool),
    (until, watched): (u64, u64),
    (at, takes_lead): (u64, bool),
) -> Waits {
    Waits {
        leads_task,
        follows_task,
        until,
        watched,
        at,
        takes_lead,
    }
}

fn cases() -> [Waits; 8] {
    [
        watching((true, false), (100, 150), (149, false)),
        watching((true, false), (100, 150), (150, true)),
        watching((true, true), (100, 150), (151, true)),
        watching((true, true), (5000, 1000), (1000, false)),
        watching((true, false), (5000, 1000), (5050, true)),
        watching((true, false), (NEVER - 10, 1000), (NEVER, true)),
        watching((false, true), (100, 1000), (5000, false)),
        watching((false, false), (100, NEVER), (5000, false)),
    ]
}

fn take_turns<A: Allocator + Clone>(rt: &impl Abort, heap: A) -> Result<(), AllocError> {
    for case in cases() {
        let boxes = heap.clone()?;
        let mut turns = Turns::new(heap.clone()?, 1)?;
        let taken = two_take_turns(rt, &mut turns, boxes, case);
        turns.end();
        taken?;
    }
    Ok(())
}

fn two_take_turns<A: Allocator + Clone>(
    rt: &impl Abort,
    turns: &mut Turns<Box<u64, A>, A>,
    heap: A,
    case: Waits,
) -> Result<(), AllocError>
    requires { IsFreshTurns 1 turns.old }
{
    let mut hint = turns.add_place()?;
    let first = turns.join(case.leads_task)?;
    let second = turns.join(case.follows_task)?;
    let one = Box::new(heap.clone()?, 1)?;
    let two = Box::new(heap.clone()?, 2)?;
    let again = Box::new(heap.clone()?, 3)?;
    let mut risen = Vec::new(heap);
    assert!(rt;
        turns.sleep(first, case.until, 0, one).ok() == Some(case.until),
        "it leads"
    );
    assert!(rt;
        turns.sleep(second, 7, 0, two).ok() == Some(case.watched),
        "it follows"
    );
    assert!(rt;
        number_of(turns.overtake(second, case.at)) == 0,
        "it sleeps"
    );
    assert!(rt; number_of(turns.rise(second)) == 2, "it slept");
    let gave = number_of(turns.overtake(second, case.at));
    assert!(rt; (gave == 1) == case.takes_lead, "it leads now");
    assert!(rt;
        turns.sits(first) != case.takes_lead,
        "it has lost its seat"
    );
    if case.takes_lead {
        let (slept, called) = turns.leave(first, case.at);
        let given = number_of(slept).max(told_by(called));
        assert!(rt; given == 0 && turns.sits(second), "a lost seat is nobody's");
        assert!(rt;
            turns.sleep(first, 7, 0, again).is_err(),
            "nor does it sleep"
        );
        let third = turns.join(false)?;
        assert!(rt;
            !turns.sits(first) && turns.sits(third),
            "no number comes again"
        );
    }
    turns.rise_all(case.at, &mut risen)?;
    assert!(rt;
        risen.len() == (if case.takes_lead { 0 } else { 1 }),
        "the one that leads slept"
    );
    assert!(rt;
        told_by(turns.ring(hint.set(0), case.at)) == 0,
        "nobody sleeps"
    );
    let (slept, called) = turns.leave(second, case.at);
    let given = number_of(slept).max(told_by(called));
    assert!(rt; given == 0, "nobody sleeps");
    assert!(rt; told_by(turns.close()) == 0, "nobody sleeps");
    Ok(())
}

fn number_of<A: Allocator>(own: Option<Box<u64, A>>) -> u64 {
    match own {
        Some(number) => *number,
        None => 0,
    }
}

// promise: turns.law turns.leave turns.act-by turns.overtake turns.sleep turns.rise-all
#[test]
fn turns_are_taken(rt: HostRuntime) -> Result<(), AllocError> {
    take_turns(&rt, rt.alloc())
}

// promise: turns.join
#[test]
fn each_allocation_of_turns_is_refused(rt: HostRuntime) {
    for grants in 0..1000u64 {
        let heap = RefusingHeap::new(rt.alloc(), grants);
        let taken = take_turns(&rt, &heap);
        assert!(rt;
            taken.is_err() == heap.has_refused(),
            "refused where memory is"
        );
        if taken.is_ok() {
            assert!(rt; grants > 60, "each was refused once");
            return;
        }
    }
    panic!(rt; "it takes memory without end");
}
