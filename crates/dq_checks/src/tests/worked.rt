//! Each worked case, over a fresh queue; and those of a keeper with a caller.

use super::cases::{Case, OVER_PLAIN_WORDS, over_both_words};
use super::queues::{Calls, Queue, open, plain, shared};
use super::same;
use super::step::Step;
use dq_core::{CallError, DelayCore, Look, Settled, Words};
use dq_ticks::{EntryId, Key};
use dq_words::{Caller, HANDLE_LIMIT, Keeper, OpenWords, WordsError};
use std::process::Abort;
use std::test::Fail;

// Each step of a case answers as it has to. Steps count from 0.
fn plays<W: Words, C: Calls<W>>(rt: &impl Abort, queue: &mut Queue<W, C>, case: &Case) {
    let (name, _, _, steps) = case;
    for (number, step) in steps.iter().enumerate() {
        let answer = (number, queue.takes(*step));
        same(rt, *name, answer, (number, Some(true)));
    }
}

// Likewise, of a queue that goes then. That is proved once for all words, which is quicker than for each.
fn plays_out<W: Words + Drop, C: Calls<W> + Drop>(
    rt: &impl Abort,
    mut queue: Queue<W, C>,
    case: &Case,
) {
    plays(rt, &mut queue, case);
}

fn all_over_plain<R: Abort + AllocGlobal>(rt: &R, cases: &[Case]) -> Result<(), Fail> {
    for case in cases {
        plays_out(rt, plain(rt.alloc(), case.1, case.2)?, case);
    }
    Ok(())
}

// promise: core.worked-cases
#[test]
fn cases_over_plain_words(rt: HostRuntime) -> Result<(), Fail> {
    all_over_plain(&rt, over_both_words())?;
    all_over_plain(&rt, OVER_PLAIN_WORDS)
}

// How many cancels of a case are accepted.
fn cancels(case: &Case) -> u64 {
    case.3
        .iter()
        .filter(|step| matches!(step, Step::Cancel(_, Ok(_))))
        .count() as u64
}

// How many callers are out, and what is returned.
fn standing(core: &mut DelayCore<char, Keeper>) -> (u64, Result<u64, u64>) {
    (core.out(), core.returned())
}

// Behind a case its caller is given back through the queue, and the keeper is told its accepted cancels.
fn gives_back(rt: &impl Abort, core: &mut DelayCore<char, Keeper>, caller: Caller, case: &Case) {
    let before = standing(core);
    let given = caller.give_back();
    let after = standing(core);
    let cancels = cancels(case);
    same(
        rt,
        case.0,
        (before, given, after),
        ((1, Err(1)), cancels, (0, Ok(cancels))),
    );
}

fn plays_and_gives_back(rt: &impl Abort, mut queue: Queue<Keeper, Caller>, case: &Case) {
    plays(rt, &mut queue, case);
    let Queue {
        mut core,
        calls,
        ..
    } = queue;
    gives_back(rt, &mut core, calls, case);
}

fn all_over_shared<R: Abort + AllocGlobal>(rt: &R, cases: &[Case]) -> Result<(), Fail> {
    for case in cases {
        plays_and_gives_back(rt, shared(rt.alloc(), case.1, case.2)?, case);
    }
    Ok(())
}

// promise: core.worked-cases
#[test]
fn cases_over_shared_words(rt: HostRuntime) -> Result<(), Fail> {
    all_over_shared(&rt, over_both_words())
}

// Behind a case no caller is out, and none cancelled anything.
fn plays_with_nobody_out(rt: &impl Abort, mut queue: Queue<Keeper, OpenWords>, case: &Case) {
    plays(rt, &mut queue, case);
    let stands = standing(&mut queue.core);
    same(rt, case.0, stands, (0, Ok(0)));
}

fn all_over_open<R: Abort + AllocGlobal>(rt: &R, cases: &[Case]) -> Result<(), Fail> {
    for case in cases {
        plays_with_nobody_out(rt, open(rt.alloc(), case.1, case.2)?, case);
    }
    Ok(())
}

// promise: core.worked-cases
#[test]
fn cases_over_open_words(rt: HostRuntime) -> Result<(), Fail> {
    all_over_open(&rt, over_both_words())
}

// An extend to a tick with its answer, or a look with its own, by a key of this index and stamp.
type ByKey = (u32, u32, Asked);

#[derive(Clone, Copy)]
enum Asked {
    Extend(u64, Result<u64, CallError>),
    Look(Result<Look, CallError>),
}

// What a caller answers by keys of entries of shard 0 that were born at stamp 1.
fn answers(rt: &impl Abort, caller: &mut Caller, rows: &[ByKey]) {
    for (number, (index, stamp, asked)) in rows.iter().enumerate() {
        let key = Key::new(EntryId::new(0, *index, 1), *stamp);
        match asked {
            Asked::Extend(when, answer) => same(rt, number, caller.extend(&key, *when), *answer),
            Asked::Look(answer) => same(rt, number, caller.look(&key), *answer),
        }
    }
}

const STALE: CallError = CallError::Stale { seen: 2 };

const ENDED: CallError = CallError::Ended {
    how: Look::LookExpired(50),
};

const TOO_FAR: CallError = CallError::TooFar {
    limit: 4398046511103,
};

const WAITS: &[ByKey] = &[(0, 1, Asked::Extend(50, Ok(50)))];

const EXPIRED: &[ByKey] = &[
    (0, 1, Asked::Look(Ok(Look::LookExpired(50)))),
    (0, 1, Asked::Extend(4, Err(ENDED))),
];

const GIVEN_AGAIN: &[ByKey] = &[
    (0, 1, Asked::Look(Err(STALE))),
    (0, 1, Asked::Extend(99, Err(STALE))),
    (9, 1, Asked::Extend(50, Err(CallError::Unknown))),
    (0, 0, Asked::Extend(50, Err(CallError::Unknown))),
    (9, 1, Asked::Extend(4398046511104, Err(TOO_FAR))),
];

const RENEWED: &[ByKey] = &[(0, 1, Asked::Extend(50, Err(STALE)))];

const CANCELLED: &[ByKey] = &[(0, 2, Asked::Look(Ok(Look::LookCancelled)))];

// Of a keeper that issued one caller.
fn issues_to_the_limit(rt: &impl Abort, keeper: &mut Keeper) -> Result<(), Fail> {
    for _ in 1..HANDLE_LIMIT {
        keeper.issue()?;
    }
    let refused = WordsError::TooManyHandles { limit: 1024 };
    same(rt, "issue", keeper.issue().err(), Some(refused));
    same(rt, "out", keeper.out(), 1024);
    Ok(())
}

// promise: words.first-second
#[test]
fn words_first_pass(rt: HostRuntime) -> Result<(), Fail> {
    let mut keeper = Keeper::new(rt.alloc(), 1)?;
    let mut caller = keeper.issue()?;
    keeper.begin(0, 1, 10);
    answers(&rt, &mut caller, WAITS);
    let Settled::Later(later) = keeper.settle(0, 1, 10) else {
        panic!(rt; "the extend was lost")
    };
    same(&rt, "settle", later, 50);
    let Settled::SettledExpired = keeper.settle(0, 1, later) else {
        panic!(rt; "it was due")
    };
    answers(&rt, &mut caller, EXPIRED);
    keeper.begin(0, 2, 60);
    answers(&rt, &mut caller, GIVEN_AGAIN);
    issues_to_the_limit(&rt, &mut keeper)
}

// How many callers are out, and what is returned.
fn is_out(rt: &impl Abort, keeper: &mut Keeper, out: u64, returned: Result<u64, u64>) {
    let stands = (keeper.out(), keeper.returned());
    same(rt, "out", stands, (out, returned));
}

fn leaves(rt: &impl Abort, caller: Caller, cancels: u64) {
    let told = caller.cancels();
    same(
        rt,
        "give back",
        (told, caller.give_back()),
        (cancels, cancels),
    );
}

// promise: words.first-second
#[test]
fn words_second_pass(rt: HostRuntime) -> Result<(), Fail> {
    let mut keeper = Keeper::new(rt.alloc(), 1)?;
    let mut caller = keeper.issue()?;
    keeper.begin(0, 1, 10);
    let Some(before) = keeper.renew(0, 1, 5) else {
        panic!(rt; "it was live")
    };
    same(&rt, "renew", before, 10);
    answers(&rt, &mut caller, RENEWED);
    let key = Key::new(EntryId::new(0, 0, 1), 2);
    same(&rt, "cancel", caller.cancel(&key), Ok(5));
    let None = keeper.renew(0, 2, 9) else {
        panic!(rt; "it was cancelled")
    };
    let None = keeper.finish(0, 2) else {
        panic!(rt; "it was cancelled")
    };
    let settled = keeper.settle(0, 2, 5);
    same(&rt, "settle", settled, Settled::SettledCancelled);
    answers(&rt, &mut caller, CANCELLED);
    is_out(&rt, &mut keeper, 1, Err(1));
    leaves(&rt, caller, 1);
    is_out(&rt, &mut keeper, 0, Ok(1));
    Ok(())
}
