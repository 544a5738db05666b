//! The worked cases: for each its name, the queue's capacity and last stamp, and the calls with their answers. A new
//! case is a new row here.

use super::step::Named::{Given, OfIndex, OfShard, OfStamp};
use super::step::Step;
use super::step::Step::{
    Cancel, Clear, Counts, Deadline, Extend, Filed, Idle, Insert, Look, Moves, NextWake, Out,
    OutOneOf, Peek, Place, RefuseInsert, RefusePoll, RefuseRemove, RefuseReset, Reset, Stamps,
    Sweep, Tallies, Tick, Wait,
};
use dq_core::Look::{LookCancelled, LookExpired, LookRemoved, StillLive};
use dq_core::{CallError, CoreError, Tally};
use dq_ticks::LAST_STAMP;

/// A case: its name, the capacity and the last stamp of its fresh queue of shard 0, and its steps.
pub type Case = (&'static str, usize, u32, &'static [Step]);

const LIMIT: u64 = 4398046511103;

const STALE: CallError = CallError::Stale { seen: 2 };

const CANCELLED: CallError = CallError::Ended { how: LookCancelled };

/// Over plain words and over shared ones, where a caller makes the calls by key.
pub fn over_both_words() -> &'static [Case] {
    OVER_BOTH_WORDS
}

const OVER_BOTH_WORDS: &[Case] = &[
    (
        "due_at_once",
        4,
        LAST_STAMP,
        &[Insert('v', 0), Stamps(0, 1, 1), Out(0, 0, 'v', 0)],
    ),
    (
        "waits_then_out",
        4,
        LAST_STAMP,
        &[Insert('v', 64), Wait(63, 64), Out(64, 0, 'v', 64)],
    ),
    (
        "two_levels",
        4,
        LAST_STAMP,
        &[
            Insert('v', 130),
            Place(0, 1, 2),
            NextWake(128),
            Wait(128, 130),
            Place(0, 0, 2),
            Moves(1),
            Out(130, 0, 'v', 130),
        ],
    ),
    (
        "exact_slot_start",
        4,
        LAST_STAMP,
        &[
            Insert('v', 4096),
            Place(0, 2, 1),
            Wait(4095, 4096),
            Out(4096, 0, 'v', 4096),
            Moves(0),
        ],
    ),
    (
        "three_in_order",
        4,
        LAST_STAMP,
        &[
            Insert('a', 5),
            Insert('b', 70),
            Insert('c', 5000),
            Out(10000, 0, 'a', 5),
            Out(10000, 1, 'b', 70),
            Out(10000, 2, 'c', 5000),
            Idle(10000),
            Moves(3),
        ],
    ),
    // Which of equal deadlines comes first is left open.
    (
        "late_insert_is_due",
        4,
        LAST_STAMP,
        &[
            Insert('a', 5),
            Insert('b', 5),
            Insert('c', 9),
            OutOneOf(100, &['a', 'b'], 5),
            Insert('x', 3),
            Deadline(3, Ok(5)),
            OutOneOf(100, &['a', 'b', 'x'], 5),
            OutOneOf(100, &['a', 'b', 'x'], 5),
            Out(100, 2, 'c', 9),
            Idle(100),
            Tick(100),
        ],
    ),
    (
        "last_tick_and_beyond",
        4,
        LAST_STAMP,
        &[
            Insert('v', 68719476735),
            Place(0, 5, 63),
            NextWake(67645734912),
            Insert('w', 68719476736),
            Filed(1, 68719476735),
            Deadline(1, Ok(68719476736)),
            RefuseInsert(4398046511104, CoreError::TooFar { limit: LIMIT }),
            RefusePoll(4398046511104, CoreError::TickTooLarge { limit: LIMIT }),
        ],
    ),
    (
        "worn_slot",
        1,
        2,
        &[
            Insert('a', 1),
            Stamps(0, 1, 1),
            Out(1, 0, 'a', 1),
            Insert('b', 2),
            Stamps(1, 2, 2),
            RefuseReset(1, 5, CoreError::Worn),
            Look(Given(1), Ok(StillLive(2))),
            Out(2, 1, 'b', 2),
            RefuseInsert(3, CoreError::Full { linked: 0, worn: 1 }),
            Counts(0, 1),
        ],
    ),
    (
        "at_one_lap",
        4,
        LAST_STAMP,
        &[
            Idle(68719476735),
            Insert('v', 68719476736),
            Place(0, 5, 0),
            NextWake(68719476736),
        ],
    ),
    // It is filed short of its deadline, and again when it comes due there.
    (
        "beyond_one_lap",
        4,
        LAST_STAMP,
        &[
            Idle(5),
            Insert('w', 69793218560),
            Filed(0, 68719476740),
            NextWake(68719476736),
            Wait(69793218559, 69793218560),
            Out(69793218560, 0, 'w', 69793218560),
            Moves(1),
        ],
    ),
    (
        "moves_counted",
        4,
        LAST_STAMP,
        &[
            Insert('v', 68719476735),
            Out(68719476735, 0, 'v', 68719476735),
            Moves(5),
        ],
    ),
    (
        "extend_postpones",
        4,
        LAST_STAMP,
        &[
            Insert('a', 10),
            Extend(Given(0), 50, Ok(50)),
            Look(Given(0), Ok(StillLive(50))),
            Wait(10, 50),
            Out(50, 0, 'a', 50),
            Look(Given(0), Ok(LookExpired(50))),
        ],
    ),
    (
        "same_over_both_words",
        1,
        LAST_STAMP,
        &[
            Insert('a', 10),
            Extend(Given(0), 50, Ok(50)),
            Look(Given(0), Ok(StillLive(50))),
            Wait(10, 50),
            Out(50, 0, 'a', 50),
            Look(Given(0), Ok(LookExpired(50))),
        ],
    ),
    (
        "extend_never_lowers",
        4,
        LAST_STAMP,
        &[
            Insert('a', 10),
            Extend(Given(0), 4, Ok(10)),
            Look(Given(0), Ok(StillLive(10))),
        ],
    ),
    (
        "reset_makes_old_key_stale",
        4,
        LAST_STAMP,
        &[
            Insert('a', 1000),
            Reset(0, 20),
            Stamps(1, 2, 1),
            Extend(Given(0), 2000, Err(STALE)),
            Out(20, 1, 'a', 20),
        ],
    ),
    (
        "cancelled_is_reaped",
        4,
        LAST_STAMP,
        &[
            Insert('a', 10),
            Cancel(Given(0), Ok(10)),
            Cancel(Given(0), Err(CANCELLED)),
            Extend(Given(0), 20, Err(CANCELLED)),
            Counts(1, 0),
            RefuseRemove(0, CoreError::WasCancelled),
            Deadline(0, Err(CoreError::WasCancelled)),
            RefuseReset(0, 30, CoreError::WasCancelled),
            Idle(10),
            Tallies(Tally {
                inserted: 1,
                expired: 0,
                removed: 0,
                cancelled: 1,
                linked: 0,
                moves: 0,
            }),
        ],
    ),
    (
        "cancelled_at_the_noted_tick",
        4,
        LAST_STAMP,
        &[
            Idle(5),
            Insert('a', 5),
            Cancel(Given(0), Ok(5)),
            Idle(5),
            Counts(0, 0),
        ],
    ),
    // A key of a stamp that its slot was not given is unknown.
    (
        "packed_vector",
        4,
        LAST_STAMP,
        &[
            Insert('a', 10),
            Look(Given(0), Ok(StillLive(10))),
            Look(OfStamp(0, 9), Err(CallError::Unknown)),
        ],
    ),
    (
        "sweep_and_clear",
        4,
        LAST_STAMP,
        &[
            Insert('c', 30),
            Insert('a', 10),
            Insert('b', 20),
            Peek(1),
            Cancel(Given(2), Ok(20)),
            Sweep(1),
            Counts(2, 0),
            Cancel(Given(0), Ok(30)),
            Clear(1),
            Tallies(Tally {
                inserted: 3,
                expired: 0,
                removed: 1,
                cancelled: 2,
                linked: 0,
                moves: 0,
            }),
            Look(Given(1), Ok(LookRemoved(10))),
            RefuseRemove(1, CoreError::Missing),
        ],
    ),
    (
        "reused_slot_is_stale",
        1,
        LAST_STAMP,
        &[
            Insert('a', 10),
            Out(10, 0, 'a', 10),
            Insert('b', 20),
            Stamps(1, 2, 2),
            Look(Given(0), Err(STALE)),
            Extend(Given(0), 99, Err(STALE)),
            Cancel(Given(0), Err(STALE)),
            Look(Given(1), Ok(StillLive(20))),
        ],
    ),
    (
        "forged_keys",
        4,
        LAST_STAMP,
        &[
            Insert('a', 10),
            Extend(OfIndex(0, 9), 50, Err(CallError::Unknown)),
            Cancel(OfIndex(0, 9), Err(CallError::Unknown)),
            Look(OfIndex(0, 9), Err(CallError::Unknown)),
            Extend(OfStamp(0, 0), 50, Err(CallError::Unknown)),
            Cancel(OfStamp(0, 0), Err(CallError::Unknown)),
            Look(OfStamp(0, 0), Err(CallError::Unknown)),
            Extend(OfIndex(0, 9), 68719476736, Err(CallError::Unknown)),
            Extend(
                OfIndex(0, 9),
                4398046511104,
                Err(CallError::TooFar { limit: LIMIT }),
            ),
            Look(Given(0), Ok(StillLive(10))),
        ],
    ),
];

/// Over plain words alone: the queue looks at a key's shard. Shared words don't: what does is above them.
pub const OVER_PLAIN_WORDS: &[Case] = &[(
    "a_key_of_another_shard_is_unknown",
    4,
    LAST_STAMP,
    &[
        Insert('a', 10),
        Extend(OfShard(0, 5), 50, Err(CallError::Unknown)),
        Cancel(OfShard(0, 5), Err(CallError::Unknown)),
        Look(OfShard(0, 5), Err(CallError::Unknown)),
    ],
)];
