//! What a call answers: a code, and two numbers that some codes carry.
ghost use Rattle.std.specs.Prelude.{◌≡◌};
ghost use Rattle.dq_c.specs.Answers.{two_numbers, with_number, no_numbers, tells, core_answer, words_answer};
ghost use Rattle.dq_c.specs.Answers.{look_answer, call_answer, reap_answer};

use dq_core::{CallError, CoreError, Look, ReapError};
use dq_words::WordsError;

/// The call did what it says.
pub const DQ_OK: u32 = 0;
/// The handle holds nothing.
pub const DQ_EMPTY: u32 = 1;
/// The handle holds something already.
pub const DQ_HELD: u32 = 2;
/// The deadline is beyond the last tick, which is the first number.
pub const DQ_TOO_FAR: u32 = 3;
/// No slot is free: the numbers are how many entries are linked and how many slots are worn.
pub const DQ_FULL: u32 = 4;
/// No entry is linked with the key's shard, index and birth.
pub const DQ_MISSING: u32 = 5;
/// A caller cancelled the entry.
pub const DQ_WAS_CANCELLED: u32 = 6;
/// The entry's slot has no stamp left for another key.
pub const DQ_WORN: u32 = 7;
/// The tick is beyond the last tick, which is the first number.
pub const DQ_TICK_TOO_LARGE: u32 = 8;
/// A number of the configuration is out of its range.
pub const DQ_BAD_CONFIG: u32 = 9;
/// Memory was refused.
pub const DQ_NO_MEMORY: u32 = 10;

/// Nothing is due: a number is the next tick at which there is something to do.
pub const DQ_WAITING: u32 = 11;
/// Nothing is linked.
pub const DQ_IDLE: u32 = 12;
/// The key names no slot, or a stamp that its slot wasn't given.
pub const DQ_UNKNOWN: u32 = 13;
/// The slot has a later stamp than the key, which is the first number.
pub const DQ_STALE: u32 = 14;
/// The entry has ended: the numbers are how, and at which deadline.
pub const DQ_ENDED: u32 = 15;
/// The queue has issued as many callers as it may, which is the first number.
pub const DQ_TOO_MANY_CALLERS: u32 = 16;
/// Callers are out: so many is the first number.
pub const DQ_CALLERS_OUT: u32 = 17;
/// The row has no place to write to.
pub const DQ_NO_PLACE: u32 = 18;
/// Entries are linked: so many is the first number.
pub const DQ_STILL_LINKED: u32 = 19;
/// The number isn't higher than the queue's, which is the first number.
pub const DQ_USED_NUMBER: u32 = 20;
/// The call did as much as it may, and more may be left: call again.
pub const DQ_WORKING: u32 = 21;
/// The entry is live, so it isn't reaped.
pub const DQ_STILL_LIVE: u32 = 22;

/// The entry is live, and the number beside this is its deadline in force.
pub const DQ_LIVE: u64 = 0;
/// The entry was cancelled, and the number beside this is 0.
pub const DQ_CANCELLED: u64 = 1;
/// The entry expired at the deadline beside this.
pub const DQ_EXPIRED: u64 = 2;
/// The entry was removed while the deadline beside this was in force.
pub const DQ_REMOVED: u64 = 3;

/// The number of the library's form, which changes with the arguments, the answers or the meaning of any call.
pub const DQ_FORM: u32 = 4;

/// What a call answers.
#[repr(C)]
#[derive(Clone, Copy)]
pub struct DqAnswer {
    /// Which answer it is.
    pub code: u32,
    /// What the code says of it, and else 0.
    pub first: u64,
    /// What the code says of it, and else 0.
    pub second: u64,
}

// The answer of a code with its two numbers.
pub(crate) fn with_two(code: u32, first: u64, second: u64) -> DqAnswer
    ensures { result ≡ two_numbers code first second }
{
    DqAnswer {
        code,
        first,
        second,
    }
}

// The answer of a code with one number.
pub(crate) fn with_one(code: u32, first: u64) -> DqAnswer
    ensures { result ≡ with_number code first }
{
    with_two(code, first, 0)
}

// The answer of a code that carries no number.
pub(crate) fn only(code: u32) -> DqAnswer
    ensures { result ≡ no_numbers code }
{
    with_two(code, 0, 0)
}

// Done, with a number to tell.
pub(crate) fn told(number: u64) -> DqAnswer
    ensures { result ≡ tells number }
{
    with_one(DQ_OK, number)
}

// Why the owner's call is refused.
pub(crate) fn of_core(error: CoreError) -> DqAnswer
    ensures { result ≡ core_answer error }
{
    match error {
        CoreError::TooFar { limit } => with_one(DQ_TOO_FAR, limit),
        CoreError::Full { linked, worn } => with_two(DQ_FULL, linked as u64, worn as u64),
        CoreError::Missing => only(DQ_MISSING),
        CoreError::WasCancelled => only(DQ_WAS_CANCELLED),
        CoreError::Worn => only(DQ_WORN),
        CoreError::TickTooLarge { limit } => with_one(DQ_TICK_TOO_LARGE, limit),
        CoreError::BadConfig => only(DQ_BAD_CONFIG),
        CoreError::NoMemory => only(DQ_NO_MEMORY),
    }
}

// Why no entry is reaped.
pub(crate) fn of_reap(error: ReapError) -> DqAnswer
    ensures { result ≡ reap_answer error }
{
    match error {
        ReapError::Missing => only(DQ_MISSING),
        ReapError::Live => only(DQ_STILL_LIVE),
    }
}

// Why no caller is issued.
pub(crate) fn of_words(error: WordsError) -> DqAnswer
    ensures { result ≡ words_answer error }
{
    match error {
        WordsError::BadConfig => only(DQ_BAD_CONFIG),
        WordsError::NoMemory => only(DQ_NO_MEMORY),
        WordsError::TooManyHandles { limit } => with_one(DQ_TOO_MANY_CALLERS, limit),
    }
}

// How an entry stands.
pub(crate) fn of_look(code: u32, look: Look) -> DqAnswer
    ensures { result ≡ look_answer code look }
{
    match look {
        Look::StillLive(deadline) => with_two(code, DQ_LIVE, deadline),
        Look::LookCancelled => with_two(code, DQ_CANCELLED, 0),
        Look::LookExpired(deadline) => with_two(code, DQ_EXPIRED, deadline),
        Look::LookRemoved(deadline) => with_two(code, DQ_REMOVED, deadline),
    }
}

// Why a call by key is refused.
pub(crate) fn of_call(error: CallError) -> DqAnswer
    ensures { result ≡ call_answer error }
{
    match error {
        CallError::TooFar { limit } => with_one(DQ_TOO_FAR, limit),
        CallError::Unknown => only(DQ_UNKNOWN),
        CallError::Stale { seen } => with_one(DQ_STALE, u64::from(seen)),
        CallError::Ended { how } => of_look(DQ_ENDED, how),
    }
}
