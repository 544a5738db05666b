//! Laws over the calls of a queue, each the contract of an empty function.

ghost use Rattle.dq_core.specs.Folds.{FoldsComeToTicks};
ghost use Rattle.dq_core.specs.Readers.{PeeksBoundDeadlines, WakesBoundDeadlines};
ghost use Rattle.dq_core.specs.Rests.{RestsLeaveNoCancelled};

use crate::words::Words;

/// After a poll that finds nothing due, so that it waits or is idle, all that is linked is filed after the noted
/// tick. So each entry that was cancelled and was filed up to that tick is out of the queue.
pub fn rests_leave_no_cancelled<T, W: Words>()
    ensures { RestsLeaveNoCancelled T W }
{}

/// At all times, between the pieces of a poll too, no live entry has a deadline before the tick by which the entry is
/// filed that `peek` names. So what it names comes out before each other deadline where it is filed at its own.
pub fn peeks_bound_deadlines<T, W: Words>()
    ensures { PeeksBoundDeadlines T W }
{}

/// At all times no live entry has a deadline before the next wake, at which there is something to do: so nothing is
/// late that is polled for then.
pub fn wakes_bound_deadlines<T, W: Words>()
    ensures { WakesBoundDeadlines T W }
{}

/// A folded queue that comes to a tick is a queue machine that notes the tick, and then passes to the greatest one that
/// it noted.
pub fn folds_come_to_ticks<T, W: Words>()
    ensures { FoldsComeToTicks T W }
{}
