//! Laws over whole runs of the queue's machine.
//!
//! The machine is what a queue is without its wheel: a table of entries by slots, the wheel's tick and the noted
//! tick. A run is a list of its events, one after the other. Each call of a queue is such a run, and runs join. So
//! what holds of every run holds over any list of calls. Over shared words a caller's extend or cancel is an event of
//! the run too, once the queue has learned of it.
//!
//! Each function is empty: its contract is the law, and a call of it hands the law to the prover.
ghost use Rattle.dq_core.specs.Runs.{RunsJoin, OutsComeInOrder, EntriesLeaveOnce};
ghost use Rattle.dq_core.specs.Runs.{StampsNeverFall, ValuesStay, EndedStaysEnded};
ghost use Rattle.dq_core.specs.RunsOfCalls.{CallsAreRuns, LawsHoldOverCalls, NoBirthIsAhead, WhatLeftHasEnded};

/// Each call that changes a queue is a run from the machine before it to the machine after it, also where the call is
/// refused. On the run of a poll, or of a piece of one, the entry that it gives expires, and no other. On any other
/// call's run none does.
pub fn calls_are_runs<T, W>()
    ensures { CallsAreRuns T W }
{}

/// Two runs are one run, where the second begins at the machine that the first left. So the runs of any list of
/// calls are one run.
pub fn runs_join<T>()
    ensures { RunsJoin T }
{}

/// Entries come out in the order of their deadlines, and none has a deadline before the tick at which the run began.
/// That holds whatever came between: inserts, extends, cancels, resets, and ticks that were noted.
pub fn outs_come_in_order<T>()
    ensures { OutsComeInOrder T }
{}

/// No entry is lost, none ends twice, and none changes its value.
///
/// An entry stays in its slot, under its birth stamp and with its value, until exactly one event of the run removes,
/// reaps or expires it. From then on no entry of that birth stamp is there. The law asks that the entry was born at
/// a stamp that its slot has had. `no_birth_is_ahead` says that of every entry of a queue.
pub fn entries_leave_once<T>()
    ensures { EntriesLeaveOnce T }
{}

/// What is linked in a lawful queue was born at a stamp that its slot has had, as `entries_leave_once` asks. That a
/// queue is lawful at all times is the contract of `DelayCore::law`.
pub fn no_birth_is_ahead<T, W>()
    ensures { NoBirthIsAhead T W }
{}

/// What has ended is never live again. An entry ends where it expires, is removed, or is cancelled, and a cancelled
/// one stays in its slot until it is reaped. The law asks that its slot has had its birth stamp, as
/// `no_birth_is_ahead` says. So a keeper that saw an entry end never sees it live again, whatever callers do.
pub fn ended_stays_ended<T>()
    ensures { EndedStaysEnded T }
{}

/// What a call took out has ended, as `ended_stays_ended` asks: what a remove, a poll or a piece of a poll answered.
/// So has what a cancel by key ended, and what a call found cancelled.
pub fn what_left_has_ended<T, W>()
    ensures { WhatLeftHasEnded T W }
{}

/// The stamp of a slot never falls.
pub fn stamps_never_fall<T>()
    ensures { StampsNeverFall T }
{}

/// What is linked under a birth stamp that its slot had before the run was linked there before the run, with the
/// same value. So a new entry never takes a birth stamp that its slot has had.
pub fn values_stay<T>()
    ensures { ValuesStay T }
{}

/// Over any list of calls of a queue, one after the other, all the laws of runs hold at once: what comes out comes in
/// the order of its deadlines; each entry that was linked is linked still or left exactly once; what had ended before
/// stays ended, and is never live again; and no stamp falls. Each call is in the list by what `calls_are_runs` says
/// of it, and by its clause `same`.
pub fn laws_hold_over_calls<T, W>()
    ensures { LawsHoldOverCalls T W }
{}
