//! Laws over any list of a store's calls.
//!
//! Each call of a [`crate::SizedStore`] keeps the ids that entries have had: its clause `keeps` says so. `with_value`
//! keeps each but that of the entry whose value it changes. A core that comes in keeps those which it doesn't give
//! anew: of cores of unused numbers and of drained ones `no_core_gives_anew` says that they give none anew, folded and
//! unfolded or not. An insert says, by `gives`, that its key is of an id that no entry has had. What a removal, a move
//! or a poll gives out, its clauses `leaves`, `came_out` and `goes_out` tell.
//!
//! Each function is empty: its contract is the law, and a call of it hands the law to the prover.
ghost use Rattle.dq_growing.specs.Runs.{CoresGiveNoneAnew, StoreEndedStaysEnded, StoreEntriesLeaveOnce};

/// An entry leaves at most once, whatever calls are made, and has its value until then. The call by which it left alone
/// may give it out, with that value. From then on none stands under its id, and nothing is given out under it.
#[tactic(auto, using(crate::proofs::Keeping::entries_leave_once))]
pub fn entries_leave_once<T, W>()
    ensures { StoreEntriesLeaveOnce T W }
{}

/// Under an id whose entry has left none stands ever again, and nothing is given out.
#[tactic(auto, using(crate::proofs::Keeping::ended_stays_ended))]
pub fn ended_stays_ended<T, W>()
    ensures { StoreEndedStaysEnded T W }
{}

/// A core of an unused number gives no id anew that an entry has had, nor does one that has drained, even where it was
/// folded and unfolded.
#[tactic(auto, using(crate::proofs::Keeping::no_core_gives_anew))]
pub fn no_core_gives_anew<T, W>()
    ensures { CoresGiveNoneAnew T W }
{}
