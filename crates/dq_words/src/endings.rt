//! The headline of the words: each given stamp, and each inserted entry, ends exactly once or is still queued.
ghost use Rattle.dq_words.specs.Endings.{StampsEndOnce, OthersAreBlank, EndsAreInForce};
ghost use Rattle.dq_words.specs.Endings.{EntriesEndOnce, EndedWordsStay};

/// Between any two steps of the keeper and its callers, each stamp that a slot was given was given once, and was
/// ended once by the keeper, or cancelled once by a caller, or its word is live; no other stamp has a call or a
/// write.
#[tactic(auto, using(crate::proofs::Ends::stamps, crate::proofs::Ends::others))]
pub fn stamps_end_once()
    ensures once { StampsEndOnce }
    ensures others { OthersAreBlank }
{}

/// Each end that the keeper wrote, and each accepted cancel, was at the deadline in force: no extend that was
/// accepted at its stamp is later.
pub fn ends_are_in_force()
    ensures { EndsAreInForce }
{}

/// Each inserted entry, through its resets, was ended exactly once, as expired, as removed or by an accepted cancel,
/// or is still queued.
#[tactic(auto, using(crate::proofs::Births::entries))]
pub fn entries_end_once()
    ensures { EntriesEndOnce }
{}

/// Once the keeper has seen no word live, none is live, whatever its callers do.
#[tactic(auto, using(crate::proofs::Ends::ended_stay))]
pub fn ended_words_stay()
    ensures { EndedWordsStay }
{}
