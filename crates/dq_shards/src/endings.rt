//! The headline of the shards: each inserted entry ends exactly once or is still queued, and expires only at its
//! deadline in force, at a tick already noted.
ghost use Rattle.dq_words.specs.declared.views.View.{View};
ghost use Rattle.dq_shards.specs.Endings.{OutsAreInForce, PieceOutsAreInForce, EveryEntryEndsOnce};
ghost use Rattle.dq_shards.specs.Endings.{InsertsAreGiven, InsertedEntriesEndOnce};

use dq_words::endings;

/// Whatever a poll of a shard's state gives out ended as expired at its deadline in force, at a tick already noted.
pub fn outs_are_in_force<T>()
    ensures { OutsAreInForce T }
{
    endings::ends_are_in_force();
}

/// Whatever a poll in pieces of a shard's state gives out ended so too.
pub fn piece_outs_are_in_force<T>()
    ensures { PieceOutsAreInForce T }
{
    endings::ends_are_in_force();
}

/// Each entry that a shard's keeper ever began ended exactly once, or is live.
pub fn entries_end_once()
    ensures { (w : View) → EveryEntryEndsOnce w }
{
    endings::entries_end_once();
}

/// The stamp of each key that an insert answers was given once, and ended once, or was cancelled once, or its word is
/// live.
pub fn inserts_are_given<T>()
    ensures { InsertsAreGiven T }
{
    endings::stamps_end_once();
}

/// The entry of each key that an insert answers, through its resets, ended exactly once, or is live, at every later
/// view of that keeper.
pub fn inserted_entries_end_once<T>()
    ensures { InsertedEntriesEndOnce T }
{
    entries_end_once();
}
