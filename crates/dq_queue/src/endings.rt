//! How the entries of a queue end: each as its words tell, whoever extended or cancelled it meanwhile, and each once,
//! whoever called.
ghost use Rattle.dq_queue.specs.Endings.{StoreInsertsAreGiven, StoreMovesAreInForce, StoreOutsAreInForce, StoreRemovalsAreInForce};
ghost use Rattle.dq_queue.specs.Leaving.{StoreLosesNone};

use dq_words::endings;

/// Whatever a poll of a store gives out, whole or a piece, came out of one core, as expired at its deadline in force,
/// at a tick already noted; at no deadline before one that a call by open words promised.
pub fn outs_are_in_force<T>()
    ensures { StoreOutsAreInForce T }
{
    endings::ends_are_in_force();
}

/// Whatever a removal takes out of a store, or a move gives out, leaves at its deadline in force, as the answer tells;
/// at no deadline before one that a call by open words promised. So an entry of another core than the open one goes on,
/// where a move asks for no deadline.
pub fn removals_are_in_force<T>()
    ensures removals { StoreRemovalsAreInForce T }
    ensures moves { StoreMovesAreInForce T }
{
    endings::ends_are_in_force();
}

/// The stamp of each key that an insert into a store answers was given once, and ended once, or was cancelled once, or
/// its word is live.
pub fn inserts_are_given<T>()
    ensures { StoreInsertsAreGiven T }
{
    endings::stamps_end_once();
}

/// No call of a store loses an entry: one that stood before a call, and stands no more after it, was given out by that
/// call, or had been cancelled.
pub fn none_is_lost<T>()
    ensures { StoreLosesNone T }
{}
