//! How the entries that a stream gives ended.
ghost use Rattle.dq_stream.specs.Endings.{ItemsAreInForce};

use dq_shards::endings;

/// Whatever entry a stream gives, of whole polls or of paced ones, ended as expired at its deadline in force, at a tick
/// already noted, and no live entry of its shard has an earlier deadline.
pub fn items_are_in_force<T>()
    ensures { ItemsAreInForce T }
{
    endings::outs_are_in_force::<T>();
    endings::piece_outs_are_in_force::<T>();
}
