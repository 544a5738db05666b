//! What is seen of a cache, one key after the other.
ghost use Rattle.std.specs.Prelude.{length};
ghost use Rattle.std.specs.Iterator.{at_most};
ghost use Rattle.std.specs.Map.Iter.{TakesFirst, deref_pair};

use crate::kept::Kept;
use std::collections::hash_map::Iter;
use std::marker::Model;

/// The keys that are seen of a cache with their values, each once, in no order that is promised.
#[derive(Drop)]
pub struct Seen<'cache, K, V> {
    pub(crate) entries: Iter<'cache, K, Kept<V>>,
    pub(crate) moment: u64,
}

impl<'cache, K, V> Model for Seen<'cache, K, V> {
    ghost use Rattle.std.specs.Prelude.{List};
    ghost use Rattle.dq_apps.specs.Tied.{pairs_seen};

    ghost Value = { List (K × V) };

    ghost view = { λ s. pairs_seen s.moment s.entries };
}

impl<'cache, K, V> Iterator for Seen<'cache, K, V> {
    type Item = (&'cache K, &'cache V);

    ghost next_gives = { λ s r t. TakesFirst deref_pair s r t };

    ghost remaining = { λ s. at_most (length s) };

    fn next(&mut self) -> Option<(&'cache K, &'cache V)> {
        while let Some((key, kept)) = self.entries.next() {
            if self.moment < kept.deadline {
                return Some((key, &kept.value));
            }
        }
        None
    }
}
