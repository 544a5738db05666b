//! The live names, each with the key of its entry.
ghost use Rattle.std.specs.Prelude.{◌≡◌, ◌+◌, ◌<◌, ◌⊎◌, ℕ, List, [], length, None, Some, IsSome, OnOk, OnErr};
ghost use Rattle.dq_replay.specs.Leases.{NameTable, found_in, IsPutIn, one_if};

use crate::name::Name;
use dq_ticks::Key;
use std::alloc::{AllocError, Allocator};
use std::collections::HashMap;
use std::hash::{BuildHasherDefault, FoldHasher};
use std::marker::Model;

/// Names with their keys. A name is found in constant time.
#[derive(Drop)]
pub struct Names<A: Allocator> {
    keys: HashMap<Name, Key, BuildHasherDefault<FoldHasher>, A>,
}

impl<A: Allocator> Model for Names<A> {
    ghost use Rattle.std.specs.HashMap.{spare};
    ghost use Rattle.dq_replay.specs.Leases.{NameTable};

    ghost Value = { NameTable };

    ghost view = { λ a. record { entries = a.keys.entries; spare = spare a.keys } };
}

impl<A: Allocator + Clone> Names<A> {
    pub fn new(alloc: A) -> Names<A>
        ensures { result.entries ≡ [] }
    {
        Names {
            keys: HashMap::new(alloc),
        }
    }

    pub fn len(&self) -> usize
        ensures { result ≡ length self.now.entries }
    {
        self.keys.len()
    }

    /// The key of a name.
    pub fn get(&self, name: &Name) -> Option<Key>
        ensures { result ≡ found_in self.now name.now }
    {
        self.keys.get(name).copied()
    }

    /// Makes room for one more name.
    pub fn make_room(&mut self) -> Result<(), AllocError>
        ensures ok { OnOk result (0 < self.new.spare) }
        ensures len { length self.new.entries ≡ length self.old.entries }
        ensures same { (q : List ℕ) → found_in self.new q ≡ found_in self.old q }
    {
        self.keys.reserve(1)
    }

    /// Gives a name a key, for which there is room or which has one.
    pub fn put(&mut self, name: Name, key: Key)
        requires { (0 < self.old.spare) ⊎ IsSome (found_in self.old name) }
        ensures put { IsPutIn self.old name (Some key) self.new }
        ensures len { length self.new.entries + one_if (found_in self.old name)
            ≡ length self.old.entries + 1 }
    {
        match self.keys.insert(name, key) {
            Ok(_) => (),
            Err(_) => unreachable!(),
        }
    }

    /// Takes a name out.
    pub fn remove(&mut self, name: &Name)
        ensures put { IsPutIn self.old name.now None self.new }
        ensures len { length self.new.entries + one_if (found_in self.old name.now)
            ≡ length self.old.entries }
    {
        self.keys.remove(name);
    }

    /// Takes all names out.
    pub fn clear(&mut self)
        ensures { self.new.entries ≡ [] }
    {
        self.keys.clear();
    }
}
