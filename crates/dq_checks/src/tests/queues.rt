//! A queue and the one who calls it by key, over plain words and over shared ones.

ghost use Rattle.dq_core.specs.Words.{AreFresh};

use dq_core::{CallError, CoreConfig, DelayCore, Look, SharedWords, VecWords, Words};
use dq_ticks::Key;
use dq_words::{Caller, Keeper, OpenWords};
use std::alloc::Global;
use std::test::Fail;

/// Who makes the calls by key.
pub trait Calls<W: Words> {
    fn extend_by(
        &mut self,
        core: &mut DelayCore<char, W>,
        key: &Key,
        when: u64,
    ) -> Result<u64, CallError>;

    fn cancel_by(&mut self, core: &mut DelayCore<char, W>, key: &Key) -> Result<u64, CallError>;

    fn look_by(&mut self, core: &mut DelayCore<char, W>, key: &Key) -> Result<Look, CallError>;
}

/// Over plain words the queue's owner makes them.
#[derive(Drop)]
pub struct Owner;

impl Calls<VecWords> for Owner {
    fn extend_by(
        &mut self,
        core: &mut DelayCore<char, VecWords>,
        key: &Key,
        when: u64,
    ) -> Result<u64, CallError> {
        core.extend(key, when)
    }

    fn cancel_by(
        &mut self,
        core: &mut DelayCore<char, VecWords>,
        key: &Key,
    ) -> Result<u64, CallError> {
        core.cancel(key)
    }

    fn look_by(
        &mut self,
        core: &mut DelayCore<char, VecWords>,
        key: &Key,
    ) -> Result<Look, CallError> {
        core.look(key)
    }
}

/// Over shared words a caller does.
impl Calls<Keeper> for Caller {
    fn extend_by(
        &mut self,
        _core: &mut DelayCore<char, Keeper>,
        key: &Key,
        when: u64,
    ) -> Result<u64, CallError> {
        self.extend(key, when)
    }

    fn cancel_by(
        &mut self,
        _core: &mut DelayCore<char, Keeper>,
        key: &Key,
    ) -> Result<u64, CallError> {
        self.cancel(key)
    }

    fn look_by(
        &mut self,
        _core: &mut DelayCore<char, Keeper>,
        key: &Key,
    ) -> Result<Look, CallError> {
        self.look(key)
    }
}

/// Over open words anybody does, by a `&`.
impl Calls<Keeper> for OpenWords {
    fn extend_by(
        &mut self,
        _core: &mut DelayCore<char, Keeper>,
        key: &Key,
        when: u64,
    ) -> Result<u64, CallError> {
        match self.extend(key, when) {
            Ok((answer, _receipt)) => Ok(answer),
            Err((error, _receipt)) => Err(error),
        }
    }

    fn cancel_by(
        &mut self,
        _core: &mut DelayCore<char, Keeper>,
        key: &Key,
    ) -> Result<u64, CallError> {
        match self.cancel(key) {
            Ok((answer, _receipt)) => Ok(answer),
            Err((error, _receipt)) => Err(error),
        }
    }

    fn look_by(
        &mut self,
        _core: &mut DelayCore<char, Keeper>,
        key: &Key,
    ) -> Result<Look, CallError> {
        match self.look(key) {
            Ok((answer, _receipt)) => Ok(answer),
            Err((error, _receipt)) => Err(error),
        }
    }
}

/// A queue of letters of shard 0, the one who calls it by key, and what it gave out so far.
#[derive(Drop)]
pub struct Queue<W: Words, C> {
    pub core: DelayCore<char, W>,
    pub calls: C,
    /// The keys of inserts and resets, in their order.
    pub keys: Vec<Key>,
    /// The values that came out.
    pub out: Vec<char>,
}

// An empty queue over fresh words.
fn over<T: Drop, W: Words + Drop>(
    alloc: Global,
    last_stamp: u32,
    words: W,
) -> Result<DelayCore<T, W>, Fail>
    requires { AreFresh (W.known words) (W.counts words) }
{
    let config = CoreConfig {
        shard: 0,
        capacity: words.rows(),
        last_stamp,
    };
    match DelayCore::new(alloc, config, words) {
        Ok(core) => Ok(core),
        Err((error, _words)) => Err(error.into()),
    }
}

/// An empty queue over shared words.
pub fn over_shared<T: Drop>(
    alloc: Global,
    capacity: usize,
    last_stamp: u32,
) -> Result<DelayCore<T, Keeper>, Fail> {
    over(alloc, last_stamp, Keeper::new(alloc, capacity)?)
}

/// A caller of the queue. What an issue says is long, so it is proved here, once for all values.
pub fn issued<T: Drop>(core: &mut DelayCore<T, Keeper>) -> Result<Caller, Fail> {
    Ok(core.issue()?)
}

/// A fresh queue over plain words.
pub fn plain(
    alloc: Global,
    capacity: usize,
    last_stamp: u32,
) -> Result<Queue<VecWords, Owner>, Fail> {
    Ok(Queue {
        core: over(alloc, last_stamp, VecWords::new(alloc, capacity)?)?,
        calls: Owner,
        keys: Vec::new(alloc),
        out: Vec::new(alloc),
    })
}

/// A fresh queue over shared words, whose caller is issued through the core.
pub fn shared(
    alloc: Global,
    capacity: usize,
    last_stamp: u32,
) -> Result<Queue<Keeper, Caller>, Fail> {
    let mut core = over_shared(alloc, capacity, last_stamp)?;
    let calls = issued(&mut core)?;
    Ok(Queue {
        core,
        calls,
        keys: Vec::new(alloc),
        out: Vec::new(alloc),
    })
}

/// A fresh queue over open words, which issues no caller.
pub fn open(
    alloc: Global,
    capacity: usize,
    last_stamp: u32,
) -> Result<Queue<Keeper, OpenWords>, Fail> {
    let mut keeper = Keeper::new(alloc, capacity)?;
    let calls = keeper.open()?;
    Ok(Queue {
        core: over(alloc, last_stamp, keeper)?,
        calls,
        keys: Vec::new(alloc),
        out: Vec::new(alloc),
    })
}
