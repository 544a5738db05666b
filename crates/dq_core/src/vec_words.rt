//! A plain row of words, for a queue that nobody shares.

ghost use Rattle.std.specs.Prelude.{◌≡◌, ℕ, ◌+◌, ◌<◌, ◌≤◌, length, slice_set, replicate, false, max, MatchOption, MatchResult, Ok};
ghost use Rattle.dq_core.specs.Words.{Counts, word_at};
ghost use Rattle.dq_core.specs.WordRows.{IsMadeRow, IsWordRow, IsNamed, IsCallable, CallRefused, IsExtend, IsCancel, IsLook};
ghost use Rattle.dq_ticks.specs.declared.TheConstants.{LAST_STAMP, LAST_TICK};

use crate::errors::CoreError;
use crate::packed_row::PackedRow;
use crate::words::{CallError, Look, Settled, Words, shown};
use dq_ticks::{CAPACITY_LIMIT, Key, LAST_STAMP, LAST_TICK, Mark, Parts};
use std::alloc::{Allocator, Global};
use std::marker::Model;

/// A row of words that its owner alone changes: so nothing comes between the steps of a queue over it.
#[derive(Drop)]
pub struct VecWords<A: Allocator = Global> {
    row: PackedRow<A>,
    begins: u64,
    expiries: u64,
    removals: u64,
}

impl<A: Allocator> Model for VecWords<A> {
    ghost use Rattle.dq_core.specs.WordRows.{WordRow, IsWordRow};

    ghost Value = { WordRow };

    ghost view = { λ a. record {
      known = a.row;
      counts = record { begins = a.begins; expiries = a.expiries; removals = a.removals };
    } };

    ghost invariant = { λ a. IsWordRow a.row
        (record { begins = a.begins; expiries = a.expiries; removals = a.removals }) };
}

impl<A: Allocator> VecWords<A> {
    /// A row of words that were never used; BadConfig for a capacity of 0 or beyond [`CAPACITY_LIMIT`].
    pub fn new(alloc: A, capacity: usize) -> Result<VecWords<A>, CoreError>
        ensures { IsMadeRow capacity result }
    {
        if capacity == 0 || capacity > CAPACITY_LIMIT {
            return Err(CoreError::BadConfig);
        }
        let row = PackedRow::new(alloc, capacity)?;
        Ok(VecWords {
            row,
            begins: 0,
            expiries: 0,
            removals: 0,
        })
    }

    // A word.
    #[inline]
    pub(crate) fn word(&self, index: usize) -> Parts
        requires { index < length self.now.known }
        ensures { result ≡ word_at self.now.known index }
    {
        self.row.get(index)
    }

    // The word that a key names, where the key's stamp is its stamp.
    #[inline]
    fn named(&self, key: &Key) -> Result<Parts, CallError>
        ensures { IsNamed self.now.known key.now result }
    {
        let index = key.entry().index() as usize;
        if index >= self.row.len() || key.stamp() == 0 {
            return Err(CallError::Unknown);
        }
        let word = self.row.get(index);
        if word.stamp < key.stamp() {
            return Err(CallError::Unknown);
        }
        if key.stamp() < word.stamp {
            return Err(CallError::Stale { seen: word.stamp });
        }
        Ok(word)
    }

    // The deadline of the word that a key names, where it is live at the key's stamp. LLVM calls it where two callers
    // share it, and the call costs an extend a fifth of its instructions.
    #[inline(always)]
    fn live_by(&self, key: &Key) -> Option<u64>
        ensures { MatchOption result
            (¬ IsCallable self.now.known key.now)
            (λ d. IsCallable self.now.known key.now
            × (d ≡ (word_at self.now.known key.now.entry.index).field)
            × (key.now.stamp ≤ LAST_STAMP) × (d ≤ LAST_TICK)) }
    {
        let index = key.entry().index() as usize;
        let stamp = key.stamp();
        if index >= self.row.len() || stamp == 0 || stamp > LAST_STAMP {
            return None;
        }
        self.row.live_at(index, stamp)
    }

    // Why a call by a key is refused.
    fn refusal(&self, key: &Key) -> CallError
        requires { ¬ IsCallable self.now.known key.now }
        ensures { CallRefused self.now.known key.now result }
    {
        match self.named(key) {
            Err(refused) => refused,
            Ok(word) => CallError::Ended {
                how: shown(word.mark, word.field),
            },
        }
    }

    /// Raises the deadline of a live word, and answers the deadline that is then in force.
    #[inline]
    pub fn extend(&mut self, key: &Key, when: u64) -> Result<u64, CallError>
        ensures { IsExtend self.old key.now when result self.new }
    {
        if when > LAST_TICK {
            return Err(CallError::TooFar { limit: LAST_TICK });
        }
        let Some(deadline) = self.live_by(key) else {
            return Err(self.refusal(key));
        };
        let later = when.max(deadline);
        self.row.set(
            key.entry().index() as usize,
            Parts {
                stamp: key.stamp(),
                mark: Mark::LiveMark,
                field: later,
            },
        );
        Ok(later)
    }

    /// Cancels a live word, and answers the deadline that is given up.
    #[inline]
    pub fn cancel(&mut self, key: &Key) -> Result<u64, CallError>
        ensures { IsCancel self.old key.now result self.new }
    {
        let Some(deadline) = self.live_by(key) else {
            return Err(self.refusal(key));
        };
        self.row.set(
            key.entry().index() as usize,
            Parts {
                stamp: key.stamp(),
                mark: Mark::CancelledMark,
                field: 0,
            },
        );
        Ok(deadline)
    }

    /// What the word that a key names shows.
    pub fn look_key(&self, key: &Key) -> Result<Look, CallError>
        ensures { IsLook self.now.known key.now result }
    {
        let word = self.named(key)?;
        Ok(shown(word.mark, word.field))
    }
}

impl<A: Allocator> Words for VecWords<A> {
    ghost known = { λ w. w.known };

    ghost counts = { λ w. w.counts };

    ghost shared = { false };

    ghost keeps = { λ w. IsWordRow w.known w.counts };

    ghost Origin = { Unit {0} };

    ghost origin = { λ w. tt };

    ghost begun = { λ w i s d. Unit {0} };

    ghost steps = { λ w. 0 };

    const FENCED: bool = false;

    fn law(&self) {
        let _ = &self.row;
    }

    fn rows(&self) -> usize {
        self.row.len()
    }

    // No step of a plain word is a fence, so the processor itself goes on to the next read.
    #[inline(always)]
    fn once_read(&self, _index: usize, number: u64) -> u64 {
        number
    }

    #[inline]
    fn begin(&mut self, index: usize, stamp: u32, when: u64) {
        self.row.set(
            index,
            Parts {
                stamp,
                mark: Mark::LiveMark,
                field: when,
            },
        );
        self.begins += 1;
    }

    #[inline]
    fn look(&mut self, index: usize) -> Parts {
        self.row.get(index)
    }

    #[inline]
    fn settle(&mut self, index: usize, stamp: u32, at: u64) -> Settled {
        let word = self.row.get(index);
        match word.mark {
            Mark::LiveMark if word.field == at => {
                self.row.set(
                    index,
                    Parts {
                        stamp,
                        mark: Mark::ExpiredMark,
                        field: at,
                    },
                );
                self.expiries += 1;
                Settled::SettledExpired
            }
            Mark::LiveMark => Settled::Later(word.field),
            _ => Settled::SettledCancelled,
        }
    }

    #[inline]
    fn renew(&mut self, index: usize, stamp: u32, when: u64) -> Option<u64> {
        let word = self.row.get(index);
        match word.mark {
            Mark::LiveMark => {
                self.row.set(
                    index,
                    Parts {
                        stamp: stamp + 1,
                        mark: Mark::LiveMark,
                        field: when,
                    },
                );
                Some(word.field)
            }
            _ => None,
        }
    }

    #[inline]
    fn finish(&mut self, index: usize, stamp: u32) -> Option<u64> {
        let word = self.row.get(index);
        match word.mark {
            Mark::LiveMark => {
                self.row.set(
                    index,
                    Parts {
                        stamp,
                        mark: Mark::RemovedMark,
                        field: word.field,
                    },
                );
                self.removals += 1;
                Some(word.field)
            }
            _ => None,
        }
    }

    #[inline]
    fn finish_by(&mut self, index: usize, stamp: u32, tick: u64) -> Look {
        let word = self.row.get(index);
        match word.mark {
            Mark::LiveMark if word.field <= tick => {
                self.row.set(
                    index,
                    Parts {
                        stamp,
                        mark: Mark::RemovedMark,
                        field: word.field,
                    },
                );
                self.removals += 1;
                Look::LookRemoved(word.field)
            }
            Mark::LiveMark => Look::StillLive(word.field),
            _ => Look::LookCancelled,
        }
    }
}
