//! An empty queue without its wheel and its slots, and the way back to a whole one.
//!
//! A queue that holds nothing still has memory for a full one. A fold gives back all but the words. Those stay, since a
//! caller may keep a key for as long as it likes, and the key's word is what refuses it. A word also has the last
//! stamp of its slot: where the queue is unfolded the slot goes on with the next one, so a key from before names no
//! entry that is put in later.

ghost use Rattle.std.specs.Prelude.{◌≡◌, ◌<◌, ◌≤◌, ◌↔◌, max, length, IsErr, IfOk, IfErr, OnOk, OnErr};
ghost use Rattle.std.specs.List.{count_by};
ghost use Rattle.dq_core.specs.Deferring.{NoneDeferred};
ghost use Rattle.dq_core.specs.Words.{StillBegun};
ghost use Rattle.dq_core.specs.Folds.{AreOver, AreVacant, is_worn_word, resting};
ghost use Rattle.dq_core.specs.declared.errors.CoreError.TheVariants.{TickTooLarge};

use crate::errors::CoreError;
use crate::outcomes::Tally;
use crate::queue::DelayCore;
use crate::slots::Slots;
use crate::words::Words;
use dq_ticks::{CAPACITY_LIMIT, LAST_STAMP, LAST_TICK};
use dq_wheel::Wheel;
use std::alloc::{AllocError, Allocator};
use std::marker::Model;

/// An empty queue that gave its wheel and its slots back: its words, its ticks and its counts.
/// [`DelayCore::fold`] makes it, and [`Folded::unfold`] makes it a queue again.
#[derive(Drop)]
pub struct Folded<W: Words> {
    shard: u32,
    noted: u64,
    tick: u64,
    moved: u64,
    last: u32,
    worn: usize,
    words: W,
    inserted: u64,
    expired: u64,
    removed: u64,
}

impl<W: Words> Model for Folded<W> {
    ghost use Rattle.std.specs.Prelude.{◌≡◌};
    ghost use Rattle.std.specs.List.{count_by};
    ghost use Rattle.dq_core.specs.Folds.{FoldedCore, IsFolded, is_worn_word};

    ghost Value = { FoldedCore W };

    ghost view = { λ a. record {
      shard = a.shard;
      noted = a.noted;
      tick = a.tick;
      moved = a.moved;
      last_stamp = a.last;
      known = W.known a.words;
      counts = W.counts a.words;
      words = a.words;
    } };

    ghost invariant = { λ a.
        IsFolded a.tick a.noted a.last (W.known a.words) (W.counts a.words)
        × (W.counts a.words
        ≡ record { begins = a.inserted; expiries = a.expired; removals = a.removed })
        × (a.worn ≡ count_by (is_worn_word a.last) (W.known a.words)) };
}

// A wheel at a tick with nothing in it, which counts its moves on from that many.
fn resting_wheel<A: Allocator>(
    alloc: A,
    capacity: usize,
    tick: u64,
    moved: u64,
) -> Result<Wheel<A>, AllocError>
    requires some { 0 < capacity }
    requires few { capacity ≤ CAPACITY_LIMIT }
    requires in_range { tick ≤ LAST_TICK }
    ensures { IfOk result (λ w. w.filing ≡ resting capacity tick moved) }
{
    let Ok(mut wheel) = Wheel::new(alloc, capacity) else {
        return Err(AllocError);
    };
    wheel.advance(tick);
    wheel.count_from(moved);
    Ok(wheel)
}

// What an unfolded queue takes memory for: its wheel, and a slot for each word.
fn wheel_and_slots_over<T, W: Words, A: Allocator + Clone>(
    alloc: A,
    tick: u64,
    moved: u64,
    last: u32,
    words: &mut W,
) -> Result<(Wheel<A>, Slots<T, A>), AllocError>
    requires some { 0 < length (W.known words.old) }
    requires few { length (W.known words.old) ≤ CAPACITY_LIMIT }
    requires in_range { tick ≤ LAST_TICK }
    requires used { 0 < last }
    requires bound { last ≤ LAST_STAMP }
    requires over { AreOver last (W.known words.old) }
    ensures wheel { IfOk result
        (λ r. r.0.filing ≡ resting (length (W.known words.old)) tick moved) }
    ensures rows { IfOk result
        (λ r. (r.1.last_stamp ≡ last) × AreVacant r.1.rows (W.known words.old)) }
    ensures none { IfOk result (λ r. NoneDeferred r.1.deferred) }
    ensures refused { OnErr result (words.new ≡ words.old) }
    ensures known { W.known words.new ≡ W.known words.old }
    ensures counts { W.counts words.new ≡ W.counts words.old }
    ensures origin { W.origin words.new ≡ W.origin words.old }
    ensures begun { StillBegun W.begun words.old words.new }
{
    let other = alloc.clone()?;
    let wheel = resting_wheel(other, words.rows(), tick, moved)?;
    let slots = Slots::over(alloc, last, words)?;
    Ok((wheel, slots))
}

impl<T: Drop, W: Words, A: Allocator> DelayCore<T, W, A> {
    ghost use Rattle.dq_core.specs.Core.{machine};
    ghost use Rattle.dq_core.specs.Folds.{folded_machine, IsFoldable};

    /// Gives the memory of an empty queue back, but for its words. Each key stays refused as before. Constant time, but
    /// for the allocator's.
    ///
    /// # Errors
    /// The queue comes back as it was, if it holds an entry, even a cancelled one, or if a freed value waits for its
    /// drop.
    ///
    /// ```
    /// use hontkhale::owner::{CoreError, DelayCore};
    ///
    /// let mut queue = DelayCore::with_capacity(1_000)?;
    /// let first = queue.insert_or_drop("first", 100)?;
    /// let Err(mut queue) = queue.fold() else { panic!("an entry is in it") };
    /// queue.remove(&first.entry())?;
    ///
    /// let Ok(folded) = queue.fold() else { panic!("it is empty") };
    /// let Ok(mut queue) = folded.unfold() else { return Err(CoreError::NoMemory) };
    /// queue.insert_or_drop("second", 200)?;
    /// assert!(matches!(queue.remove(&first.entry()), Err(CoreError::Missing)));
    /// # Ok::<(), CoreError>(())
    /// ```
    pub fn fold(self) -> Result<Folded<W>, DelayCore<T, W, A>>
        // Nothing was linked and no value waited for its drop. It is no event of the queue machine:
        // that stays as it is.
        ensures empty { IfOk result (λ f. IsFoldable self) }
        ensures machine { IfOk result (λ f. folded_machine f ≡ machine self) }

        // Its number, its last stamp, its words and what they count stay.
        ensures same { IfOk result (λ f. (f.shard ≡ self.shard)
            × (f.last_stamp ≡ self.slots.last_stamp) × (f.words ≡ self.words)
            × (f.known ≡ self.known) × (f.counts ≡ self.counts)
            × (f.moved ≡ self.wheel.filing.moved)) }

        // Refused, it comes back as it was: exactly where an entry is linked or a value waits.
        ensures back { IfErr result (λ q. q ≡ self) }
        ensures refused { IsErr result → ¬ IsFoldable self }
    {
        if self.slots.linked() > 0 || self.slots.deferred() > 0 {
            return Err(self);
        }
        let tick = self.wheel.tick();
        let moved = self.wheel.moved();
        let last = self.slots.last();
        let worn = self.slots.worn();
        self.law();
        self.slots.law();
        Ok(Folded {
            shard: self.shard,
            noted: self.noted,
            tick,
            moved,
            last,
            worn,
            words: self.words,
            inserted: self.inserted,
            expired: self.expired,
            removed: self.removed,
        })
    }
}

impl<W: Words> Folded<W> {
    ghost use Rattle.dq_core.specs.Core.{machine};
    ghost use Rattle.dq_core.specs.Machine.{NoneLinked};
    ghost use Rattle.dq_core.specs.Folds.{folded_machine, at_tick, IsFolded, IsFoldedTally};
    ghost use Rattle.dq_core.specs.Calls.{IsMissing};
    ghost use Rattle.dq_ticks.specs.declared.keys.EntryId.{EntryId};

    /// What holds of a folded queue at all times: of each word that nothing is linked under it, and that its stamp is
    /// at most the last one.
    pub fn law(&self)
        ensures folded { IsFolded self.now.tick self.now.noted self.now.last_stamp
            self.now.known self.now.counts }
        ensures words { (self.now.known ≡ W.known self.now.words)
            × (self.now.counts ≡ W.counts self.now.words) }
        ensures keeper { W.keeps self.now.words }
    {
        self.words.law();
    }

    /// Returns the number of the queue, which its keys carry.
    pub fn shard(&self) -> u32
        ensures { result ≡ self.now.shard }
    {
        self.shard
    }

    /// Returns the greatest tick of one millisecond that was noted.
    pub fn noted(&self) -> u64
        ensures { result ≡ self.now.noted }
    {
        self.noted
    }

    /// Returns the number of slots that the queue has once it is unfolded.
    pub fn capacity(&self) -> usize
        ensures { result ≡ length self.now.known }
    {
        self.words.rows()
    }

    /// Returns the number of worn slots, which have no stamp left.
    pub fn worn(&self) -> usize
        ensures { result ≡ count_by (is_worn_word self.now.last_stamp) self.now.known }
    {
        self.worn
    }

    /// Returns how many entries came and went.
    pub fn tally(&self) -> Tally
        ensures { IsFoldedTally self.now result }
    {
        Tally {
            inserted: self.inserted,
            expired: self.expired,
            removed: self.removed,
            cancelled: self.inserted - self.expired - self.removed,
            linked: 0,
            moves: self.moved,
        }
    }

    /// Returns the words, which refuse each key of the queue as they did before.
    pub fn words(&self) -> &W
        ensures words { result.now ≡ self.now.words }
        ensures known { W.known result.now ≡ self.now.known }
    {
        &self.words
    }

    /// Notes `tick`, of one millisecond, and goes to the greatest tick noted: the queue begins there once it is
    /// unfolded. Constant time.
    ///
    /// # Errors
    /// `TickTooLarge` if `tick` is beyond the last tick. It isn't noted then.
    pub fn come_to(&mut self, tick: u64) -> Result<(), CoreError>
        // The greater of the two ticks is noted, and nothing but the ticks changes: as the law
        // `folds_come_to_ticks` says, that is a run of the queue machine.
        ensures noted { OnOk result (self.new ≡ at_tick self.old (max self.old.noted tick)) }

        // A tick is refused, and nothing changes, exactly beyond the last one.
        ensures refused { IsErr result ↔ (LAST_TICK < tick) }
        ensures error { IfErr result (λ e. e ≡ TickTooLarge LAST_TICK) }
        ensures kept { OnErr result (self.new ≡ self.old) }
    {
        if tick > LAST_TICK {
            return Err(CoreError::TickTooLarge { limit: LAST_TICK });
        }
        self.noted = self.noted.max(tick);
        self.tick = self.noted;
        Ok(())
    }

    /// Makes the queue whole again, with nothing in it. Each slot goes on with the stamp after its word's, and worn
    /// slots stay worn. It takes time and memory in proportion to the capacity.
    ///
    /// # Errors
    /// The folded queue comes back as it was, only if memory is refused.
    pub fn unfold<T, A: Allocator + Clone>(
        mut self,
        alloc: A,
    ) -> Result<DelayCore<T, W, A>, Folded<W>>
        // Nothing is linked. It is no event of the queue machine: that stays as it is.
        ensures empty { IfOk result (λ q. NoneLinked (machine q)) }
        ensures machine { IfOk result (λ q. machine q ≡ folded_machine self) }

        // Each slot holds nothing, and is at its word's stamp: the next one is beyond all that it had.
        // Nothing is deferred.
        ensures slots { IfOk result (λ q. AreVacant q.slots.rows self.known) }
        ensures none { IfOk result (λ q. NoneDeferred q.deferred) }

        // No entry from before is there, and under no word one is live.
        ensures stale { IfOk result (λ q. ((id : EntryId) → IsMissing q id)
            × AreOver self.last_stamp self.known) }

        // Its number, its last stamp, what is known and counted stay, and so does what was begun.
        ensures same { IfOk result (λ q. (q.shard ≡ self.shard)
            × (q.slots.last_stamp ≡ self.last_stamp)
            × (q.known ≡ self.known) × (q.counts ≡ self.counts)
            × (q.wheel.filing.moved ≡ self.moved)) }
        ensures origin { IfOk result (λ q. W.origin q.words ≡ W.origin self.words) }
        ensures begun { IfOk result (λ q. StillBegun W.begun self.words q.words) }

        // Refused, it comes back as it was.
        ensures back { IfErr result (λ f. f ≡ self) }
    {
        let Ok((wheel, slots)) = wheel_and_slots_over(
            alloc,
            self.tick,
            self.moved,
            self.last,
            &mut self.words,
        ) else {
            return Err(self);
        };
        Ok(DelayCore {
            shard: self.shard,
            noted: self.noted,
            wheel,
            slots,
            words: self.words,
            inserted: self.inserted,
            expired: self.expired,
            removed: self.removed,
        })
    }
}
