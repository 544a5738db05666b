//! What every crate of the delay queue speaks of: ticks and their digits, the words that entries are kept in, keys,
//! lengths of time in ticks, and why a call is refused.
//!
//! A tick is one millisecond. The levels are those of a hierarchical timing wheel (Varghese and Lauck, SOSP 1987,
//! Scheme 7): an entry stands at the highest base-64 digit in which its tick differs from the wheel's, in the slot
//! that this digit names, and goes down level by level as its tick comes near.
//!
//! | Level | A slot spans | The level spans |
//! |---|---|---|
//! | 0 | 1 ms | 64 ms |
//! | 1 | 64 ms | 4 s |
//! | 2 | 4 s | 4 min |
//! | 3 | 4 min | 4.7 h |
//! | 4 | 4.7 h | 12 days |
//! | 5 | 12 days | 2.2 years; it goes round |
//!
//! A script of the first edition keeps an older, lesser last tick: docs/SCRIPT.md.
#![tactic(auto)]

ghost use Rattle.std.proofs.Common.{rules};
ghost use Rattle.std.specs.Cmp.Rules.{comparing, hashing};
ghost use Rattle.std.specs.Cmp.{partial_order_from_own_ties};
ghost use Rattle.std.specs.Duration.{as_nanos};
ghost use Rattle.std.specs.Hash as fed;
ghost use Rattle.std.specs.Ordering.{as_partial_cmp};
ghost use Rattle.std.specs.Prelude.{◌≡◌, ◌+◌, ◌^◌, ◌≢◌, ◌*◌, ◌/◌, ◌%◌, ◌<◌, ◌≤◌, MatchOption, ◌↔◌, IsTrue, ◌==◌, ◌++◌, min};
ghost use Rattle.dq_ticks.specs.Digits.{digit_of, level, start};
ghost use Rattle.dq_ticks.specs.Keys.{EqualKeysNameOneEntry, FitsQueueKey, are_equal, key_order, core_part, entry_part};
ghost use Rattle.dq_ticks.specs.Lengths.{RoundsUp};
ghost use Rattle.dq_ticks.specs.Order.{CancelsEnd, ExtendsRaise, PartsComeBack, PastWordsStay, WordsAreApart, WordsAreOrdered, WordsHaveParts};
ghost use Rattle.dq_ticks.specs.Places.{DigitsTellTicks, EarlierTurnsComeFirst, HighestDiffers, LowerLevelsComeFirst, PlacesAreStable, LapStartsAreLeast, SlotsOpenDownward, SlotsStartAhead, SoonestSlotsStartFirst, StartsByDigits};
ghost use Rattle.dq_ticks.specs.Units.{lap, mark_unit, stamp_count, tick_limit, top_span, index_count, shard_count, tick_nanos};
ghost use Rattle.dq_ticks.specs.Word.{mark_by, mark_number, packed, parts_of, IsLiveAt, stamp_of, mark_of, field_of};

pub use digits::{
    digit, level_of, places_are_stable, slot_start, soonest_slots_come_first, span,
    starts_have_digits,
};
pub use keys::{EntryId, Key, is_same_entry, is_same_key};
pub use lengths::{rounded_up, whole};
pub use words::{
    Mark, Parts, field, greater_words_win, is_live, live_at, pack, stamp, unpack, words_are_ordered,
};

/// The levels of a wheel, one for each base-64 digit of a lap.
pub const LEVELS: usize = 6;

/// The slots of a level, one for each value of a digit.
pub const SLOTS: usize = 64;

/// The greatest tick, `2^42 - 1` milliseconds: some 139 years.
pub const LAST_TICK: u64 = 4398046511103;

/// How far ahead of its tick a wheel files at the most: `2^36 - 1` ticks, one less than the top level spans.
pub const REACH: u64 = 68719476735;

/// The most slots that a queue may have, and indexes that a wheel may have.
pub const CAPACITY_LIMIT: usize = 65536;

/// The greatest field of a word: each tick fits.
pub const LAST_FIELD: u64 = LAST_TICK;

/// The greatest stamp of a word, `2^20 - 1`.
pub const LAST_STAMP: u32 = 1048575;

/// One past the last tick, the reach, the last field and the last stamp stand the units of ticks and words, which are
/// powers of two.
pub fn limits_are_powers()
    ensures ticks { (LAST_TICK + 1 ≡ tick_limit) × (tick_limit ≡ 2 ^ 42) }
    ensures reach { (REACH + 1 ≡ lap) × (lap ≡ 2 ^ 36) }
    ensures fields { (LAST_FIELD + 1 ≡ mark_unit) × (mark_unit ≡ 2 ^ 42) }
    ensures stamps { (LAST_STAMP + 1 ≡ stamp_count) × (stamp_count ≡ 2 ^ 20) }
{}

/// Base-64 digits of ticks, and the levels, slots and starts that they name.
mod digits {
    use crate::{LAST_TICK, LEVELS, REACH, SLOTS};

    const TOP_SPAN: u64 = 1073741824;

    const LAP: u64 = REACH + 1;

    // A digit is six bits, so a shift serves in place of a division.
    #[tactic(auto, using(crate::proofs::Bits::shifted))]
    fn without_lowest(t: u64, places: usize) -> u64
        requires { places < LEVELS }
        ensures { result ≡ t / 64 ^ places }
    {
        t >> (6 * places as u64)
    }

    /// The base-64 digit of `t` at a place, the lowest place being 0.
    #[inline]
    pub fn digit(t: u64, level: usize) -> u64
        requires { level < LEVELS }
        ensures { result ≡ digit_of t level }
    {
        without_lowest(t, level) % 64
    }

    /// How many ticks of one millisecond a slot of a level spans.
    #[tactic(auto, using(crate::proofs::Bits::power_shifted, crate::proofs::Bits::power_small))]
    #[inline]
    pub fn span(level: usize) -> u64
        requires { level < LEVELS }
        ensures value { result ≡ 64 ^ level }
        ensures positive { 0 < result }
        ensures small { result ≤ top_span }
    {
        1 << (6 * level as u64)
    }

    /// The level at which `when` stands, seen from the tick `now`: the highest place in which their digits differ, or
    /// the top level 5 where that is higher. None where they are equal, and `when` is due.
    #[inline]
    pub fn level_of(now: u64, when: u64) -> Option<usize>
        requires ordered { now ≤ when }
        requires tick { when ≤ LAST_TICK }
        ensures { MatchOption result
            (now ≡ when)
            (λ n. (now ≢ when) × (n < LEVELS) × (n ≡ level now when)) }
    {
        // The highest bit in which they differ lies in the highest digit in which they differ.
        let differing = now ^ when;
        if differing == 0 {
            return None;
        }
        Some((differing.ilog2() as usize / 6).min(LEVELS - 1))
    }

    /// The tick at which a slot of a level starts, seen from the tick `now`. Below the top level it is `now` with its
    /// digit at that level set to `slot` and all lower digits 0. The top level goes round: there it is the least
    /// multiple of `2^30` after `now` with that digit, so that the slot of `now` itself comes last.
    #[tactic(auto, unfolding(crate::specs::Digits::start))]
    #[inline]
    pub fn slot_start(now: u64, level: usize, slot: u64) -> u64
        requires tick { now ≤ LAST_TICK }
        requires level_in { level < LEVELS }
        requires slot_in { slot < SLOTS }
        ensures { result ≡ start now level slot }
    {
        if level == LEVELS - 1 {
            lap_start(now, slot)
        } else {
            without_lowest(now, level + 1) * span(level + 1) + slot * span(level)
        }
    }

    #[tactic(auto, unfolding(crate::specs::Digits::start))]
    fn lap_start(now: u64, slot: u64) -> u64
        requires tick { now ≤ LAST_TICK }
        requires slot_in { slot < SLOTS }
        ensures { result ≡ start now 5 slot }
    {
        if digit(now, LEVELS - 1) < slot {
            now / LAP * LAP + slot * TOP_SPAN
        } else {
            (now / LAP + 1) * LAP + slot * TOP_SPAN
        }
    }

    /// Digits mean what they are called: they tell ticks apart, the highest differing place is one, and a slot starts
    /// at the tick that its digit names.
    pub fn starts_have_digits()
        ensures apart { DigitsTellTicks }
        ensures highest { HighestDiffers }
        ensures low { StartsByDigits }
        ensures lap { LapStartsAreLeast }
    {}

    /// Places are stable until their slot starts; opening it leads to a lower level or to due.
    pub fn places_are_stable()
        ensures ahead { SlotsStartAhead }
        ensures stable { PlacesAreStable }
        ensures opening { SlotsOpenDownward }
    {}

    /// The lowest level and, there, the slot that comes soonest has the least start.
    pub fn soonest_slots_come_first()
        ensures lower { LowerLevelsComeFirst }
        ensures earlier { EarlierTurnsComeFirst }
        ensures soonest { SoonestSlotsStartFirst }
    {}
}

/// Words: a stamp, a mark and a field, packed into one `u64` in that order.
mod words {
    use crate::{LAST_FIELD, LAST_STAMP};

    const MARK_UNIT: u64 = LAST_FIELD + 1;

    const STAMP_UNIT: u64 = 4 * MARK_UNIT;

    /// How an entry stands.
    #[derive(Clone, Copy, PartialEq, Eq, Debug)]
    pub enum Mark {
        /// Waits for its deadline.
        LiveMark,
        /// Was cancelled by a caller.
        CancelledMark,
        /// Came out at its deadline.
        ExpiredMark,
        /// Was removed by the keeper.
        RemovedMark,
    }

    /// The parts of a word.
    #[derive(Clone, Copy, PartialEq, Eq, Debug)]
    pub struct Parts {
        /// At most [`LAST_STAMP`] in a word.
        pub stamp: u32,
        pub mark: Mark,
        /// A tick of one millisecond, at most [`LAST_FIELD`] in a word.
        pub field: u64,
    }

    fn number_of(mark: Mark) -> u64
        ensures { result ≡ mark_number mark }
    {
        match mark {
            Mark::LiveMark => 0,
            Mark::CancelledMark => 1,
            Mark::ExpiredMark => 2,
            Mark::RemovedMark => 3,
        }
    }

    fn mark_at(number: u64) -> Mark
        requires { number < 4 }
        ensures { result ≡ mark_by number }
    {
        match number {
            0 => Mark::LiveMark,
            1 => Mark::CancelledMark,
            2 => Mark::ExpiredMark,
            _ => Mark::RemovedMark,
        }
    }

    /// The word of its parts: 20 bits of stamp, 2 of mark, 42 of field.
    #[inline]
    pub fn pack(parts: Parts) -> u64
        requires stamp { parts.stamp ≤ LAST_STAMP }
        requires field { parts.field ≤ LAST_FIELD }
        ensures { result ≡ packed parts }
    {
        u64::from(parts.stamp) * STAMP_UNIT + number_of(parts.mark) * MARK_UNIT + parts.field
    }

    /// The parts of a word: every `u64` is the word of exactly one triple.
    #[inline]
    pub fn unpack(word: u64) -> Parts
        ensures { result ≡ parts_of word }
    {
        Parts {
            stamp: (word / STAMP_UNIT) as u32,
            mark: mark_at(word / MARK_UNIT % 4),
            field: word % MARK_UNIT,
        }
    }

    /// The stamp of a word.
    #[inline]
    pub fn stamp(word: u64) -> u32
        ensures { (result ≡ stamp_of word) × (result ≤ LAST_STAMP) }
    {
        (word / STAMP_UNIT) as u32
    }

    /// The field of a word: its deadline, where it is live.
    #[inline]
    pub fn field(word: u64) -> u64
        ensures { (result ≡ field_of word) × (result ≤ LAST_FIELD) }
    {
        word % MARK_UNIT
    }

    /// Whether a word's mark is live.
    #[inline]
    pub fn is_live(word: u64) -> bool
        ensures { IsTrue result ↔ (mark_of word ≡ 0) }
    {
        word / MARK_UNIT % 4 == 0
    }

    /// The deadline of a word that is live at a stamp, and None of every other word. The words that are live at a stamp
    /// are one run of numbers, in the order of their deadlines: so it takes one subtraction and one comparison.
    #[inline]
    pub fn live_at(word: u64, stamp: u32) -> Option<u64>
        requires { stamp ≤ LAST_STAMP }
        ensures { MatchOption result
            (¬ IsLiveAt word stamp)
            (λ d. IsLiveAt word stamp × (d ≡ field_of word)) }
    {
        let deadline = word.wrapping_sub(u64::from(stamp) * STAMP_UNIT);
        if deadline > LAST_FIELD {
            return None;
        }
        Some(deadline)
    }

    /// Words are the numbers of their parts, one for each, and in their order: stamp, then mark, then field.
    pub fn words_are_ordered()
        ensures parts { WordsHaveParts }
        ensures back { PartsComeBack }
        ensures apart { WordsAreApart }
        ensures ordered { WordsAreOrdered }
    {}

    /// The greater of two words is how an extend and a cancel act in one atomic step: an extend raises the deadline of
    /// a live word, a cancel ends it, and a word that is past their stamp or mark stays.
    pub fn greater_words_win()
        ensures extends { ExtendsRaise }
        ensures cancels { CancelsEnd }
        ensures stays { PastWordsStay }
    {}
}

/// The names of entries and of their lives. Making one checks nothing: the calls that take a key do.
mod keys {
    use std::fmt;
    use std::fmt::{Debug, Formatter};
    use std::marker::Model;

    pub(crate) const HALF_UNIT: u64 = 4294967296;

    /// An entry: its shard, its index there, and the stamp of its birth. Calls of a queue take it from a [`Key`].
    ///
    /// ```
    /// use hontkhale::owner::{DelayCore, EntryId};
    ///
    /// let mut queue = DelayCore::with_capacity(4)?;
    /// let key = queue.insert_or_drop("value", 10)?;
    /// assert_eq!(key.entry(), EntryId::new(0, 0, 1));
    /// assert_eq!(queue.get(&key.entry()), Some(&"value"));
    /// # Ok::<(), hontkhale::owner::CoreError>(())
    /// ```
    #[derive(Clone, Copy, PartialEq, Eq, PartialOrd, Ord, Hash)]
    pub struct EntryId {
        // Shard and index share a number, so that an id fits two registers.
        place: u64,
        born: u64,
    }

    impl Model for EntryId {
        ghost use Rattle.std.specs.Prelude.{◌+◌, ◌*◌, ◌/◌, ◌%◌, ◌<◌};
        ghost use Rattle.dq_ticks.specs.Keys.{EntryName};
        ghost use Rattle.dq_ticks.specs.Units.{half_unit};

        ghost Value = { EntryName };

        ghost view = { λ a. record {
          shard = a.place / half_unit;
          index = a.place % half_unit;
          born = a.born;
        } };

        ghost invariant = { λ a. (a.place < half_unit * half_unit) × (a.born < half_unit) };

        ghost inverse = { λ n. record { place = n.shard * half_unit + n.index; born = n.born } };
    }

    impl EntryId {
        /// The entry of that shard and index that was born at that stamp.
        #[inline]
        pub fn new(shard: u32, index: u32, born: u32) -> EntryId
            ensures { result ≡ record { shard = shard; index = index; born = born } }
        {
            EntryId {
                place: u64::from(shard) * HALF_UNIT + u64::from(index),
                born: u64::from(born),
            }
        }

        /// The shard in which the entry stands.
        #[inline]
        pub fn shard(&self) -> u32
            ensures { result ≡ self.now.shard }
        {
            (self.place / HALF_UNIT) as u32
        }

        /// The entry's index in its shard.
        #[inline]
        pub fn index(&self) -> u32
            ensures { result ≡ self.now.index }
        {
            (self.place % HALF_UNIT) as u32
        }

        /// The stamp of the entry's birth, which tells it from earlier entries at its index.
        #[inline]
        pub fn born(&self) -> u32
            ensures { result ≡ self.now.born }
        {
            self.born as u32
        }
    }

    /// Whether two entries are one: the same shard, the same index there and the same birth. The derived `==` says the
    /// same.
    #[inline]
    pub fn is_same_entry(one: EntryId, other: EntryId) -> bool
        ensures { IsTrue result ↔ (one ≡ other) }
    {
        one.place == other.place && one.born == other.born
    }

    impl Debug for EntryId {
        fn fmt<W: fmt::Write>(&self, f: &mut Formatter<W>) -> fmt::Result {
            f.debug_struct("EntryId")
                .field("shard", &self.shard())
                .field("index", &self.index())
                .field("born", &self.born())
                .finish()
        }
    }

    /// A key: an entry, and the stamp at which it is meant. A reset gives the entry a new stamp, and its old keys are
    /// stale.
    ///
    /// ```
    /// use hontkhale::owner::{CallError, DelayCore};
    ///
    /// let mut queue = DelayCore::with_capacity(4)?;
    /// let old = queue.insert_or_drop("value", 10)?;
    /// let new = queue.reset(&old.entry(), 5)?;
    /// assert_eq!(new.entry(), old.entry());
    /// assert_eq!(queue.extend(&old, 20), Err(CallError::Stale { seen: new.stamp() }));
    /// # Ok::<(), hontkhale::owner::CoreError>(())
    /// ```
    #[derive(Clone, Copy, PartialEq, Eq, PartialOrd, Ord, Hash)]
    pub struct Key {
        // Shard and index share a number, and so do birth and stamp, so that a key fits two registers.
        place: u64,
        stamps: u64,
    }

    impl Model for Key {
        ghost use Rattle.std.specs.Prelude.{◌+◌, ◌*◌, ◌/◌, ◌%◌, ◌<◌};
        ghost use Rattle.dq_ticks.specs.Keys.{EntryName, KeyName};
        ghost use Rattle.dq_ticks.specs.Units.{half_unit};

        ghost Value = { KeyName };

        ghost view = { λ a. record {
          entry = record {
            shard = a.place / half_unit;
            index = a.place % half_unit;
            born = a.stamps / half_unit;
          };
          stamp = a.stamps % half_unit;
        } };

        ghost invariant = { λ a.
            (a.place < half_unit * half_unit) × (a.stamps < half_unit * half_unit) };

        ghost inverse = { λ n. record {
          place = n.entry.shard * half_unit + n.entry.index;
          stamps = n.entry.born * half_unit + n.stamp;
        } };
    }

    impl Key {
        /// The key of that entry at that stamp.
        #[inline]
        pub fn new(entry: EntryId, stamp: u32) -> Key
            ensures { result ≡ record { entry = entry; stamp = stamp } }
        {
            Key {
                place: entry.place,
                stamps: entry.born * HALF_UNIT + u64::from(stamp),
            }
        }

        /// The entry that is meant.
        #[inline]
        pub fn entry(&self) -> EntryId
            ensures { result ≡ self.now.entry }
        {
            EntryId {
                place: self.place,
                born: self.stamps / HALF_UNIT,
            }
        }

        /// The stamp at which the entry is meant.
        #[inline]
        pub fn stamp(&self) -> u32
            ensures { result ≡ self.now.stamp }
        {
            (self.stamps % HALF_UNIT) as u32
        }
    }

    /// Whether two keys are one: the same entry, meant at the same stamp. The derived `==` says the same.
    #[inline]
    pub fn is_same_key(one: Key, other: Key) -> bool
        ensures { IsTrue result ↔ (one ≡ other) }
    {
        one.place == other.place && one.stamps == other.stamps
    }

    impl Debug for Key {
        fn fmt<W: fmt::Write>(&self, f: &mut Formatter<W>) -> fmt::Result {
            f.debug_struct("Key")
                .field("entry", &self.entry())
                .field("stamp", &self.stamp())
                .finish()
        }
    }
}

/// The keys that a program has. Each names an entry of a whole queue, which has shards.
pub mod names {
    use crate::keys::HALF_UNIT;
    use crate::{CAPACITY_LIMIT, LAST_STAMP, keys};
    use std::cmp::Ordering;
    use std::fmt;
    use std::fmt::{Debug, Formatter};
    use std::hash::{Hash, Hasher};
    use std::marker::Model;

    const STAMP_COUNT: u64 = LAST_STAMP as u64 + 1;

    const INDEX_COUNT: u64 = CAPACITY_LIMIT as u64;

    /// The name of an entry of a [`DelayQueue`](crate::DelayQueue), from its insert to its end.
    ///
    /// A key may be copied, kept in maps and sent to other threads. It stays good whatever is done to its entry: after
    /// a reset too it is equal to what it was. A key of another queue is refused as
    /// [`WrongQueue`](crate::delay_queue::KeyError::WrongQueue), and never taken for an entry of this one. (Queues are
    /// told apart by 32 bits, so that the queue which is made 2³² queues later has the number again.)
    ///
    /// Its order is a fixed one, and tells nothing of the deadline.
    ///
    /// ```
    /// use hontkhale::DelayQueue;
    /// use std::collections::HashMap;
    /// use std::time::Duration;
    ///
    /// let queue = DelayQueue::new();
    /// let mut users = HashMap::new();
    /// let key = queue.insert("session", Duration::from_secs(30))?;
    /// users.insert(key, "ann");
    /// queue.reset(&key, Duration::ZERO)?;
    /// let expired = queue.recv().expect("it is due");
    /// assert_eq!(users[&expired.key], "ann");
    /// # Ok::<(), Box<dyn std::error::Error>>(())
    /// ```
    #[derive(Clone, Copy)]
    pub struct Key {
        // The number of the queue, and that of the core.
        place: u64,
        // The shard, the index, the birth, and the stamp that the entry had when the key was made.
        entry: u64,
    }

    impl Model for Key {
        ghost use Rattle.std.specs.Prelude.{◌+◌, ◌*◌, ◌/◌, ◌%◌, ◌<◌};
        ghost use Rattle.dq_ticks.specs.Keys.{EntryName, QueueEntryName, QueueKeyName};
        ghost use Rattle.dq_ticks.specs.Units.{half_unit, index_count, stamp_count};

        ghost Value = { QueueKeyName };

        ghost view = { λ a. record {
          named = record {
            queue = a.place / half_unit;
            shard = a.entry / stamp_count / stamp_count / index_count;
            entry = record {
              shard = a.place % half_unit;
              index = a.entry / stamp_count / stamp_count % index_count;
              born = a.entry / stamp_count % stamp_count;
            };
          };
          stamp = a.entry % stamp_count;
        } };

        ghost invariant = { λ a.
            (a.place < half_unit * half_unit) × (a.entry < half_unit * half_unit) };

        ghost inverse = { λ k. record {
          place = k.named.queue * half_unit + k.named.entry.shard;
          entry = ((k.named.shard * index_count + k.named.entry.index) * stamp_count + k.named.entry.born)
              * stamp_count + k.stamp;
        } };
    }

    impl Key {
        /// The key of an entry that a shard of a queue names by a key of its own.
        #[inline]
        pub fn of(queue: u32, shard: usize, key: &keys::Key) -> Key
            requires shard { shard < shard_count }
            requires index { key.now.entry.index < index_count }
            requires born { key.now.entry.born ≤ LAST_STAMP }
            requires stamp { key.now.stamp ≤ LAST_STAMP }
            ensures { result ≡ record {
              named = record { queue = queue; shard = shard; entry = key.now.entry };
              stamp = key.now.stamp;
            } }
        {
            let entry = key.entry();
            let name = shard as u64 * INDEX_COUNT + u64::from(entry.index());
            let born = name * STAMP_COUNT + u64::from(entry.born());
            Key {
                place: u64::from(queue) * HALF_UNIT + u64::from(entry.shard()),
                entry: born * STAMP_COUNT + u64::from(key.stamp()),
            }
        }

        /// The queue's number.
        #[inline]
        pub fn queue(&self) -> u32
            ensures { result ≡ self.now.named.queue }
        {
            (self.place / HALF_UNIT) as u32
        }

        /// The shard's place in the queue.
        #[inline]
        pub fn shard(&self) -> usize
            ensures value { result ≡ self.now.named.shard }
            ensures in_range { result < shard_count }
        {
            (self.entry / STAMP_COUNT / STAMP_COUNT / INDEX_COUNT) as usize
        }

        /// The number of the entry's core.
        #[inline(always)]
        pub fn number(&self) -> u32
            ensures { result ≡ self.now.named.entry.shard }
        {
            (self.place % HALF_UNIT) as u32
        }

        /// The entry, as its shard names it.
        #[inline]
        pub fn entry(&self) -> keys::EntryId
            ensures { result ≡ self.now.named.entry }
        {
            let index = (self.entry / STAMP_COUNT / STAMP_COUNT % INDEX_COUNT) as u32;
            let born = (self.entry / STAMP_COUNT % STAMP_COUNT) as u32;
            keys::EntryId::new(self.number(), index, born)
        }

        /// The shard's own key.
        #[inline]
        pub fn inner(&self) -> keys::Key
            ensures { result ≡ record { entry = self.now.named.entry; stamp = self.now.stamp } }
        {
            keys::Key::new(self.entry(), (self.entry % STAMP_COUNT) as u32)
        }

        // What is the same in all keys of the entry.
        #[inline]
        fn name(&self) -> (u64, u64)
            ensures place { result.0 ≡ core_part self.now }
            ensures rest { result.1 ≡ entry_part self.now }
        {
            (self.place, self.entry / STAMP_COUNT)
        }

        /// Its numbers are in their ranges, by which keys are equal exactly where they name one entry.
        pub fn law(&self)
            ensures { FitsQueueKey self.now }
        {
            let _ = &self.place;
            let _ = &self.entry;
        }
    }

    /// Keys are equal where they name one entry of one queue, and nowhere else, whatever their stamps: so the keys from
    /// before a reset are equal to those from after it.
    pub fn equal_keys_name_one_entry()
        ensures { EqualKeysNameOneEntry }
    {}

    impl PartialEq for Key {
        ghost eq = { are_equal };

        ghost laws = { Prim.search (comparing, rules) };

        fn eq(&self, other: &Key) -> bool {
            self.name() == other.name()
        }
    }

    impl Eq for Key {
        ghost laws = { Prim.search (comparing, rules) };
    }

    impl PartialOrd for Key {
        ghost partial_cmp = { as_partial_cmp key_order };

        ghost laws = { partial_order_from_own_ties (Prim.search (comparing, rules))
            (Prim.search (comparing, rules)) };

        fn partial_cmp(&self, other: &Key) -> Option<Ordering> {
            Some(self.cmp(other))
        }
    }

    impl Ord for Key {
        ghost cmp = { key_order };

        ghost total = { Prim.search (comparing, rules) };

        ghost matches_partial_cmp = { Prim.search (comparing, rules) };

        ghost matches_eq = { Prim.search (comparing, rules) };

        fn cmp(&self, other: &Key) -> Ordering {
            self.name().cmp(&other.name())
        }
    }

    impl Hash for Key {
        ghost hash_input = { λ k. fed.u64 (core_part k) ++ fed.u64 (entry_part k) };

        ghost respects_eq = { Prim.search (hashing, rules) };

        fn hash<H: Hasher>(&self, state: &mut H) {
            self.name().hash(state);
        }
    }

    impl Debug for Key {
        fn fmt<W: fmt::Write>(&self, f: &mut Formatter<W>) -> fmt::Result {
            let entry = self.entry();
            f.debug_struct("Key")
                .field("queue", &self.queue())
                .field("shard", &self.shard())
                .field("core", &entry.shard())
                .field("index", &entry.index())
                .field("born", &entry.born())
                .finish()
        }
    }
}

/// Lengths of time in ticks.
mod lengths {
    use crate::LAST_TICK;
    use std::time::Duration;

    const TICK_NANOS: u32 = 1_000_000;

    const ALMOST_A_TICK: u32 = TICK_NANOS - 1;

    /// The whole milliseconds of a length, and [`LAST_TICK`] where they are more.
    #[inline]
    pub fn whole(length: Duration) -> u64
        ensures { result ≡ min LAST_TICK (as_nanos length / tick_nanos) }
    {
        // Longer ones come to no end, and their milliseconds to no more than a number holds.
        let seconds = length.as_secs().min(LAST_TICK / 1_000 + 1);
        LAST_TICK.min(seconds * 1_000 + u64::from(length.subsec_millis()))
    }

    /// The first tick that isn't before the end of a length, or one beyond the last, and how many nanoseconds that end
    /// is before it. Each insert asks.
    #[inline(always)]
    pub fn rounded_up(length: Duration) -> (u64, u32)
        ensures within { as_nanos length ≤ LAST_TICK * tick_nanos →
            RoundsUp (as_nanos length) result.0 result.1 }
        ensures beyond { LAST_TICK * tick_nanos < as_nanos length → LAST_TICK < result.0 }
    {
        if length.as_secs() > LAST_TICK / 1_000 {
            return (u64::MAX, 0);
        }
        // `div_ceil` looks at the remainder too, which takes a few instructions more.
        let millis = (length.subsec_nanos() + ALMOST_A_TICK) / TICK_NANOS;
        let early = millis * TICK_NANOS - length.subsec_nanos();
        (length.as_secs() * 1_000 + u64::from(millis), early)
    }
}

/// Why a call of a `DelayQueue` is refused.
pub mod refusals {
    use thiserror::Error;

    /// Why a [`DelayQueue`](crate::DelayQueue) doesn't take a value, or makes no room.
    #[derive(Clone, Copy, Debug, PartialEq, Eq, Error)]
    pub enum InsertErrorKind {
        /// The queue was closed.
        #[error("the queue is closed")]
        Closed,
        /// The deadline is more than 139 years after the queue was made.
        #[error("the deadline is too far")]
        TooFar,
        /// As many entries wait as the queue may have.
        #[error("the queue has as many entries as it may have")]
        Full,
        /// Memory was refused.
        #[error("out of memory")]
        NoMemory,
    }

    /// Why a call by a [`Key`](crate::delay_queue::Key) is refused. Nothing changes then.
    #[derive(Clone, Copy, Debug, PartialEq, Eq, Error)]
    pub enum KeyError {
        /// The key is of another queue.
        #[error("the key is of another queue")]
        WrongQueue,
        /// The queue was dropped: a [`Handle`](crate::delay_queue::Handle) alone outlives it.
        #[error("the queue was dropped")]
        Closed,
        /// The entry came out, or was removed, cancelled, drained or cleared.
        #[error("the entry has ended")]
        Ended,
        /// The deadline is more than 139 years after the queue was made.
        #[error("the deadline is too far")]
        TooFar,
        /// Memory was refused.
        #[error("out of memory")]
        NoMemory,
    }

    /// Why a [`DelayQueue`](crate::DelayQueue) gives no entry to who doesn't wait.
    #[derive(Clone, Copy, Debug, PartialEq, Eq, Error)]
    pub enum TryRecvError {
        /// Nothing that is due by now was found.
        #[error("nothing is due")]
        Empty,
        /// The queue is closed, and nothing is due: nothing comes out any more.
        #[error("the queue is closed")]
        Closed,
    }

    /// Why a [`DelayQueue`](crate::DelayQueue) gives no entry to who waits for a time.
    #[derive(Clone, Copy, Debug, PartialEq, Eq, Error)]
    pub enum RecvTimeoutError {
        /// Nothing that is due was found in time.
        #[error("nothing came due in time")]
        Timeout,
        /// The queue is closed, and nothing is due: nothing comes out any more.
        #[error("the queue is closed")]
        Closed,
    }
}
