//! The one seat that begins and ends entries.
ghost use Rattle.std.specs.Prelude.{◌≡◌, ◌+◌, ◌<◌, ◌≤◌, length, true, slice_index, slice_set, IfErr, IfOk};
ghost use Rattle.atomic_table.specs.Seated.{TableId};
ghost use Rattle.dq_core.specs.Words.{AreFresh, live, removed, begun_counts, settled_counts};
ghost use Rattle.dq_core.specs.Words.{finished_counts, removed_at, IsChanged, IsFinishedBy, IsInForce, IsOver, IsSettled};
ghost use Rattle.dq_core.specs.Words.{Learned, never, StillBegun};
ghost use Rattle.dq_words.specs.AtTheCall.{KnowsNothing, NoCallerAfter, NoKeeperFor, StepsAtMost};
ghost use Rattle.dq_words.specs.KeeperCalls.{known_of, known_word, counts_by, EndsFit, HasBegun};
ghost use Rattle.dq_words.specs.KeeperCalls.{KeeperIsMade, KeeperBegins, KeeperLooks};
ghost use Rattle.dq_words.specs.KeeperCalls.{KeeperSettles, KeeperRenews, KeeperFinishes, KeeperFinishesBy, Issues};
ghost use Rattle.dq_words.specs.KeeperCalls.{Tells, Returns, Accounts, OnlyRemoves};
ghost use Rattle.dq_words.specs.Endings.{WritesStay};
ghost use Rattle.dq_words.specs.Keeping.{counts_of, IsEnded, IsKeeper, IsOpen, IsOpenFrom, NoneLive, Stood};
ghost use Rattle.dq_words.specs.Plays.{SeatGoesOn};

use crate::caller::Caller;
use crate::seated::{ONE_CANCEL, Seated, expired_word, live_word, removed_word};
use dq_core::{Look, Settled, SharedWords, Words};
use dq_ticks::{CAPACITY_LIMIT, LAST_STAMP, LAST_TICK, Parts, field, is_live, stamp, unpack};
use std::alloc::{AllocError, Allocator, Global};
use std::marker::Model;
use thiserror::Error;

/// The most callers that a keeper issues, given back or not.
pub const HANDLE_LIMIT: u64 = 1024;

/// Why a keeper or a caller is not made.
#[derive(Clone, Copy, Debug, PartialEq, Eq, Error)]
pub enum WordsError {
    /// The capacity is 0 or beyond [`CAPACITY_LIMIT`].
    #[error("the capacity is out of its range")]
    BadConfig,
    /// Memory was refused.
    #[error("out of memory")]
    NoMemory,
    /// The keeper has issued as many callers as it may.
    #[error("no more than {limit} handles are issued")]
    TooManyHandles {
        /// How many it may issue.
        limit: u64,
    },
}

/// Begins and ends the entries of a row of words, and issues the callers that extend and cancel them. A queue that
/// [`shared_queue`](crate::owner::shared_queue) makes has one.
///
/// Where it is dropped, what is live by its words is ended as removed, and its callers are refused from then on. That
/// takes a load a slot, and two atomic steps or more for each live one.
pub struct Keeper<A: Allocator = Global> {
    pub(crate) seat: Seated<A>,
    issued: u64,
}

impl<A: Allocator> Model for Keeper<A> {
    ghost use Rattle.std.specs.Prelude.{◌≡◌, ◌≤◌, true};
    ghost use Rattle.dq_words.specs.Seats.{Sat};
    ghost use Rattle.dq_words.specs.declared.keeper.TheConstants.{HANDLE_LIMIT};

    ghost Value = { Sat };

    ghost view = { λ k. k.seat };

    ghost invariant = { λ k. (k.seat.view.keeps ≡ true)
        × (k.issued ≡ k.seat.view.issued) × (k.issued ≤ HANDLE_LIMIT) };
}

impl From<AllocError> for WordsError {
    ghost use Rattle.std.specs.Prelude.{◌≡◌};
    ghost use Rattle.dq_words.specs.declared.keeper.WordsError.TheVariants.{NoMemory};

    ghost from_gives = { λ _ e. e ≡ NoMemory };

    fn from(_e: AllocError) -> WordsError {
        WordsError::NoMemory
    }
}

// Ends the word that is live at exactly `at` by one try: a word that isn't is live at a later deadline or cancelled.
fn settle<A: Allocator>(seat: &mut Seated<A>, index: usize, stamp: u32, at: u64) -> Settled
    requires inside { index < length seat.old.view.seen }
    requires keeper { seat.old.view.keeps ≡ true }
    requires open { IsOpenFrom (slice_index seat.old.view.seen index) stamp at }
    requires last { stamp ≤ LAST_STAMP }
    requires tick { at ≤ LAST_TICK }
    ensures settles { KeeperSettles seat.old.view index stamp at result seat.new.view }
    ensures table { seat.new.table ≡ seat.old.table }
    ensures seat { SeatGoesOn seat.old.view seat.new.view }
{
    let old = live_word(stamp, at);
    let found = seat.settle(index, old, expired_word(stamp, at));
    if found == old {
        Settled::SettledExpired
    } else if is_live(found) {
        Settled::Later(field(found))
    } else {
        Settled::SettledCancelled
    }
}

// Each try that fails shows a greater word.
fn renew<A: Allocator>(seat: &mut Seated<A>, index: usize, stamp: u32, when: u64) -> Option<u64>
    requires inside { index < length seat.old.view.seen }
    requires keeper { seat.old.view.keeps ≡ true }
    requires open { IsOpen (slice_index seat.old.view.seen index) stamp }
    requires last { stamp < LAST_STAMP }
    requires tick { when ≤ LAST_TICK }
    ensures renews { KeeperRenews seat.old.view index stamp when result seat.new.view }
    ensures table { seat.new.table ≡ seat.old.table }
    ensures seat { SeatGoesOn seat.old.view seat.new.view }
{
    let new = live_word(stamp + 1, when);
    let mut seen = seat.keeper_load(index);
    while is_live(seen) {
        let found = seat.renew(index, seen, new);
        if found == seen {
            return Some(field(seen));
        }
        seen = found;
    }
    None
}

// Each try that fails shows a greater word.
fn finish<A: Allocator>(seat: &mut Seated<A>, index: usize, stamp: u32) -> Option<u64>
    requires inside { index < length seat.old.view.seen }
    requires keeper { seat.old.view.keeps ≡ true }
    requires open { IsOpen (slice_index seat.old.view.seen index) stamp }
    requires last { stamp ≤ LAST_STAMP }
    ensures finishes { KeeperFinishes seat.old.view index stamp result seat.new.view }
    ensures table { seat.new.table ≡ seat.old.table }
    ensures seat { SeatGoesOn seat.old.view seat.new.view }
{
    let mut seen = seat.keeper_load(index);
    while is_live(seen) {
        let deadline = field(seen);
        let found = seat.finish(index, seen, removed_word(stamp, deadline));
        if found == seen {
            return Some(deadline);
        }
        seen = found;
    }
    None
}

// The same where the deadline isn't after a tick.
fn finish_by<A: Allocator>(seat: &mut Seated<A>, index: usize, stamp: u32, tick: u64) -> Look
    requires inside { index < length seat.old.view.seen }
    requires keeper { seat.old.view.keeps ≡ true }
    requires open { IsOpen (slice_index seat.old.view.seen index) stamp }
    requires last { stamp ≤ LAST_STAMP }
    ensures finishes { KeeperFinishesBy seat.old.view index stamp tick result seat.new.view }
    ensures table { seat.new.table ≡ seat.old.table }
    ensures seat { SeatGoesOn seat.old.view seat.new.view }
{
    let mut seen = seat.keeper_load(index);
    while is_live(seen) {
        let deadline = field(seen);
        if deadline > tick {
            return Look::StillLive(deadline);
        }
        let found = seat.finish(index, seen, removed_word(stamp, deadline));
        if found == seen {
            return Look::LookRemoved(deadline);
        }
        seen = found;
    }
    Look::LookCancelled
}

// Ends the word of a slot as removed, where it is live.
fn end<A: Allocator>(seat: &mut Seated<A>, index: usize)
    requires inside { index < length seat.old.view.seen }
    requires keeper { seat.old.view.keeps ≡ true }
    ensures ended { IsEnded (slice_index seat.new.view.seen index) }
    ensures only { seat.new.view.seen
        ≡ slice_set seat.old.view.seen index (slice_index seat.new.view.seen index) }
    ensures removes { OnlyRemoves (counts_of seat.old.view.writes) (counts_of seat.new.view.writes) }
    ensures begun { WritesStay seat.old.view seat.new.view }
    ensures table { seat.new.table ≡ seat.old.table }
    ensures seat { SeatGoesOn seat.old.view seat.new.view }
{
    let seen = seat.keeper_load(index);
    if is_live(seen) && stamp(seen) > 0 {
        let _ended = finish(seat, index, stamp(seen));
    }
}

impl<A: Allocator + Clone> Keeper<A> {
    /// Makes a keeper of `capacity` slots that were never used. It takes time and memory in proportion to `capacity`.
    ///
    /// # Errors
    /// In this order:
    /// - `BadConfig` if `capacity` is 0 or beyond [`CAPACITY_LIMIT`].
    /// - `NoMemory` if memory is refused.
    pub fn new(alloc: A, capacity: usize) -> Result<Keeper<A>, WordsError>
        // Made: each word was never used, and nothing is known, written or issued yet.
        ensures rows { IfOk result (λ k. length (known_of k) ≡ capacity) }
        ensures fresh { IfOk result (λ k. AreFresh (known_of k) (counts_by k)) }
        ensures nothing { IfOk result (λ k. KnowsNothing k) }

        // Refused: exactly by the capacity, but where memory is refused.
        ensures refused { IfErr result (λ e. NoKeeperFor capacity e) }

        // All that it is.
        ensures made { KeeperIsMade capacity result }
    {
        if capacity == 0 || capacity > CAPACITY_LIMIT {
            return Err(WordsError::BadConfig);
        }
        let seat = Seated::at_new_table(alloc, capacity)?;
        Ok(Keeper { seat, issued: 0 })
    }
}

impl<A: Allocator> Keeper<A> {
    /// What is known of every keeper: it issued no more than [`HANDLE_LIMIT`] callers, and began no more entries than
    /// the stamps that it saw; and between some two steps the rule of the words held with what it knows.
    pub fn law(&self)
        ensures keeper { IsKeeper self.now.view }
        ensures stood { Stood self.now.view }
    {
        self.seat.law();
    }

    /// Makes one caller more, which may go to any thread. It takes memory for the caller.
    ///
    /// # Errors
    /// In this order:
    /// - `TooManyHandles` if [`HANDLE_LIMIT`] callers were made, given back or not.
    /// - `NoMemory` if memory is refused.
    pub fn issue(&mut self) -> Result<Caller<A>, WordsError>
        // Issued: one more, which sits at this keeper's table and knows nothing yet.
        ensures counted { IfOk result (λ _. self.new.view.issued ≡ self.old.view.issued + 1) }
        ensures same_table { IfOk result (λ c. c.table ≡ self.old.table) }
        ensures newcomer { IfOk result (λ c. KnowsNothing c) }

        // Refused: exactly past the limit, but where memory is refused; then nothing changes.
        ensures refused { IfErr result (λ e. NoCallerAfter self.old.view.issued e) }
        ensures unchanged { IfErr result (λ _. self.new ≡ self.old) }

        // All that it does.
        ensures issues { Issues self.old result self.new }
        ensures table { self.new.table ≡ self.old.table }
    {
        if self.issued >= HANDLE_LIMIT {
            return Err(WordsError::TooManyHandles {
                limit: HANDLE_LIMIT,
            });
        }
        let seat = self.seat.issue()?;
        self.issued += 1;
        Ok(Caller::of(seat))
    }

    /// Returns the number of callers that were made and not given back, by one load. A caller that was dropped stays
    /// counted.
    pub fn out(&mut self) -> u64
        ensures at_most { result ≤ self.new.view.issued }
        ensures one_step { StepsAtMost 1 self.old self.new }
        ensures words { known_of self.new ≡ known_of self.old }
        ensures counts { counts_by self.new ≡ counts_by self.old }

        // All that it does.
        ensures tells { Tells self.old result self.new }
        ensures table { self.new.table ≡ self.old.table }
    {
        let gone = self.seat.return_load() % ONE_CANCEL;
        self.issued - gone
    }

    /// The accepted cancels of all callers, where none is out, and else the number that is out, by one load.
    pub fn returned(&mut self) -> Result<u64, u64>
        // Nobody is out: the cancels account for all that was begun.
        ensures accounts { IfOk result (λ c. Accounts self.new c) }
        ensures ends { IfOk result (λ c. EndsFit (counts_by self.new) c) }

        // Somebody is out: so many.
        ensures out { IfErr result (λ n. (0 < n) × (n ≤ self.new.view.issued)) }
        ensures one_step { StepsAtMost 1 self.old self.new }

        // All that it does.
        ensures returns { Returns self.old result self.new }
        ensures table { self.new.table ≡ self.old.table }
    {
        let word = self.seat.return_load();
        let out = self.issued - word % ONE_CANCEL;
        if out > 0 {
            return Err(out);
        }
        Ok(word / ONE_CANCEL)
    }

    // Ends each word that is live, as removed. From then on every extend and cancel of a caller is refused, and a
    // look shows the end. What was accepted before a word was ended stands. One load a word, and a load and an
    // exchange or more for each live one.
    fn end_all(&mut self)
        // No word is live, nor will one be: callers make none live.
        ensures ended { NoneLive self.new.view }

        // What was live is removed: nothing is begun, and nothing expires.
        ensures removes { OnlyRemoves (counts_by self.old) (counts_by self.new) }
        ensures begun { StillBegun HasBegun self.old self.new }
        ensures row { length self.new.view.seen ≡ length self.old.view.seen }
        ensures issued { self.new.view.issued ≡ self.old.view.issued }
        ensures table { self.new.table ≡ self.old.table }
    {
        for index in 0..self.seat.rows() {
            end(&mut self.seat, index);
        }
    }
}

impl<A: Allocator> Drop for Keeper<A> {
    fn drop(mut self) {
        self.end_all();
        let Keeper { seat: _, issued: _ } = self;
    }
}

impl<A: Allocator> Words for Keeper<A> {
    ghost known = { known_of };

    ghost counts = { counts_by };

    ghost shared = { true };

    ghost keeps = { λ k. IsKeeper k.view × Stood k.view };

    ghost Origin = { TableId };

    ghost origin = { λ k. k.table };

    ghost begun = { HasBegun };

    ghost steps = { λ k. length k.view.steps };

    fn law(&self) {
        Keeper::law(self);
    }

    fn rows(&self) -> usize {
        self.seat.rows()
    }

    #[inline(always)]
    fn once_read(&self, index: usize, number: u64) -> u64 {
        self.seat.once_read(index, number)
    }

    fn begin(&mut self, index: usize, stamp: u32, when: u64)
        requires in_range { index < length (known_of self.old) }
        requires over { IsOver (known_word self.old index) }
        requires next { stamp ≡ (known_word self.old index).stamp + 1 }
        requires last { stamp ≤ LAST_STAMP }
        requires tick { when ≤ LAST_TICK }
        ensures known { known_of self.new ≡ slice_set (known_of self.old) index (live stamp when) }
        ensures counts { counts_by self.new ≡ begun_counts (counts_by self.old) }
        ensures begins { HasBegun self.new index stamp when }
        ensures origin { self.new.table ≡ self.old.table }
        ensures begun { StillBegun HasBegun self.old self.new }
        ensures step { KeeperBegins self.old.view index stamp when self.new.view }
    {
        self.seat.begin(index, live_word(stamp, when));
    }

    #[inline]
    fn look(&mut self, index: usize) -> Parts
        requires { index < length (known_of self.old) }
        ensures learned { Learned true (known_word self.old index) result }
        ensures unused { known_word self.old index ≡ never → result ≡ never }
        ensures known { known_of self.new ≡ slice_set (known_of self.old) index result }
        ensures counts { counts_by self.new ≡ counts_by self.old }
        ensures origin { self.new.table ≡ self.old.table }
        ensures begun { StillBegun HasBegun self.old self.new }
        ensures one_step { StepsAtMost 1 self.old self.new }
        ensures step { KeeperLooks self.old.view index result self.new.view }
    {
        unpack(self.seat.keeper_load(index))
    }

    fn settle(&mut self, index: usize, stamp: u32, at: u64) -> Settled
        requires in_range { index < length (known_of self.old) }
        requires in_force { IsInForce stamp at (known_word self.old index) }
        requires last { stamp ≤ LAST_STAMP }
        requires tick { at ≤ LAST_TICK }
        ensures settled { IsSettled true stamp at
            (known_word self.old index) result (known_word self.new index) }
        ensures known { known_of self.new
            ≡ slice_set (known_of self.old) index (known_word self.new index) }
        ensures counts { counts_by self.new ≡ settled_counts (counts_by self.old) result }
        ensures origin { self.new.table ≡ self.old.table }
        ensures begun { StillBegun HasBegun self.old self.new }
        ensures one_step { StepsAtMost 1 self.old self.new }
        ensures step { KeeperSettles self.old.view index stamp at result self.new.view }
    {
        settle(&mut self.seat, index, stamp, at)
    }

    fn renew(&mut self, index: usize, stamp: u32, when: u64) -> Option<u64>
        requires in_range { index < length (known_of self.old) }
        requires in_force { IsInForce stamp 0 (known_word self.old index) }
        requires last { stamp < LAST_STAMP }
        requires tick { when ≤ LAST_TICK }
        ensures changed { IsChanged true stamp (λ d. live (stamp + 1) when)
            (known_word self.old index) result (known_word self.new index) }
        ensures known { known_of self.new
            ≡ slice_set (known_of self.old) index (known_word self.new index) }
        ensures counts { counts_by self.new ≡ counts_by self.old }
        ensures origin { self.new.table ≡ self.old.table }
        ensures begun { StillBegun HasBegun self.old self.new }
        ensures step { KeeperRenews self.old.view index stamp when result self.new.view }
    {
        renew(&mut self.seat, index, stamp, when)
    }

    fn finish(&mut self, index: usize, stamp: u32) -> Option<u64>
        requires in_range { index < length (known_of self.old) }
        requires in_force { IsInForce stamp 0 (known_word self.old index) }
        requires last { stamp ≤ LAST_STAMP }
        ensures changed { IsChanged true stamp (removed stamp)
            (known_word self.old index) result (known_word self.new index) }
        ensures known { known_of self.new
            ≡ slice_set (known_of self.old) index (known_word self.new index) }
        ensures counts { counts_by self.new ≡ finished_counts (counts_by self.old) result }
        ensures origin { self.new.table ≡ self.old.table }
        ensures begun { StillBegun HasBegun self.old self.new }
        ensures step { KeeperFinishes self.old.view index stamp result self.new.view }
    {
        finish(&mut self.seat, index, stamp)
    }

    fn finish_by(&mut self, index: usize, stamp: u32, tick: u64) -> Look
        requires in_range { index < length (known_of self.old) }
        requires in_force { IsInForce stamp 0 (known_word self.old index) }
        requires last { stamp ≤ LAST_STAMP }
        ensures finished { IsFinishedBy true stamp tick
            (known_word self.old index) result (known_word self.new index) }
        ensures known { known_of self.new
            ≡ slice_set (known_of self.old) index (known_word self.new index) }
        ensures counts { counts_by self.new
            ≡ finished_counts (counts_by self.old) (removed_at result) }
        ensures origin { self.new.table ≡ self.old.table }
        ensures begun { StillBegun HasBegun self.old self.new }
        ensures step { KeeperFinishesBy self.old.view index stamp tick result self.new.view }
    {
        finish_by(&mut self.seat, index, stamp, tick)
    }
}

impl<A: Allocator> SharedWords for Keeper<A> {
    type Caller = Caller<A>;

    type Fault = WordsError;

    ghost issues = { Issues };

    ghost tells = { Tells };

    ghost returns = { Returns };

    ghost audited = { Accounts };

    fn issue(&mut self) -> Result<Caller<A>, WordsError> {
        Keeper::issue(self)
    }

    fn out(&mut self) -> u64 {
        Keeper::out(self)
    }

    fn returned(&mut self) -> Result<u64, u64> {
        Keeper::returned(self)
    }
}
