//! What lies behind a shard's lock, and the calls that callers make of it there: each is entered once in the shard's
//! history.
ghost use Rattle.std.specs.Prelude.{◌≡◌, ◌<◌, ◌+◌, ◌++◌, ◌∷◌, max, true, [], Some, None, IfOk, IfErr, IfSome, IfNone, OnOk, OnErr};
ghost use Rattle.std.specs.Fn.{FnOnceReturnsAtMut};
ghost use Rattle.dq_queue.specs.Once.{IsTold, IsWithNumber};
ghost use Rattle.dq_queue.specs.Views.{first_witness, new_witness};
ghost use Rattle.dq_growing.specs.Notes.{HasNoteRoom};
ghost use Rattle.dq_growing.specs.Polls.{IfPieceOut, NoneLiveIn};
ghost use Rattle.dq_growing.specs.Sized.{NotesNext};
ghost use Rattle.dq_growing.specs.Sizing.{with_work, NotesLeft};
ghost use Rattle.dq_growing.specs.Store.{IsStore};
ghost use Rattle.dq_words.specs.Claims.{IsOf};
ghost use Rattle.dq_queue.specs.Calls.{StoreInserts, StoreRemoves, StoreRemovesIfDue, StoreResets, StoreResetsThere, StoreTells, StorePolls};
ghost use Rattle.dq_queue.specs.Calls.{KeepsPromise, StorePollsBeside, StoreTakesDeferred};
ghost use Rattle.dq_queue.specs.Calls.{StoreChanges};
ghost use Rattle.dq_queue.specs.Calls.{StoreTakesIn, StoreRefuses, StoreGives, StoreRelocates, StoreReaps};
ghost use Rattle.dq_queue.specs.Calls.{StoreFindsRoom, StoreReserves, StoreSweeps};
ghost use Rattle.dq_queue.specs.Claims.{AreClaimed, AreClaimsOf, BringsNoCore, ClaimsWords, HasClaim, IsOfItsWords, RefusedAsNew};
ghost use Rattle.dq_queue.specs.Leaving.{NoneIsLostIn};
ghost use Rattle.dq_queue.specs.Loans.{StoreGivesOut, StoreRefusesBack, StoreTakesBack};
ghost use Rattle.dq_queue.specs.Runs.{DeadlinesHoldIn, EndedStaysEndedIn, EntriesLeaveOnceIn, IsNewNumber, KeepsGivenIds};
ghost use Rattle.dq_queue.specs.Totals.{TotalsAgreeIn};
ghost use Rattle.dq_queue.specs.Shards.{EntersNone, MadeOnce, OneMore, IsStoreHistory, unnamed};

use crate::endings;
use crate::journal::Witness;
use crate::loans::Drained;
use crate::words::{Promise, QueueWords};
use dq_core::{CoreError, DelayCore, Piece, ReapError, Removed};
use dq_growing::{Moved, NextDeadline, SizedStore, TakeError};
use dq_ticks::{EntryId, Key};
use dq_words::directory::Claim;
use dq_words::{Keeper, OpenWords};
use std::alloc::{AllocError, Allocator, Global};
use std::marker::{Brand, Model, PhantomData};

/// Names a queue: how many shards it has and, of each by its number, the history and the register of the cores that are
/// away; and the directory of its cores' words.
pub trait Rooms {
    ghost use Rattle.std.specs.Prelude.{ℕ, List};
    ghost use Rattle.atomic_table.specs.Seated.{TableId};
    ghost use Rattle.boxcar.specs.Slot.{Named};

    ghost shards: { ℕ };

    ghost history: { ℕ → TableId };

    ghost loans: { ℕ → TableId };

    ghost rows: { List Named };
}

impl Rooms for Brand {
    ghost shards = { 0 };

    ghost history = { λ _. unnamed };

    ghost loans = { λ _. unnamed };

    ghost rows = { [] };
}

/// A shard: its number, and its store, which keeps its size and knows its hint. Its history is that which its number
/// names, and the words of its cores stand in the queue's directory. It has a register of the cores that are away from
/// it.
#[derive(Drop)]
pub struct Shard<T, J: Rooms, A: Allocator = Global> {
    number: u32,
    sized: SizedStore<T, Keeper<A>, A>,
    claims: Vec<Claim<OpenWords<A>, A>, A>,
    history: Witness<SizedStore<T, Keeper<A>, A>, A>,
    loans: Witness<DelayCore<T, Keeper<A>, A>, A>,
    rooms: PhantomData<J>,
}

impl<T, J: Rooms, A: Allocator> Model for Shard<T, J, A> {
    ghost use Rattle.std.specs.Prelude.{◌≡◌, ◌<◌};
    ghost use Rattle.dq_queue.specs.Once.{IsUnderLock};
    ghost use Rattle.dq_queue.specs.Claims.{AreClaimed, AreClaimsOf};
    ghost use Rattle.dq_queue.specs.Loans.{LoansAreKept};
    ghost use Rattle.dq_queue.specs.Shards.{HeldShard, IsAsLeft, IsStoreHistory};

    ghost Value = { HeldShard T };

    ghost view = { λ s. record {
      number = s.number;
      sized = s.sized;
      history = s.history.view;
      claims = s.claims.items;
    } };

    ghost invariant = { λ s. (s.number < J.shards)
        × (s.history.table ≡ J.history s.number) × IsUnderLock s.history.view
        × IsAsLeft s.history.view.log s.sized × IsStoreHistory s.history.view.log
        × AreClaimsOf J.rows s.claims.items
        × AreClaimed s.sized.store.cores.cores s.claims.items
        × (s.loans.table ≡ J.loans s.number) × IsUnderLock s.loans.view
        × LoansAreKept s.history.view.log s.sized.store s.loans.view.log s.claims.items };
}

/// A caller of one shard, in any thread.
#[derive(Drop)]
pub struct Caller<T, J: Rooms, A: Allocator = Global> {
    shard: u32,
    history: Witness<SizedStore<T, Keeper<A>, A>, A>,
    rooms: PhantomData<J>,
}

impl<T, J: Rooms, A: Allocator> Model for Caller<T, J, A> {
    ghost use Rattle.std.specs.Prelude.{◌≡◌, ◌<◌};
    ghost use Rattle.dq_queue.specs.Once.{IsWithNumber};
    ghost use Rattle.dq_queue.specs.Shards.{CallerView};

    ghost Value = { CallerView T };

    ghost view = { λ c. record { shard = c.shard; history = c.history.view } };

    ghost invariant = { λ c. (c.shard < J.shards) × (c.history.table ≡ J.history c.shard)
        × IsWithNumber c.history.view };
}

impl<T, J: Rooms, A: Allocator> Caller<T, J, A> {
    /// Returns the number of its shard.
    pub fn shard(&self) -> u32
        ensures shard { result ≡ self.now.shard }
        ensures range { result < J.shards }
    {
        self.shard
    }
}

impl<T, J: Rooms, A: Allocator> Shard<T, J, A> {
    /// A shard with a history and a register of loans in which nothing is yet, under the names of its number. It has
    /// these claims of the words of its cores.
    pub fn of(
        number: u32,
        sized: SizedStore<T, Keeper<A>, A>,
        claims: Vec<Claim<OpenWords<A>, A>, A>,
        history: Witness<SizedStore<T, Keeper<A>, A>, A>,
        loans: Witness<DelayCore<T, Keeper<A>, A>, A>,
    ) -> Shard<T, J, A>
        requires number { number < J.shards }
        requires claims { AreClaimsOf J.rows claims.items }
        requires claimed { AreClaimed sized.store.cores.cores claims.items }
        requires history { (history.table ≡ J.history number) × (history.view ≡ first_witness) }
        requires loans { (loans.table ≡ J.loans number) × (loans.view ≡ first_witness) }
        ensures number { result.number ≡ number }
        ensures sized { result.sized ≡ sized }
        ensures history { result.history ≡ first_witness }
        ensures claims { result.claims ≡ claims.items }
    {
        Shard {
            number,
            sized,
            claims,
            history,
            loans,
            rooms: PhantomData,
        }
    }

    /// Returns the shard's number.
    pub fn number(&self) -> u32
        ensures { result ≡ self.now.number }
    {
        self.number
    }

    /// Makes one caller more of this shard, which may go to any thread.
    ///
    /// # Errors
    /// If the history has too many holders.
    pub fn issue(&mut self) -> Result<Caller<T, J, A>, AllocError>
        // It has no call in the history yet.
        ensures history { IfOk result (λ c. c.history ≡ new_witness self.old.history) }
        ensures number { IfOk result (λ c. c.shard ≡ self.old.number) }
        ensures one_more { IfOk result
            (λ _. self.new.history.made ≡ self.old.history.made + 1) }

        // The store stays, and no call is entered.
        ensures stays { (self.new.sized ≡ self.old.sized) × (self.new.number ≡ self.old.number)
            × (self.new.claims ≡ self.old.claims) }
        ensures log { self.new.history.log ≡ self.old.history.log }
        ensures refused { OnErr result (self.new ≡ self.old) }
    {
        let history = self.history.open()?;
        Ok(Caller {
            shard: self.number,
            history,
            rooms: PhantomData,
        })
    }

    /// Tells a caller the whole history of the shard: of its own calls it has those that it made, each once.
    pub fn tell(&mut self, me: &mut Caller<T, J, A>)
        requires { me.old.shard ≡ self.old.number }
        ensures told { IsTold self.old.history me.old.history me.new.history }
        ensures history { IsStoreHistory self.old.history.log }

        // Whoever made the calls, and whatever cores left and came back: no entry gets an id that had been given, each
        // leaves at most once, and what has ended stays ended.
        ensures ids { KeepsGivenIds self.old.history.log }
        ensures leaves { EntriesLeaveOnceIn self.old.history.log }
        ensures ended { EndedStaysEndedIn self.old.history.log }
        ensures due { DeadlinesHoldIn self.old.history.log }

        // None is lost: what leaves was given out, or had been cancelled. As many came in as stand, and left so.
        ensures none_lost { NoneIsLostIn self.old.history.log }
        ensures totals { TotalsAgreeIn self.old.history.log }
        ensures same { (me.new.shard ≡ me.old.shard) × (self.new.number ≡ self.old.number)
            × (self.new.sized ≡ self.old.sized) × (self.new.claims ≡ self.old.claims)
            × (self.new.history.log ≡ self.old.history.log) }
    {
        self.history.tell(&mut me.history);
    }
}

// A core whose number none of these claims has comes in, as the store takes one in. Its own claim comes to them.
fn take_new<T, J: Rooms, A: Allocator + Clone>(
    sized: &mut SizedStore<T, Keeper<A>, A>,
    claims: &mut Vec<Claim<OpenWords<A>, A>, A>,
    words: &QueueWords<J, A>,
    core: DelayCore<T, Keeper<A>, A>,
    claim: &Claim<OpenWords<A>, A>,
) -> Result<(), (TakeError, DelayCore<T, Keeper<A>, A>)>
    requires all { AreClaimsOf J.rows claims.old.items }
    requires one { IsOf J.rows claim.now }
    ensures stores { IsStore sized.old.store × IsStore sized.new.store }
    ensures takes { StoreTakesIn core result sized.old.store sized.new.store }
    ensures refused { IfErr result
        (λ e. RefusedAsNew claims.old.items claim.now.number sized.old.store core e.0) }
    ensures fresh { OnOk result (¬ HasClaim claims.old.items claim.now.number) }
    ensures more { OnOk result (claims.new.items ≡ claims.old.items ++ claim.now ∷ []) }
    ensures same { OnErr result (claims.new.items ≡ claims.old.items) }
{
    sized.law();
    if claims.reserve(1).is_err() {
        return Err((TakeError::NoMemory, core));
    }
    if words.knows(claims.as_slice(), claim) {
        return Err((TakeError::UsedNumber, core));
    }
    let answer = sized.bring(core);
    sized.law();
    match answer {
        Ok(()) => {
            claims.push_reserved(claim.again());
            Ok(())
        }
        Err(refused) => Err(refused),
    }
}

// A poll of a store beside the promise of a call by the queue's words, by at most `most` steps.
fn poll_beside<T, J: Rooms, A: Allocator + Clone>(
    sized: &mut SizedStore<T, Keeper<A>, A>,
    promise: &mut Promise<J, A>,
    tick: u64,
    most: u32,
) -> Result<Piece<T>, CoreError>
    requires { IsOfItsWords sized.old.store promise.old }
    ensures stores { IsStore sized.old.store × IsStore sized.new.store }
    ensures cores { BringsNoCore sized.old.store sized.new.store }
    ensures polls { StorePolls tick (Some most) result sized.old.store sized.new.store }
    ensures kept { IfPieceOut result (KeepsPromise sized.old.store.notes promise.old) }
    ensures same { promise.new ≡ promise.old }
{
    sized.law();
    let answer = sized.poll_some(tick, most);
    let number = promise.claim.number();
    sized.beside(number, &mut promise.receipt);
    sized.law();
    endings::outs_are_in_force::<T>();
    answer
}

impl<T, J: Rooms, A: Allocator + Clone> Shard<T, J, A> {
    /// Puts `value` in, to come out at the tick `when` of one millisecond, and returns its key. No value is dropped:
    /// one that waits for its drop in the slot that the entry takes comes out beside the key. Constant time, and no
    /// memory is taken.
    ///
    /// # Errors
    /// `value` comes back. In this order:
    /// - `TooFar` if `when` is beyond the last tick.
    /// - `Full` if no core is open, or the open one has no slot free.
    pub fn insert(
        &mut self,
        me: &mut Caller<T, J, A>,
        value: T,
        when: u64,
    ) -> (Result<Key, (CoreError, T)>, Option<T>)
        requires { me.old.shard ≡ self.old.number }
        ensures once { MadeOnce me.old (λ s t. StoreInserts value when result s t) me.new }
        ensures one_more { OneMore self.old me.old self.new }
        ensures inserts { StoreInserts value when result self.old.sized.store self.new.sized.store }
        ensures number { self.new.number ≡ self.old.number }
        ensures claims { self.new.claims ≡ self.old.claims }
    {
        self.sized.law();
        let answer = self.sized.insert(value, when);
        self.sized.law();
        self.history.enter_for(&mut me.history, &self.sized);
        answer
    }

    /// Takes a live entry out, and returns its value with its key and its current deadline, a tick of one millisecond.
    /// Constant time, and no memory is taken.
    ///
    /// # Errors
    /// In this order:
    /// - `Missing` if the entry isn't in the shard any more, or never was.
    /// - `WasCancelled` if the entry was cancelled.
    pub fn remove(
        &mut self,
        me: &mut Caller<T, J, A>,
        entry: &EntryId,
    ) -> Result<Removed<T>, CoreError>
        requires { me.old.shard ≡ self.old.number }
        ensures once { MadeOnce me.old (λ s t. StoreRemoves entry.now result s t) me.new }
        ensures one_more { OneMore self.old me.old self.new }
        ensures removes { StoreRemoves entry.now result self.old.sized.store self.new.sized.store }
        ensures number { self.new.number ≡ self.old.number }
        ensures claims { self.new.claims ≡ self.old.claims }
    {
        self.sized.law();
        let answer = self.sized.remove(entry);
        self.sized.law();
        self.history.enter_for(&mut me.history, &self.sized);
        answer
    }

    /// Takes a live entry out if its current deadline isn't after `tick`, of one millisecond, and returns its value
    /// with its key and that deadline. It returns none if the deadline is later: then the entry stays where it is, with
    /// its key. Constant time, and no memory is taken.
    ///
    /// # Errors
    /// In this order:
    /// - `Missing` if the entry isn't in the shard any more, or never was.
    /// - `WasCancelled` if the entry was cancelled.
    pub fn remove_if_due(
        &mut self,
        me: &mut Caller<T, J, A>,
        entry: &EntryId,
        tick: u64,
    ) -> Result<Option<Removed<T>>, CoreError>
        requires { me.old.shard ≡ self.old.number }
        ensures once { MadeOnce me.old (λ s t. StoreRemovesIfDue entry.now tick result s t) me.new }
        ensures one_more { OneMore self.old me.old self.new }
        ensures removes { StoreRemovesIfDue entry.now tick result
            self.old.sized.store self.new.sized.store }
        ensures number { self.new.number ≡ self.old.number }
        ensures claims { self.new.claims ≡ self.old.claims }
    {
        self.sized.law();
        let answer = self.sized.remove_if_due(entry, tick);
        self.sized.law();
        self.history.enter_for(&mut me.history, &self.sized);
        answer
    }

    /// Gives a live entry the deadline `when`, a tick of one millisecond, sooner or later than the one that it has, and
    /// returns its new key. No value is dropped: one that waits for its drop in the slot that the entry goes on in
    /// comes out beside the key. Constant time. No memory is taken, but for a note where the entry goes on in another
    /// core.
    ///
    /// # Errors
    /// In this order:
    /// - `TooFar` if `when` is beyond the last tick.
    /// - `Missing` if the entry isn't in the shard any more, or never was.
    /// - `WasCancelled` if the entry was cancelled.
    /// - `NoMemory` if the entry has to go on in the open core, and memory for its note is refused.
    /// - `Full` if it has to, and no core is open, or the open one has no free slot.
    pub fn reset(
        &mut self,
        me: &mut Caller<T, J, A>,
        entry: &EntryId,
        when: u64,
    ) -> (Result<Key, CoreError>, Option<T>)
        requires { me.old.shard ≡ self.old.number }
        ensures once { MadeOnce me.old (λ s t. StoreResets entry.now when result s t) me.new }
        ensures one_more { OneMore self.old me.old self.new }
        ensures resets { StoreResets entry.now when result
            self.old.sized.store self.new.sized.store }
        ensures number { self.new.number ≡ self.old.number }
        ensures claims { self.new.claims ≡ self.old.claims }
    {
        self.sized.law();
        let answer = self.sized.reset(entry, when);
        self.sized.law();
        self.history.enter_for(&mut me.history, &self.sized);
        answer
    }

    /// The same of an entry that stays where it is. No memory is taken.
    ///
    /// # Errors
    /// In this order:
    /// - `TooFar` if `when` is beyond the last tick.
    /// - `Missing` if the entry isn't in the shard any more, or never was.
    /// - `WasCancelled` if the entry was cancelled.
    /// - `Worn` if the entry's slot has no stamp left for another key.
    pub fn reset_in_place(
        &mut self,
        me: &mut Caller<T, J, A>,
        entry: &EntryId,
        when: u64,
    ) -> Result<Key, CoreError>
        requires { me.old.shard ≡ self.old.number }
        ensures once { MadeOnce me.old (λ s t. StoreResetsThere entry.now when result s t) me.new }
        ensures one_more { OneMore self.old me.old self.new }
        ensures resets { StoreResetsThere entry.now when result
            self.old.sized.store self.new.sized.store }
        ensures number { self.new.number ≡ self.old.number }
        ensures claims { self.new.claims ≡ self.old.claims }
    {
        self.sized.law();
        let answer = self.sized.reset_in_place(entry, when);
        self.sized.law();
        self.history.enter_for(&mut me.history, &self.sized);
        answer
    }

    /// Returns the current deadline of a live entry, a tick of one millisecond. Constant time.
    ///
    /// # Errors
    /// In this order:
    /// - `Missing` if the entry isn't in the shard any more, or never was.
    /// - `WasCancelled` if the entry was cancelled.
    pub fn deadline(&mut self, me: &mut Caller<T, J, A>, entry: &EntryId) -> Result<u64, CoreError>
        requires { me.old.shard ≡ self.old.number }
        ensures once { MadeOnce me.old (λ s t. StoreTells entry.now result s t) me.new }
        ensures one_more { OneMore self.old me.old self.new }
        ensures tells { StoreTells entry.now result self.old.sized.store self.new.sized.store }
        ensures number { self.new.number ≡ self.old.number }
        ensures claims { self.new.claims ≡ self.old.claims }
    {
        self.sized.law();
        let answer = self.sized.deadline(entry);
        self.sized.law();
        self.history.enter_for(&mut me.history, &self.sized);
        answer
    }

    /// Notes a tick, of one millisecond, and polls: it takes out one entry whose deadline in force is reached by the
    /// greatest tick noted, or tells when to come again, or that there may be more. No value is dropped: that of each
    /// cancelled entry which it reaps waits until it is taken out.
    ///
    /// # Errors
    /// `TickTooLarge` beyond the last tick, which is not noted then.
    pub fn poll(&mut self, me: &mut Caller<T, J, A>, tick: u64) -> Result<Piece<T>, CoreError>
        requires { me.old.shard ≡ self.old.number }
        ensures once { MadeOnce me.old (λ s t. StorePolls tick None result s t) me.new }
        ensures one_more { OneMore self.old me.old self.new }
        ensures polls { StorePolls tick None result self.old.sized.store self.new.sized.store }
        ensures number { self.new.number ≡ self.old.number }
        ensures claims { self.new.claims ≡ self.old.claims }
    {
        self.sized.law();
        let answer = self.sized.poll(tick);
        self.sized.law();
        self.history.enter_for(&mut me.history, &self.sized);
        answer
    }

    /// The same by at most `most` steps. So it also tells where it made them all, and more may be left.
    ///
    /// # Errors
    /// `TickTooLarge` beyond the last tick, which is not noted then.
    pub fn poll_some(
        &mut self,
        me: &mut Caller<T, J, A>,
        tick: u64,
        most: u32,
    ) -> Result<Piece<T>, CoreError>
        requires { me.old.shard ≡ self.old.number }
        ensures once { MadeOnce me.old (λ s t. StorePolls tick (Some most) result s t) me.new }
        ensures one_more { OneMore self.old me.old self.new }
        ensures polls { StorePolls tick (Some most) result
            self.old.sized.store self.new.sized.store }
        ensures number { self.new.number ≡ self.old.number }
        ensures claims { self.new.claims ≡ self.old.claims }
    {
        self.sized.law();
        let answer = self.sized.poll_some(tick, most);
        self.sized.law();
        self.history.enter_for(&mut me.history, &self.sized);
        answer
    }

    /// The same, beside the promise of a call by the queue's words, of whatever thread: what comes out keeps it.
    ///
    /// # Errors
    /// `TickTooLarge` beyond the last tick, which is not noted then.
    pub fn poll_beside(
        &mut self,
        me: &mut Caller<T, J, A>,
        words: &QueueWords<J, A>,
        promise: &mut Promise<J, A>,
        tick: u64,
        most: u32,
    ) -> Result<Piece<T>, CoreError>
        requires { me.old.shard ≡ self.old.number }
        ensures once { MadeOnce me.old
            (λ s t. StorePollsBeside promise.old tick (Some most) result s t) me.new }
        ensures one_more { OneMore self.old me.old self.new }
        ensures polls { StorePollsBeside promise.old tick (Some most) result
            self.old.sized.store self.new.sized.store }
        ensures number { self.new.number ≡ self.old.number }
        ensures claims { self.new.claims ≡ self.old.claims }
        ensures same { promise.new ≡ promise.old }
    {
        let _ = words.knows(self.claims.as_slice(), &promise.claim);
        let answer = poll_beside(&mut self.sized, promise, tick, most);
        self.history.enter_for(&mut me.history, &self.sized);
        answer
    }

    /// Takes out a freed value that waits for its drop. It returns none if no value waits.
    pub fn take_deferred(&mut self, me: &mut Caller<T, J, A>) -> Option<T>
        requires { me.old.shard ≡ self.old.number }
        ensures once { MadeOnce me.old (λ s t. StoreTakesDeferred result s t) me.new }
        ensures one_more { OneMore self.old me.old self.new }
        ensures takes { StoreTakesDeferred result self.old.sized.store self.new.sized.store }
        ensures number { self.new.number ≡ self.old.number }
        ensures claims { self.new.claims ≡ self.old.claims }
    {
        self.sized.law();
        let answer = self.sized.take_deferred();
        self.sized.law();
        self.history.enter_for(&mut me.history, &self.sized);
        answer
    }

    /// Takes a core in whose words are claimed, of a number that no core of the shard ever had. It is open from then
    /// on, or the one that was still is; it is where that one has no free slot. It takes memory for the lists of cores
    /// and of claims alone. A core that left comes back by [`Shard::take_back`].
    ///
    /// # Errors
    /// The core comes back, and nothing changes. In this order:
    /// - `NoMemory` if memory for the claim is refused.
    /// - `UsedNumber` if the shard has a claim of its number, as of that of each core which it had.
    /// - `UsedNumber` if an entry is known by an id of that number that was moved away from there, or to there.
    /// - `StillLinked` if an entry is linked in the core.
    /// - `UsedNumber` if a core of the shard has its number, or it is the last one of all.
    /// - `NoMemory` if memory is refused.
    pub fn take_in(
        &mut self,
        me: &mut Caller<T, J, A>,
        words: &QueueWords<J, A>,
        core: DelayCore<T, Keeper<A>, A>,
        claim: &Claim<OpenWords<A>, A>,
    ) -> Result<(), (TakeError, DelayCore<T, Keeper<A>, A>)>
        requires number { me.old.shard ≡ self.old.number }
        requires claim { IsOf J.rows claim.now × ClaimsWords claim.now core }
        ensures once { MadeOnce me.old (λ s t. StoreTakesIn core result s t) me.new }
        ensures one_more { OneMore self.old me.old self.new }
        ensures fresh { OnOk result (IsNewNumber self.old.history.log core.shard) }
        ensures unclaimed { OnOk result (¬ HasClaim self.old.claims claim.now.number) }
        ensures takes { StoreTakesIn core result self.old.sized.store self.new.sized.store }
        ensures number { self.new.number ≡ self.old.number }
        ensures more { OnOk result (self.new.claims ≡ self.old.claims ++ claim.now ∷ []) }
        ensures same { OnErr result (self.new.claims ≡ self.old.claims) }
        ensures refused { IfErr result
            (λ e. RefusedAsNew self.old.claims claim.now.number self.old.sized.store core e.0) }
    {
        let answer = take_new(&mut self.sized, &mut self.claims, words, core, claim);
        self.history.enter_for(&mut me.history, &self.sized);
        answer
    }

    /// Takes a live entry out of its core and puts it into the open one, with its value and with the deadline that
    /// `next` makes of the one that it has as it is taken out. The entry keeps its id. No value is dropped: one that
    /// waits for its drop in the slot that the entry takes comes out beside the answer. Constant time in each core, and
    /// memory for one note is taken.
    ///
    /// # Errors
    /// Nothing is taken out. In this order:
    /// - `NoMemory` if memory for the note is refused.
    /// - `TooFar` if a deadline is asked for that is beyond the last tick.
    /// - `Full` if no core is open, or the open one has no free slot.
    /// - `Missing` if the entry isn't in the shard any more, or never was.
    /// - `WasCancelled` if the entry was cancelled.
    pub fn relocate(
        &mut self,
        me: &mut Caller<T, J, A>,
        entry: &EntryId,
        next: NextDeadline,
    ) -> (Result<Moved<T>, CoreError>, Option<T>)
        requires { me.old.shard ≡ self.old.number }
        ensures once { MadeOnce me.old (λ s t. StoreRelocates entry.now next result s t) me.new }
        ensures one_more { OneMore self.old me.old self.new }
        ensures relocates { StoreRelocates entry.now next result
            self.old.sized.store self.new.sized.store }
        ensures number { self.new.number ≡ self.old.number }
        ensures claims { self.new.claims ≡ self.old.claims }
    {
        self.sized.law();
        let answer = self.sized.relocate(entry, next);
        self.sized.law();
        self.history.enter_for(&mut me.history, &self.sized);
        answer
    }

    /// Frees the entry of that id where it is found cancelled. Its value isn't dropped: it waits until it is taken out.
    ///
    /// # Errors
    /// `Missing` where no entry of that id is linked; `Live` where it is found live.
    pub fn reap(&mut self, me: &mut Caller<T, J, A>, entry: &EntryId) -> Result<(), ReapError>
        requires { me.old.shard ≡ self.old.number }
        ensures once { MadeOnce me.old (λ s t. StoreReaps entry.now result s t) me.new }
        ensures one_more { OneMore self.old me.old self.new }
        ensures reaps { StoreReaps entry.now result self.old.sized.store self.new.sized.store }
        ensures number { self.new.number ≡ self.old.number }
        ensures claims { self.new.claims ≡ self.old.claims }
    {
        self.sized.law();
        let answer = self.sized.reap(entry);
        self.sized.law();
        self.history.enter_for(&mut me.history, &self.sized);
        answer
    }

    /// Calls a closure with the value of an entry, which it may change where it is, and returns what it returns. It
    /// returns none, and doesn't call it, if the entry isn't in the shard any more, or never was. A cancelled entry has
    /// its value until it is freed.
    pub fn with_value<R, F: FnOnce(&mut T) -> R>(
        &mut self,
        me: &mut Caller<T, J, A>,
        entry: &EntryId,
        call: F,
    ) -> Option<R>
        requires number { me.old.shard ≡ self.old.number }
        requires callable { F.IsAlwaysCallable call }
        ensures once { MadeOnce me.old (λ s t. StoreChanges
            (FnOnceReturnsAtMut F.FnOnce call) entry.now result s t) me.new }
        ensures one_more { OneMore self.old me.old self.new }
        ensures changes { StoreChanges (FnOnceReturnsAtMut F.FnOnce call)
            entry.now result self.old.sized.store self.new.sized.store }
        ensures number { self.new.number ≡ self.old.number }
        ensures claims { self.new.claims ≡ self.old.claims }
    {
        self.sized.law();
        let answer = self.sized.with_value(entry, call);
        self.sized.law();
        self.history.enter_for(&mut me.history, &self.sized);
        answer
    }

    /// Whether a slot is free for an insert: in the open core, or in another one of which half is free, or, where any
    /// will do, in any. That one is open then. No value that waits for its drop is in the way.
    pub fn finds_room(&mut self, me: &mut Caller<T, J, A>, any_will_do: bool) -> bool
        requires { me.old.shard ≡ self.old.number }
        ensures once { MadeOnce me.old
            (λ s t. StoreFindsRoom any_will_do result s t) me.new }
        ensures one_more { OneMore self.old me.old self.new }
        ensures finds { StoreFindsRoom any_will_do result
            self.old.sized.store self.new.sized.store }
        ensures number { self.new.number ≡ self.old.number }
        ensures claims { self.new.claims ≡ self.old.claims }
    {
        self.sized.law();
        let answer = self.sized.finds_room(any_will_do);
        self.sized.law();
        self.history.enter_for(&mut me.history, &self.sized);
        answer
    }

    /// Takes memory for `cores` more in the list of cores, and for one note.
    ///
    /// # Errors
    /// If memory is refused.
    pub fn reserve(&mut self, me: &mut Caller<T, J, A>, cores: usize) -> Result<(), AllocError>
        requires { me.old.shard ≡ self.old.number }
        ensures once { MadeOnce me.old (λ s t. StoreReserves s t) me.new }
        ensures one_more { OneMore self.old me.old self.new }
        ensures reserves { StoreReserves self.old.sized.store self.new.sized.store }
        ensures room { OnOk result (HasNoteRoom self.new.sized.store.notes) }
        ensures number { self.new.number ≡ self.old.number }
        ensures claims { self.new.claims ≡ self.old.claims }
    {
        self.sized.law();
        let answer = self.sized.reserve(cores);
        self.sized.law();
        self.history.enter_for(&mut me.history, &self.sized);
        answer
    }

    /// Frees cancelled entries at the next slots, 256 at most, unless each was looked at since the last of so many
    /// cancels. It tells whether it looked at some. No value is dropped: each waits until it is taken out.
    pub fn sweep(&mut self, me: &mut Caller<T, J, A>, cancels: u64) -> bool
        requires { me.old.shard ≡ self.old.number }
        ensures once { MadeOnce me.old (λ s t. StoreSweeps result s t) me.new }
        ensures one_more { OneMore self.old me.old self.new }
        ensures sweeps { StoreSweeps result self.old.sized.store self.new.sized.store }
        ensures number { self.new.number ≡ self.old.number }
        ensures claims { self.new.claims ≡ self.old.claims }
    {
        self.sized.law();
        let answer = self.sized.sweep(cancels);
        self.sized.law();
        self.history.enter_for(&mut me.history, &self.sized);
        answer
    }
}

// Calls for the size and the hint alone. The store stays, so no call is entered.
impl<T, J: Rooms, A: Allocator + Clone> Shard<T, J, A> {
    /// Returns the hint: a tick of one millisecond that is not after the deadline of any live entry.
    pub fn hint(&self) -> u64
        ensures hint { result ≡ self.now.sized.hint }
        ensures law { NoneLiveIn self.now.sized.store.cores result }
    {
        self.sized.hint()
    }

    /// Notes that an entry left its core, and that so many are left.
    pub fn note_left(&mut self, left: u64)
        ensures notes { NotesLeft left
            self.old.sized.sizing self.old.sized.store self.new.sized.sizing }
        ensures size { self.new.sized
            ≡ record self.old.sized { sizing = self.new.sized.sizing } }
        ensures none { EntersNone self.old self.new }
    {
        self.sized.note_left(left);
    }

    /// Notes that there may be something to do for the store's size.
    pub fn note_work(&mut self)
        ensures size { self.new.sized
            ≡ record self.old.sized { sizing = with_work self.old.sized.sizing } }
        ensures none { EntersNone self.old self.new }
    {
        self.sized.note_work();
    }

    /// Keeps memory for so many entries for good.
    pub fn keep(&mut self, entries: usize)
        ensures size { self.new.sized ≡ record self.old.sized {
          sizing = record self.old.sized.sizing {
            kept = max self.old.sized.sizing.kept entries;
          };
        } }
        ensures none { EntersNone self.old self.new }
    {
        self.sized.keep(entries);
    }

    /// Looks when the next entry is due, if there is one core, for the hint of the store.
    pub fn note_next(&mut self)
        ensures hint { NotesNext
            self.old.sized.store.cores self.old.sized.hint self.new.sized.hint }
        ensures size { (self.new.sized.store ≡ self.old.sized.store)
            × (self.new.sized.sizing ≡ self.old.sized.sizing) }
        ensures none { EntersNone self.old self.new }
    {
        self.sized.note_next();
    }

    /// Has others come at once, whatever is due: a value waits for its drop.
    pub fn call_others(&mut self)
        ensures size { self.new.sized ≡ record self.old.sized { hint = 0 } }
        ensures none { EntersNone self.old self.new }
    {
        self.sized.call_others();
    }
}

impl<T: Drop, J: Rooms, A: Allocator + Clone + Drop> Shard<T, J, A> {
    /// Takes a core out that has drained and isn't needed soon: it isn't the open one, and holds nothing, not even a
    /// value that waits for its drop. It may come back by [`Shard::take_back`].
    ///
    /// # Errors
    /// If the register of loans has too many holders. Nothing changes, and no call is entered.
    pub fn take_drained(
        &mut self,
        me: &mut Caller<T, J, A>,
    ) -> Result<Option<Drained<T, J, A>>, AllocError>
        requires { me.old.shard ≡ self.old.number }
        ensures once { IfOk result (λ r. MadeOnce me.old (λ s t. StoreGivesOut r s t) me.new) }
        ensures one_more { OnOk result (OneMore self.old me.old self.new) }
        ensures gives { IfOk result
            (λ r. StoreGivesOut r self.old.sized.store self.new.sized.store) }
        ensures shard { IfOk result
            (λ r. IfSome r (λ d. d.shard ≡ self.old.number)) }
        ensures refused { OnErr result ((self.new ≡ self.old) × (me.new ≡ me.old)) }
        ensures number { self.new.number ≡ self.old.number }
        ensures claims { self.new.claims ≡ self.old.claims }
    {
        let loan = self.loans.open()?;
        Ok(self.lend(me, loan))
    }

    // The same, with a loan for the core if one leaves.
    fn lend(
        &mut self,
        me: &mut Caller<T, J, A>,
        mut loan: Witness<DelayCore<T, Keeper<A>, A>, A>,
    ) -> Option<Drained<T, J, A>>
        requires number { me.old.shard ≡ self.old.number }
        requires table { loan.table ≡ J.loans self.old.number }
        requires unused { IsWithNumber loan.view × (loan.view.mine ≡ []) }
        ensures once { MadeOnce me.old (λ s t. StoreGivesOut result s t) me.new }
        ensures one_more { OneMore self.old me.old self.new }
        ensures gives { StoreGivesOut result self.old.sized.store self.new.sized.store }
        ensures shard { IfSome result (λ d. d.shard ≡ self.old.number) }
        ensures number { self.new.number ≡ self.old.number }
        ensures claims { self.new.claims ≡ self.old.claims }
    {
        let shard = self.number();
        self.sized.law();
        let answer = self.sized.take_needless();
        self.sized.law();
        self.history.enter_for(&mut me.history, &self.sized);
        match answer {
            None => None,
            Some(core) => {
                self.loans.enter_for(&mut loan, &core);
                Some(Drained {
                    core,
                    shard,
                    loan,
                    rooms: PhantomData,
                })
            }
        }
    }

    /// Takes a core back in that left. It is open from then on, or the one that was still is; it is where that one has
    /// no free slot. It takes memory for the list of cores alone.
    ///
    /// # Errors
    /// What left comes back, and nothing changes. In this order:
    /// - `UsedNumber` if an entry is known by an id of that number with a stamp that the core may give anew.
    /// - `StillLinked` if an entry is linked in the core.
    /// - `UsedNumber` if a core of the shard has its number, or it is the last one of all.
    /// - `NoMemory` if memory is refused.
    pub fn take_back(
        &mut self,
        me: &mut Caller<T, J, A>,
        drained: Drained<T, J, A>,
    ) -> Result<(), (TakeError, Drained<T, J, A>)>
        requires number { me.old.shard ≡ self.old.number }
        requires drained { drained.shard ≡ self.old.number }
        ensures once { MadeOnce me.old (λ s t. StoreTakesBack drained result s t) me.new }
        ensures one_more { OneMore self.old me.old self.new }
        ensures takes { StoreTakesBack drained result self.old.sized.store self.new.sized.store }
        ensures refused { StoreRefusesBack drained result self.old.sized.store }
        ensures back { IfErr result
            (λ e. (e.1.core ≡ drained.core) × (e.1.shard ≡ drained.shard)
            × (e.1.loan.number ≡ drained.loan.number)) }
        ensures number { self.new.number ≡ self.old.number }
        ensures claims { self.new.claims ≡ self.old.claims }
    {
        let Drained {
            core,
            shard,
            mut loan,
            rooms: _,
        } = drained;
        // The register has the core as one that is in from here on. If it is refused, it is entered once more.
        self.loans.enter_for(&mut loan, &core);
        self.sized.law();
        let answer = self.sized.bring(core);
        self.sized.law();
        self.history.enter_for(&mut me.history, &self.sized);
        match answer {
            Ok(()) => Ok(()),
            Err((error, back)) => {
                self.loans.enter_for(&mut loan, &back);
                Err((
                    error,
                    Drained {
                        core: back,
                        shard,
                        loan,
                        rooms: PhantomData,
                    },
                ))
            }
        }
    }
}
