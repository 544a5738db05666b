//! A seat at a table of words.
//!
//! This module alone can name the table, and it has one function for each kind of step, which makes that step's atomic
//! operation once. So the keeper and its callers reach the words by these steps and by nothing else.
ghost use Rattle.std.specs.Prelude.{◌≡◌, ◌+◌, ◌*◌, ◌<◌, ◌≤◌, length, true, false, slice_index};
ghost use Rattle.std.specs.Prelude.{IfOk, IfErr};
ghost use Rattle.dq_ticks.specs.declared.TheConstants.{CAPACITY_LIMIT, LAST_STAMP, LAST_TICK};
ghost use Rattle.dq_ticks.specs.Word.{word, stamp_of, mark_of, field_of};
ghost use Rattle.dq_words.specs.declared.keeper.TheConstants.{HANDLE_LIMIT};
ghost use Rattle.dq_words.specs.Counts.{most_begins, cancels_in};
ghost use Rattle.dq_words.specs.Keeping.{IsFree, Knew};
ghost use Rattle.dq_words.specs.Plays.{settling, renewing, finishing, issuing, newcomer};
ghost use Rattle.dq_words.specs.Plays.{giving_back, CallerLoads, KeeperLoads, ReturnLoads};
ghost use Rattle.dq_words.specs.Plays.{BeginStep, ExchangeStep, ExtendStep, CancelStep, SeatGoesOn};
ghost use Rattle.dq_words.specs.Rule.{first_keeper};

mod beside;
mod gone;
mod open;
mod plays;
mod rule;

use crate::seated::plays::{
    Begin, CallerLoad, Cancel, Extend, Finish, GiveBack, Issue, KeeperLoad, Renew, ReturnLoad,
    Settle,
};
use crate::seated::rule::{WordSeat, WordTable};
use atomic_table::Table;
use dq_ticks::{Mark, Parts, pack};
pub use gone::Gone;
pub use open::{OpenWords, Receipt};
use std::alloc::{AllocError, Allocator};
use std::marker::Model;
use std::sync::Arc;

// What one cancel adds to the return word. What is below it counts the callers that are gone.
pub(crate) const ONE_CANCEL: u64 = 2048;

pub(crate) fn live_word(stamp: u32, field: u64) -> u64
    requires stamp { stamp ≤ LAST_STAMP }
    requires field { field ≤ LAST_TICK }
    ensures { result ≡ word stamp 0 field }
{
    pack(Parts {
        stamp,
        mark: Mark::LiveMark,
        field,
    })
}

pub(crate) fn cancelled_word(stamp: u32) -> u64
    requires { stamp ≤ LAST_STAMP }
    ensures { result ≡ word stamp 1 0 }
{
    pack(Parts {
        stamp,
        mark: Mark::CancelledMark,
        field: 0,
    })
}

pub(crate) fn expired_word(stamp: u32, field: u64) -> u64
    requires stamp { stamp ≤ LAST_STAMP }
    requires field { field ≤ LAST_TICK }
    ensures { result ≡ word stamp 2 field }
{
    pack(Parts {
        stamp,
        mark: Mark::ExpiredMark,
        field,
    })
}

pub(crate) fn removed_word(stamp: u32, field: u64) -> u64
    requires stamp { stamp ≤ LAST_STAMP }
    requires field { field ≤ LAST_TICK }
    ensures { result ≡ word stamp 3 field }
{
    pack(Parts {
        stamp,
        mark: Mark::RemovedMark,
        field,
    })
}

#[derive(Drop)]
pub(crate) struct Seated<A: Allocator> {
    table: Arc<WordTable<A>, A>,
    seat: WordSeat,
    rows: usize,
}

impl<A: Allocator> Model for Seated<A> {
    ghost use Rattle.std.specs.Prelude.{◌≡◌, false};
    ghost use Rattle.std.specs.Arc.{arc_value};
    ghost use Rattle.dq_words.specs.Keeping.{Knew};
    ghost use Rattle.dq_words.specs.Plays.{FitsTable};
    ghost use Rattle.dq_words.specs.Seats.{Sat};

    ghost Value = { Sat };

    ghost view = { λ s. record { table = s.seat.table_id; view = s.seat.me.0.view } };

    ghost invariant = { λ s. FitsTable s.seat.table_id
        (arc_value s.table).shared.table_id (arc_value s.table).shared.key s.rows s.seat.me.0.view
        × Knew s.seat.me.0.view × (s.seat.me.0.carries ≡ false) };
}

impl<A: Allocator + Clone> Seated<A> {
    // The keeper's seat at a new table.
    pub(crate) fn at_new_table(alloc: A, rows: usize) -> Result<Seated<A>, AllocError>
        requires { rows ≤ CAPACITY_LIMIT }
        ensures { IfOk result (λ s. s.view ≡ first_keeper rows) }
    {
        let heap = alloc.clone()?;
        let words = vec![in &heap; 0u64; rows + 1]?;
        let (table, seat) = Table::of_words(alloc, words.as_slice(), &rows)?;
        drop(words);
        match Arc::new(heap, table) {
            Ok(table) => Ok(Seated { table, seat, rows }),
            Err(_) => Err(AllocError),
        }
    }
}

impl<A: Allocator> Seated<A> {
    pub(crate) fn law(&self)
        ensures { Knew self.now.view }
    {
        let _ = &self.rows;
    }

    pub(crate) fn rows(&self) -> usize
        ensures { result ≡ length self.now.view.seen }
    {
        self.rows
    }

    // The number itself, once a word was read, for the step that will be made at that word soon. The load has an
    // ordering, so it stays where nobody uses what it finds.
    #[inline(always)]
    pub(crate) fn once_read(&self, index: usize, number: u64) -> u64
        ensures { result ≡ number }
    {
        if index < self.rows {
            let _found = self.table.shared.peek(index);
        }
        number
    }

    pub(crate) fn keeper_load(&mut self, index: usize) -> u64
        requires inside { index < length self.old.view.seen }
        requires keeper { self.old.view.keeps ≡ true }
        ensures step { KeeperLoads self.old.view self.new.view index result }
        ensures table { self.new.table ≡ self.old.table }
        ensures seat { SeatGoesOn self.old.view self.new.view }
    {
        let found = self.table.shared.load::<KeeperLoad>(&mut self.seat, index);
        found
    }

    pub(crate) fn begin(&mut self, index: usize, new: u64)
        requires inside { index < length self.old.view.seen }
        requires keeper { self.old.view.keeps ≡ true }
        requires free { IsFree (slice_index self.old.view.seen index) }
        requires next { stamp_of new ≡ stamp_of (slice_index self.old.view.seen index) + 1 }
        requires live { mark_of new ≡ 0 }
        ensures step { BeginStep self.old.view self.new.view index new }
        ensures table { self.new.table ≡ self.old.table }
        ensures seat { SeatGoesOn self.old.view self.new.view }
    {
        self.table.shared.store::<Begin>(&mut self.seat, index, new);
    }

    pub(crate) fn settle(&mut self, index: usize, old: u64, new: u64) -> u64
        requires inside { index < length self.old.view.seen }
        requires keeper { self.old.view.keeps ≡ true }
        requires old { (0 < stamp_of old) × (mark_of old ≡ 0) }
        requires same { (stamp_of new ≡ stamp_of old) × (field_of new ≡ field_of old) }
        requires expired { mark_of new ≡ 2 }
        ensures step { ExchangeStep settling self.old.view self.new.view index old new result }
        ensures table { self.new.table ≡ self.old.table }
        ensures seat { SeatGoesOn self.old.view self.new.view }
    {
        let found = self
            .table
            .shared
            .compare_exchange::<Settle>(&mut self.seat, index, old, new);
        found
    }

    pub(crate) fn renew(&mut self, index: usize, old: u64, new: u64) -> u64
        requires inside { index < length self.old.view.seen }
        requires keeper { self.old.view.keeps ≡ true }
        requires old { (0 < stamp_of old) × (mark_of old ≡ 0) }
        requires new { (stamp_of new ≡ stamp_of old + 1) × (mark_of new ≡ 0) }
        ensures step { ExchangeStep renewing self.old.view self.new.view index old new result }
        ensures table { self.new.table ≡ self.old.table }
        ensures seat { SeatGoesOn self.old.view self.new.view }
    {
        let found = self
            .table
            .shared
            .compare_exchange::<Renew>(&mut self.seat, index, old, new);
        found
    }

    pub(crate) fn finish(&mut self, index: usize, old: u64, new: u64) -> u64
        requires inside { index < length self.old.view.seen }
        requires keeper { self.old.view.keeps ≡ true }
        requires old { (0 < stamp_of old) × (mark_of old ≡ 0) }
        requires same { (stamp_of new ≡ stamp_of old) × (field_of new ≡ field_of old) }
        requires removed { mark_of new ≡ 3 }
        ensures step { ExchangeStep finishing self.old.view self.new.view index old new result }
        ensures table { self.new.table ≡ self.old.table }
        ensures seat { SeatGoesOn self.old.view self.new.view }
    {
        let found = self
            .table
            .shared
            .compare_exchange::<Finish>(&mut self.seat, index, old, new);
        found
    }

    // One seat more at the same table, for a caller.
    pub(crate) fn issue(&mut self) -> Result<Seated<A>, AllocError>
        requires keeper { self.old.view.keeps ≡ true }
        requires few { self.old.view.issued < HANDLE_LIMIT }
        ensures newcomer { IfOk result (λ c. c.view ≡ newcomer self.old.view) }
        ensures same_table { IfOk result (λ c. c.table ≡ self.old.table) }
        ensures issued { IfOk result (λ _. self.new.view ≡ issuing self.old.view) }
        ensures refused { IfErr result (λ _. self.new.view ≡ self.old.view) }
        ensures table { self.new.table ≡ self.old.table }
    {
        let table = Arc::try_clone(&self.table)?;
        let seat = self.table.shared.split_seat::<Issue>(&mut self.seat);
        Ok(Seated {
            table,
            seat,
            rows: self.rows,
        })
    }

    // The keeper's load of the return word.
    pub(crate) fn return_load(&mut self) -> u64
        requires keeper { self.old.view.keeps ≡ true }
        ensures step { ReturnLoads self.old.view self.new.view result }
        ensures table { self.new.table ≡ self.old.table }
        ensures seat { SeatGoesOn self.old.view self.new.view }
    {
        let found = self
            .table
            .shared
            .load::<ReturnLoad>(&mut self.seat, self.rows);
        found
    }

    pub(crate) fn caller_load(&mut self, index: usize) -> u64
        requires inside { index < length self.old.view.seen }
        requires caller { (self.old.view.keeps ≡ false) × (self.old.view.gone ≡ false) }
        ensures step { CallerLoads self.old.view self.new.view index result }
        ensures table { self.new.table ≡ self.old.table }
        ensures seat { SeatGoesOn self.old.view self.new.view }
    {
        let found = self.table.shared.load::<CallerLoad>(&mut self.seat, index);
        found
    }

    // The fetch_max of a live word, which raises a live deadline of its stamp.
    pub(crate) fn extend(&mut self, index: usize, new: u64) -> u64
        requires inside { index < length self.old.view.seen }
        requires caller { (self.old.view.keeps ≡ false) × (self.old.view.gone ≡ false) }
        requires new { (0 < stamp_of new) × (mark_of new ≡ 0) }
        requires given { stamp_of new ≤ stamp_of (slice_index self.old.view.seen index) }
        ensures step { ExtendStep self.old.view self.new.view index new result }
        ensures table { self.new.table ≡ self.old.table }
        ensures seat { SeatGoesOn self.old.view self.new.view }
    {
        let found = self
            .table
            .shared
            .fetch_max::<Extend>(&mut self.seat, index, new);
        found
    }

    // The fetch_max of a cancelled word, which ends a live word of its stamp.
    pub(crate) fn cancel(&mut self, index: usize, new: u64) -> u64
        requires inside { index < length self.old.view.seen }
        requires caller { (self.old.view.keeps ≡ false) × (self.old.view.gone ≡ false) }
        requires new { (0 < stamp_of new) × (new ≡ word (stamp_of new) 1 0) }
        requires given { stamp_of new ≤ stamp_of (slice_index self.old.view.seen index) }
        ensures step { CancelStep self.old.view self.new.view index new result }
        ensures table { self.new.table ≡ self.old.table }
        ensures seat { SeatGoesOn self.old.view self.new.view }
    {
        let found = self
            .table
            .shared
            .fetch_max::<Cancel>(&mut self.seat, index, new);
        found
    }

    // The step on the return word that counts the caller as gone, and its cancels with it.
    pub(crate) fn give_back(&mut self, cancels: u64)
        requires caller { (self.old.view.keeps ≡ false) × (self.old.view.gone ≡ false) }
        requires issued { self.old.view.passes ≡ false }
        requires cancels { cancels ≡ cancels_in self.old.view.calls }
        requires few { cancels ≤ most_begins }
        ensures step { self.new.view ≡ giving_back self.old.view }
        ensures table { self.new.table ≡ self.old.table }
    {
        self.table
            .shared
            .fetch_add::<GiveBack>(&mut self.seat, self.rows, 1 + ONE_CANCEL * cancels);
    }
}
