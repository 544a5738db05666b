//! The words as any thread steps on them: each call by a seat of its own, which its load makes.
ghost use Rattle.std.specs.Prelude.{◌≡◌, ◌<◌, ◌≤◌, length, true, false, slice_index, IfOk};
ghost use Rattle.dq_ticks.specs.Word.{word, stamp_of, mark_of};
ghost use Rattle.dq_words.specs.OpenCalls.{SawPresent};
ghost use Rattle.dq_words.specs.Plays.{CallerLoads, CancelStep, ExtendStep};
ghost use Rattle.dq_words.specs.Rule.{passer};

use crate::seated::Seated;
use crate::seated::plays::{Pass, PassCancel, PassExtend};
use crate::seated::rule::{WordSeat, WordTable};
use std::alloc::{AllocError, Allocator, Global};
use std::marker::Model;
use std::sync::Arc;

/// A keeper's words, by which any thread extends and cancels entries, and looks at them, with no caller.
///
/// ```
/// use hontkhale::owner::{CoreConfig, DelayCore, Keeper, Look, Turn};
/// use std::thread;
///
/// let mut keeper = Keeper::new(1_000).unwrap();
/// let words = keeper.open().unwrap();
/// let mut queue = DelayCore::new(CoreConfig::of(1_000), keeper).unwrap();
/// let key = queue.insert_or_drop("lease", 100)?;
/// thread::scope(|scope| {
///     scope.spawn(|| assert_eq!(words.extend(&key, 250), Ok(250)));
/// });
/// assert_eq!(words.look(&key), Ok(Look::StillLive(250)));
/// assert!(matches!(queue.poll(249)?, Turn::Waiting { .. }));
/// assert!(matches!(queue.poll(250)?, Turn::Out(expired) if expired.value == "lease"));
/// # Ok::<(), hontkhale::owner::CoreError>(())
/// ```
///
/// Each call takes `&self`, makes one load and at most one atomic step, waits for nobody and takes no memory. Nothing
/// is issued, counted or given back for it. The words may outlive their queue: the entries that were live when the
/// queue was dropped are then refused as `Ended`, and a look shows them as removed.
#[derive(Drop)]
pub struct OpenWords<A: Allocator = Global> {
    pub(super) table: Arc<WordTable<A>, A>,
    pub(super) rows: usize,
}

impl<A: Allocator> Model for OpenWords<A> {
    ghost use Rattle.std.specs.Prelude.{◌≡◌, ◌+◌};
    ghost use Rattle.std.specs.Arc.{arc_value};
    ghost use Rattle.dq_words.specs.OpenCalls.{Open};

    ghost Value = { Open };

    ghost view = { λ s. record { table = (arc_value s.table).shared.table_id; rows = s.rows } };

    ghost invariant = { λ s. ((arc_value s.table).shared.key ≡ s.rows)
        × ((arc_value s.table).shared.table_id.words ≡ s.rows + 1) };
}

/// The seat by which one call stepped on open words, accepted or refused. It has no bytes. Whoever has it knows what
/// the word was then, and can show the keeper what was accepted.
#[derive(Drop)]
pub struct Receipt {
    pub(crate) seat: WordSeat,
}

impl Model for Receipt {
    ghost use Rattle.std.specs.Prelude.{◌≡◌, false};
    ghost use Rattle.dq_words.specs.Seats.{Sat};

    ghost Value = { Sat };

    ghost view = { λ s. record { table = s.seat.table_id; view = s.seat.me.0.view } };

    ghost invariant = { λ s. (s.seat.me.0.carries ≡ false) × (s.seat.me.0.spent ≡ false) };
}

impl<A: Allocator> Seated<A> {
    // The words of the table, for any thread.
    pub(crate) fn open(&mut self) -> Result<OpenWords<A>, AllocError>
        requires keeper { self.old.view.keeps ≡ true }
        ensures same_table { IfOk result (λ w. w.table ≡ self.old.table) }
        ensures rows { IfOk result (λ w. w.rows ≡ length self.old.view.seen) }
        ensures unchanged { self.new ≡ self.old }
    {
        let table = Arc::try_clone(&self.table)?;
        Ok(OpenWords {
            table,
            rows: self.rows,
        })
    }
}

impl<A: Allocator> OpenWords<A> {
    pub(crate) fn rows(&self) -> usize
        ensures { result ≡ self.now.rows }
    {
        self.rows
    }

    // The load that makes a seat for one call.
    pub(crate) fn pass(&self, index: usize) -> (u64, Receipt)
        requires { index < self.now.rows }
        ensures step { CallerLoads (passer self.now.rows) result.1.view index result.0 }
        ensures row { length result.1.view.seen ≡ self.now.rows }
        ensures now { SawPresent result.1.view index }
        ensures table { result.1.table ≡ self.now.table }
    {
        let (found, seat) = self.table.shared.load_new_seat::<Pass>(index);
        (found, Receipt { seat })
    }

    // The fetch_max of a live word, which raises a live deadline of its stamp.
    pub(crate) fn pass_extend(&self, passer: &mut Receipt, index: usize, new: u64) -> u64
        requires table { passer.old.table ≡ self.now.table }
        requires inside { index < self.now.rows }
        requires row { length passer.old.view.seen ≡ self.now.rows }
        requires caller { (passer.old.view.keeps ≡ false) × (passer.old.view.gone ≡ false) }
        requires new { (0 < stamp_of new) × (mark_of new ≡ 0) }
        requires given { stamp_of new ≤ stamp_of (slice_index passer.old.view.seen index) }
        ensures step { ExtendStep passer.old.view passer.new.view index new result }
        ensures row { length passer.new.view.seen ≡ self.now.rows }
        ensures now { SawPresent passer.new.view index }
        ensures table { passer.new.table ≡ passer.old.table }
    {
        let found = self
            .table
            .shared
            .fetch_max::<PassExtend>(&mut passer.seat, index, new);
        found
    }

    // The fetch_max of a cancelled word, which ends a live word of its stamp. No step on the return word counts it.
    pub(crate) fn pass_cancel(&self, passer: &mut Receipt, index: usize, new: u64) -> u64
        requires table { passer.old.table ≡ self.now.table }
        requires inside { index < self.now.rows }
        requires row { length passer.old.view.seen ≡ self.now.rows }
        requires caller { (passer.old.view.keeps ≡ false) × (passer.old.view.gone ≡ false) }
        requires new { (0 < stamp_of new) × (new ≡ word (stamp_of new) 1 0) }
        requires given { stamp_of new ≤ stamp_of (slice_index passer.old.view.seen index) }
        ensures step { CancelStep passer.old.view passer.new.view index new result }
        ensures row { length passer.new.view.seen ≡ self.now.rows }
        ensures now { SawPresent passer.new.view index }
        ensures table { passer.new.table ≡ passer.old.table }
    {
        let found = self
            .table
            .shared
            .fetch_max::<PassCancel>(&mut passer.seat, index, new);
        found
    }
}
