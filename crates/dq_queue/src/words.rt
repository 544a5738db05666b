//! The words of each core by the core's number, on which any thread steps by `&self` and without a lock.
ghost use Rattle.std.specs.Prelude.{◌≡◌, ◌≢◌, ◌≤◌, ℕ, true, false, IfErr, IfOk};
ghost use Rattle.dq_words.specs.Claims.{Claimed, IsOf};
ghost use Rattle.dq_ticks.specs.declared.TheConstants.{LAST_TICK};
ghost use Rattle.dq_words.specs.OpenCalls.{Open, ShowsCancel, ShowsExtend, ShowsLook};
ghost use Rattle.dq_words.specs.Together.{CancelsCover};
ghost use Rattle.dq_queue.specs.Claims.{AgreeWith, AreClaimsOf, HasClaim};
ghost use Rattle.dq_queue.specs.Words.{IsPromise, QueueExtendRefused, QueueCancelRefused, QueueLookRefused};

use crate::shard::Rooms;
use dq_core::{CallError, Look};
use dq_ticks::{Key, LAST_TICK};
use dq_words::directory::{Claim, Directory};
use dq_words::{OpenWords, Receipt};
use std::alloc::{AllocError, Allocator, Global};
use std::marker::{Model, PhantomData};

/// The words of a queue's cores, by the cores' numbers. Whoever shares them has the same ones.
#[derive(Drop)]
pub struct QueueWords<J: Rooms, A: Allocator = Global> {
    directory: Directory<OpenWords<A>, A>,
    rooms: PhantomData<J>,
}

impl<J: Rooms, A: Allocator> Model for QueueWords<J, A> {
    ghost use Rattle.std.specs.Prelude.{◌≡◌, List};
    ghost use Rattle.boxcar.specs.Slot.{Named};

    ghost Value = { List Named };

    ghost view = { λ w. w.directory };

    ghost invariant = { λ w. w.directory ≡ J.rows };
}

/// What shows a call by a queue's words: the receipt of the call, and that the words are those of the number.
#[derive(Drop)]
pub struct Promise<J: Rooms, A: Allocator = Global> {
    pub(crate) receipt: Receipt,
    pub(crate) claim: Claim<OpenWords<A>, A>,
    rooms: PhantomData<J>,
}

impl<J: Rooms, A: Allocator> Model for Promise<J, A> {
    ghost use Rattle.dq_queue.specs.Words.{PromiseView, IsPromiseOf};

    ghost Value = { PromiseView };

    ghost view = { λ p. record { receipt = p.receipt; claim = p.claim } };

    ghost invariant = { λ p.
        IsPromiseOf J.rows (record { receipt = p.receipt; claim = p.claim }) };
}

impl<J: Rooms, A: Allocator> Promise<J, A> {
    /// Returns the number of the core on whose words the call was made.
    pub fn number(&self) -> u32
        ensures { result ≡ self.now.claim.number }
    {
        self.claim.number()
    }
}

impl<J: Rooms, A: Allocator> QueueWords<J, A> {
    /// The words of the directory that is named.
    pub fn of(directory: Directory<OpenWords<A>, A>) -> QueueWords<J, A>
        requires { directory ≡ J.rows }
        ensures { result ≡ J.rows }
    {
        QueueWords {
            directory,
            rooms: PhantomData,
        }
    }

    /// They are those of the directory that is named. The call does nothing, and is for proofs.
    pub fn law(&self)
        ensures { self.now ≡ J.rows }
    {
        let _ = &self.directory;
    }

    /// The same words, for another thread.
    ///
    /// # Errors
    /// If the directory has too many holders.
    pub fn share(&self) -> Result<QueueWords<J, A>, AllocError>
        ensures { IfOk result (λ w. w ≡ self.now) }
    {
        Ok(QueueWords {
            directory: self.directory.share()?,
            rooms: PhantomData,
        })
    }

    /// Raises the deadline of a live entry to `when`, a tick of one millisecond, and returns the deadline that is then
    /// in force: `when`, or a later one that the entry had. No deadline gets sooner by it. It takes constant time, no
    /// lock and no memory.
    ///
    /// # Errors
    /// In this order:
    /// - `TooFar` if `when` is beyond the last tick.
    /// - `Unknown` if no core has the key's number, or no slot has the key.
    /// - `Stale` if the slot has a later stamp: the entry was reset, or the slot has another entry.
    /// - `Ended` if the entry came out, was removed or moved away, or was cancelled. It tells which.
    pub fn extend(
        &self,
        key: &Key,
        when: u64,
    ) -> Result<(u64, Promise<J, A>), (CallError, Option<Promise<J, A>>)>
        // Accepted: the words of the key's core show it, with the word live at the answer.
        ensures accepted { IfOk result (λ r. (when ≤ r.0) × (r.0 ≤ LAST_TICK)) }
        ensures of { IfOk result (λ r. IsPromise J.rows key.now r.1) }
        ensures shows { IfOk result
            (λ r. ShowsExtend r.1.claim.thing key.now when r.0 r.1.receipt) }

        // Refused: exactly by the deadline, by the key, or by the word that the receipt shows.
        ensures refused { IfErr result (λ e. QueueExtendRefused J.rows key.now when e.0 e.1) }
    {
        if when > LAST_TICK {
            return Err((CallError::TooFar { limit: LAST_TICK }, None));
        }
        let Some((words, claim)) = self.directory.get(key.entry().shard()) else {
            return Err((CallError::Unknown, None));
        };
        match words.extend(key, when) {
            Ok((deadline, receipt)) => Ok((
                deadline,
                Promise {
                    receipt,
                    claim,
                    rooms: PhantomData,
                },
            )),
            Err((error, Some(receipt))) => Err((
                error,
                Some(Promise {
                    receipt,
                    claim,
                    rooms: PhantomData,
                }),
            )),
            Err((error, None)) => Err((error, None)),
        }
    }

    /// Cancels a live entry, so that it won't come out, and returns the deadline that it gave up, a tick of one
    /// millisecond. The entry keeps its slot and its value until the queue frees it. It takes constant time, no lock
    /// and no memory.
    ///
    /// # Errors
    /// In this order:
    /// - `Unknown` if no core has the key's number, or no slot has the key.
    /// - `Stale` if the slot has a later stamp: the entry was reset, or the slot has another entry.
    /// - `Ended` if the entry came out, was removed or moved away, or was cancelled. It tells which.
    pub fn cancel(
        &self,
        key: &Key,
    ) -> Result<(u64, Promise<J, A>), (CallError, Option<Promise<J, A>>)>
        // Accepted: the words of the key's core show it, with the word cancelled.
        ensures accepted { IfOk result (λ r. r.0 ≤ LAST_TICK) }
        ensures of { IfOk result (λ r. IsPromise J.rows key.now r.1) }
        ensures shows { IfOk result (λ r. ShowsCancel r.1.claim.thing key.now r.0 r.1.receipt) }

        // Refused: exactly by the key, or by the word that the receipt shows.
        ensures refused { IfErr result (λ e. QueueCancelRefused J.rows key.now e.0 e.1) }
    {
        let Some((words, claim)) = self.directory.get(key.entry().shard()) else {
            return Err((CallError::Unknown, None));
        };
        match words.cancel(key) {
            Ok((given_up, receipt)) => Ok((
                given_up,
                Promise {
                    receipt,
                    claim,
                    rooms: PhantomData,
                },
            )),
            Err((error, Some(receipt))) => Err((
                error,
                Some(Promise {
                    receipt,
                    claim,
                    rooms: PhantomData,
                }),
            )),
            Err((error, None)) => Err((error, None)),
        }
    }

    /// Returns what the entry of `key` is: live, with its deadline, or how it ended. It takes constant time, no lock
    /// and no memory.
    ///
    /// # Errors
    /// In this order:
    /// - `Unknown` if no core has the key's number, or no slot has the key.
    /// - `Stale` if the slot has a later stamp: the entry was reset, or the slot has another entry.
    pub fn look(
        &self,
        key: &Key,
    ) -> Result<(Look, Promise<J, A>), (CallError, Option<Promise<J, A>>)>
        // Shown: a load of the words of the key's core saw it.
        ensures of { IfOk result (λ r. IsPromise J.rows key.now r.1) }
        ensures shows { IfOk result (λ r. ShowsLook r.1.claim.thing key.now r.0 r.1.receipt) }

        // Refused: exactly by the key, or by the word that the receipt shows, and not where it has ended.
        ensures refused { IfErr result (λ e. QueueLookRefused J.rows key.now e.0 e.1) }
    {
        let Some((words, claim)) = self.directory.get(key.entry().shard()) else {
            return Err((CallError::Unknown, None));
        };
        match words.look(key) {
            Ok((shown, receipt)) => Ok((
                shown,
                Promise {
                    receipt,
                    claim,
                    rooms: PhantomData,
                },
            )),
            Err((error, Some(receipt))) => Err((
                error,
                Some(Promise {
                    receipt,
                    claim,
                    rooms: PhantomData,
                }),
            )),
            Err((error, None)) => Err((error, None)),
        }
    }

    /// What two calls on the words of one core tell together, of whatever threads. One of them is used up, so that they
    /// aren't the same one.
    pub fn compare(&self, one: &mut Promise<J, A>, other: Promise<J, A>)
        requires number { one.old.claim.number ≡ other.claim.number }
        // Where one of them cancelled, the other was promised no later deadline, and didn't cancel too.
        ensures cancelled { CancelsCover one.old.receipt.view other.receipt.view
            × CancelsCover other.receipt.view one.old.receipt.view }
        ensures same { one.new ≡ one.old }
    {
        self.directory.agree(&one.claim, &other.claim);
        let words = self.directory.thing(&one.claim);
        let Promise {
            receipt,
            claim: _,
            rooms: _,
        } = other;
        words.compare(&mut one.receipt, receipt);
    }

    // Whether two claims have one number. They are of the same words then.
    fn is_of(&self, one: &Claim<OpenWords<A>, A>, other: &Claim<OpenWords<A>, A>) -> bool
        requires one { IsOf J.rows one.now }
        requires other { IsOf J.rows other.now }
        ensures same { result ≡ true → (one.now.number ≡ other.now.number)
            × (one.now.thing ≡ other.now.thing) }
        ensures apart { result ≡ false → one.now.number ≢ other.now.number }
    {
        if one.number() != other.number() {
            return false;
        }
        self.directory.agree(one, other);
        true
    }

    // Whether one of these claims has the number of another. Each that has it is of the same words.
    pub(crate) fn knows(
        &self,
        claims: &[Claim<OpenWords<A>, A>],
        claim: &Claim<OpenWords<A>, A>,
    ) -> bool
        requires all { AreClaimsOf J.rows claims.now }
        requires one { IsOf J.rows claim.now }
        ensures agree { AgreeWith claims.now claim.now }
        ensures has { result ≡ true → HasClaim claims.now claim.now.number }
        ensures none { result ≡ false → ¬ HasClaim claims.now claim.now.number }
    {
        let mut has = false;
        for at in 0..claims.len() {
            let is = self.is_of(&claims[at], claim);
            has = has | is;
        }
        has
    }
}
