//! What a keeper knows together with others: with one of its callers, with the receipt of a call by open words, and by
//! the rule of the words, with whoever cancelled.
ghost use Rattle.std.specs.Prelude.{◌≡◌};
ghost use Rattle.dq_words.specs.KeeperCalls.{AccountsAnyhow, CountsCancels};
ghost use Rattle.dq_words.specs.Places.{StoodApart, StoodWith};
ghost use Rattle.dq_words.specs.Together.{CancelsCover, EndsCover, IsBeside};

use crate::caller::Caller;
use crate::keeper::Keeper;
use crate::seated::{OpenWords, Receipt};
use dq_core::BesideWords;
use std::alloc::Allocator;

impl<A: Allocator> Keeper<A> {
    /// What this keeper and a caller of its words know together. It tells it by three loads, and nothing changes.
    pub fn beside(&mut self, caller: &mut Caller<A>)
        requires { self.old.table ≡ caller.old.table }
        // No extend of the caller is lost: what the keeper ended, it ended at no deadline before one that the caller
        // was promised.
        ensures kept { EndsCover self.old.view caller.old.view }

        // At one moment the rule of the words held with what both know.
        ensures stood { StoodWith self.old.view caller.old.view.calls }
        ensures same { (self.new ≡ self.old) × (caller.new ≡ caller.old) }
    {
        self.seat.beside(&mut caller.seat);
    }

    /// What this keeper and the receipt of a call by its open words know together. Nothing changes.
    pub fn beside_receipt(&mut self, receipt: &mut Receipt)
        requires { self.old.table ≡ receipt.old.table }
        // The call isn't lost: what the keeper ended, it ended at no deadline before the one that the call promised,
        // and it ended nothing that the call cancelled.
        ensures kept { EndsCover self.old.view receipt.old.view }

        // At one moment the rule of the words held with what the keeper knows, and the call was accepted.
        ensures stood { StoodWith self.old.view receipt.old.view.calls }
        ensures same { (self.new ≡ self.old) × (receipt.new ≡ receipt.old) }
    {
        self.seat.beside_receipt(receipt);
    }

    /// What is known of all accepted cancels of callers and passers, whoever is out: they are the cancelled words that
    /// the keeper overwrote by a begin, and those that are cancelled still. Once the keeper saw no word live, it knows
    /// their number by itself.
    #[tactic(auto, using(crate::proofs::Accounts::anyhow, crate::proofs::Accounts::counts_cancels))]
    pub fn account(&self)
        ensures anyhow { AccountsAnyhow self.now.view }
        ensures cancels { CountsCancels self.now.view }
    {
        self.law();
    }
}

impl<A: Allocator> OpenWords<A> {
    /// What the receipts of two calls by these words tell together, of whatever threads. One of them is used up, so
    /// that they aren't the same one.
    pub fn compare(&self, one: &mut Receipt, other: Receipt)
        requires one { one.old.table ≡ self.now.table }
        requires other { other.table ≡ self.now.table }
        // Where one of them cancelled, the other was promised no later deadline, and didn't cancel too.
        ensures cancelled { CancelsCover one.old.view other.view
            × CancelsCover other.view one.old.view }

        // At one moment of the rule the one's seat knew exactly this, and the other's call was that of another seat.
        ensures stood { StoodApart one.old.view other.view.calls }
        ensures same { one.new ≡ one.old }
    {
        self.tell(one, other);
    }
}

impl<A: Allocator> BesideWords<Caller<A>> for Keeper<A> {
    ghost sits = { λ k c. k.table ≡ c.table };

    ghost together = { IsBeside };

    fn beside(&mut self, caller: &mut Caller<A>) {
        Keeper::beside(self, caller);
    }
}

impl<A: Allocator> BesideWords<Receipt> for Keeper<A> {
    ghost sits = { λ k r. k.table ≡ r.table };

    ghost together = { IsBeside };

    fn beside(&mut self, receipt: &mut Receipt) {
        self.beside_receipt(receipt);
    }
}
