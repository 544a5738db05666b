//! A poll in pieces, for an owner who can't wait for a whole one.
//!
//! A poll that comes to the start of a full slot takes a step for each of its entries. Here the slot is opened as it
//! is, in constant time, and its entries are gone through one by one. A call makes at most so many of these steps,
//! and leaves the queue lawful behind each.
//!
//! Most entries of a slot are due later than at its start, which a look at the word tells. Where words are shared a
//! look is a plain load and a step that may end an entry is a fence, which takes longer than all else: so the look
//! comes first there.

ghost use Rattle.std.specs.Prelude.{◌≡◌, ℕ, ◌+◌, ◌<◌, ◌≤◌, ◌↔◌, max, length, Some, IfOk, IfSome, None, IsErr, OnErr, OnOk};
ghost use Rattle.dq_core.specs.Deferring.{answered_at, given_at, DefersValues};
ghost use Rattle.dq_core.specs.AtTheCall.{IfOut, IfRests};
ghost use Rattle.dq_core.specs.Calls.{SameCore};
ghost use Rattle.dq_core.specs.Core.{machine};
ghost use Rattle.dq_core.specs.Machine.{NoneLinked, NoneLiveBefore};
ghost use Rattle.dq_core.specs.Pieces.{IfAnswer, IfDue, IsPieceBy, LooksOn, PollsSome, SettlesByLook};
ghost use Rattle.dq_core.specs.Words.{StillBegun};
ghost use Rattle.dq_wheel.specs.State.{filed_at};

use crate::errors::CoreError;
use crate::outcomes::{Pace, Piece, Progress, Turn};
use crate::queue::{DelayCore, filing_tick};
use crate::words::Words;
use dq_ticks::{LAST_TICK, Mark};
use std::alloc::Allocator;

impl<T, W: Words, A: Allocator> DelayCore<T, W, A> {
    /// Does of a poll at most `most` steps, each in constant time. No value is dropped: that of each cancelled entry
    /// which it reaps waits until it is taken out. Over shared words an entry that is due may take two of these steps.
    ///
    /// # Errors
    /// TickTooLarge beyond the last tick, which is not noted then.
    #[inline(always)]
    pub fn poll_some_deferring(&mut self, tick: u64, most: u32) -> Result<Piece<T>, CoreError>
        // The greater of the two ticks is noted. A tick is refused, and nothing changes, exactly
        // beyond the last one.
        ensures noted { OnOk result (self.new.noted ≡ max self.old.noted tick) }
        ensures refused { IsErr result ↔ (LAST_TICK < tick) }
        ensures kept { OnErr result (self.new ≡ self.old) }

        // An answer is one of poll: what comes out is due, and no live entry has an earlier deadline.
        ensures out { IfAnswer result (λ turn. IfOut turn
            (λ x. (x.deadline ≤ self.new.noted) × NoneLiveBefore (machine self.new) x.deadline)) }

        // Else no live entry is due, and the tick to wait for is after the noted one. There is none
        // exactly where nothing is linked.
        ensures waiting { IfAnswer result (λ turn. IfRests turn
            (λ next. NoneLiveBefore (machine self.new) (self.new.noted + 1))) }
        ensures ahead { IfAnswer result (λ turn. IfRests turn
            (λ next. IfSome next (λ tick. self.new.noted < tick))) }
        ensures idle { IfAnswer result (λ turn. IfRests turn
            (λ next. (next ≡ None) ↔ NoneLinked (machine self.new))) }

        // The value of each entry that left is deferred, but of what came out.
        ensures deferred { IfOk result
            (λ piece. DefersValues self.old (answered_at piece) self.new) }

        // It makes at most `most` steps over the words.
        ensures few_steps { W.steps self.new.words ≤ W.steps self.old.words + most }

        ensures same { SameCore self.old self.new }
        ensures origin { W.origin self.new.words ≡ W.origin self.old.words }

        // Exactly: a run of the queue machine to an answer of poll, or so many steps fewer; the wheel
        // makes at most `most` steps.
        ensures polls { PollsSome W.shared self.old tick most result self.new }
        ensures begun { StillBegun W.begun self.old.words self.new.words }
    {
        if tick > LAST_TICK {
            return Err(CoreError::TickTooLarge { limit: LAST_TICK });
        }
        self.note(tick);
        let mut made = 0;
        while made < most {
            let (progress, steps) = self.look_then_step(most - made);
            made += steps;
            match progress {
                Progress::Gave(expired) => return Ok(Piece::Answer(Turn::Out(expired))),
                Progress::Went => {}
                Progress::Rests => {
                    return match self.next_wake() {
                        Some(next) => Ok(Piece::Answer(Turn::Waiting { next })),
                        None => Ok(Piece::Answer(Turn::Idle)),
                    };
                }
            }
        }
        Ok(Piece::Working)
    }

    // A step of a poll in pieces, and how many steps over the words are made by it: two where a look comes first that
    // doesn't settle what is due, and as many as there are looks where they settle one due index after the other. They
    // come first while a slot is open and two are left. Any other index that is due was filed at just that tick, so a
    // look would mostly be made for nothing.
    #[inline(always)]
    fn look_then_step(&mut self, left: u32) -> (Progress<T>, u32)
        requires { 0 < left }
        ensures same { SameCore self.old self.new }
        ensures origin { W.origin self.new.words ≡ W.origin self.old.words }
        ensures begun { StillBegun W.begun self.old.words self.new.words }
        ensures noted { self.new.noted ≡ self.old.noted }
        ensures some { 0 < result.1 }
        ensures few { result.1 ≤ left }
        ensures few_steps { W.steps self.new.words ≤ W.steps self.old.words + result.1 }
        ensures piece { IsPieceBy W.shared self.old result.1 result.0 self.new }
        ensures deferred { DefersValues self.old (given_at result.0) self.new }
    {
        if W::FENCED && 2 <= left {
            if let Some(index) = self.wheel.first_open() {
                let (is_settled, next) = self.settle_by_look(index);
                if is_settled {
                    let more = self.settle_more(next, left - 1);
                    return (Progress::Went, 1 + more);
                }
                return (self.step(Pace::InPieces), 2);
            }
        }
        (self.step(Pace::InPieces), 1)
    }

    // Goes from one due index to the next by looks at their words, as long as each settles its own: how many looks it
    // makes. To read what follows from the index at hand, and not from the list's head, takes half the time: each
    // step writes the head's link, and a step that begins there would wait for what the last one wrote.
    #[inline(always)]
    fn settle_more(&mut self, from: Option<usize>, most: u32) -> u32
        requires due { IfDue self.old.wheel.filing from }
        ensures same { SameCore self.old self.new }
        ensures origin { W.origin self.new.words ≡ W.origin self.old.words }
        ensures begun { StillBegun W.begun self.old.words self.new.words }
        ensures noted { self.new.noted ≡ self.old.noted }
        ensures few { result ≤ most }
        ensures few_steps { W.steps self.new.words ≤ W.steps self.old.words + result }
        ensures looks { LooksOn W.shared self.old result self.new }
        ensures deferred { DefersValues self.old None self.new }
    {
        let mut made = 0;
        let mut next = from;
        while made < most {
            let Some(index) = next else {
                return made;
            };
            let (is_settled, after) = self.settle_by_look(index);
            made += 1;
            if !is_settled {
                return made;
            }
            next = after;
        }
        made
    }

    // Looks at the word of a due index, and settles it where the look tells all: an entry that is live at a later tick
    // is filed again, and a cancelled one is reaped. One that is live at the tick is left, since a caller may extend it
    // until a step of its word ends it. Returns whether it settled it, and the index that is due next.
    #[inline(always)]
    fn settle_by_look(&mut self, index: usize) -> (bool, Option<usize>)
        requires index_in { index < length self.old.wheel.filing.filed }
        requires due { filed_at self.old.wheel.filing.filed index
            ≡ Some self.old.wheel.filing.tick }
        ensures same { SameCore self.old self.new }
        ensures origin { W.origin self.new.words ≡ W.origin self.old.words }
        ensures begun { StillBegun W.begun self.old.words self.new.words }
        ensures one_step { W.steps self.new.words ≤ W.steps self.old.words + 1 }
        ensures noted { self.new.noted ≡ self.old.noted }
        ensures settles { SettlesByLook W.shared self.old result.0 self.new }
        ensures deferred { DefersValues self.old None self.new }
        ensures next { IfDue self.new.wheel.filing result.1 }
    {
        let word = self.words.look(index);
        let next = self.wheel.next_due(index);
        let Mark::LiveMark = word.mark else {
            self.wheel.unlink(index);
            self.slots.defer(index);
            return (true, next);
        };
        let tick = self.wheel.tick();
        if word.field <= tick {
            return (false, next);
        }
        self.wheel.unlink(index);
        self.wheel.link(index, filing_tick(tick, word.field));
        (true, next)
    }
}
