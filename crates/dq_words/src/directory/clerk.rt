//! Who adds things.
ghost use Rattle.std.specs.Prelude.{◌≡◌, ◌+◌, ◌<◌, IfOk, IfErr, OnOk};
ghost use Rattle.dq_words.specs.Claims.{IsOf};
ghost use Rattle.dq_words.specs.Claims.{why_refused};

use crate::directory::{Claim, Directory};
use std::alloc::{AllocError, Allocator, Global};
use std::marker::Model;
use thiserror::Error;

/// Why a thing isn't added.
#[derive(Clone, Copy, Debug, PartialEq, Eq, Error)]
pub enum AddError {
    /// Each number was given.
    #[error("the directory is full: {most} numbers were given")]
    Full {
        /// How many numbers the directory gives.
        most: u32,
    },
    /// Memory was refused.
    #[error("out of memory")]
    NoMemory,
}

/// Adds things to a directory of its own. A directory has one clerk.
#[derive(Drop)]
pub struct Clerk<X, A: Allocator = Global> {
    directory: Directory<X, A>,
    alloc: A,
    given: u32,
    most: u32,
}

impl<X, A: Allocator> Model for Clerk<X, A> {
    ghost use Rattle.std.specs.Prelude.{◌≤◌};
    ghost use Rattle.dq_words.specs.Claims.{Desk};

    ghost Value = { Desk };

    ghost view = { λ c. record { rows = c.directory; given = c.given; most = c.most } };

    ghost invariant = { λ c. c.given ≤ c.most };
}

impl<X: Drop, A: Allocator + Clone> Clerk<X, A> {
    /// The clerk of a new directory, with nothing in it, that gives the numbers 0 to `most` - 1.
    ///
    /// # Errors
    /// If memory is refused.
    pub fn new(alloc: A, most: u32) -> Result<Clerk<X, A>, AllocError>
        ensures empty { IfOk result (λ c. c.given ≡ 0) }
        ensures most { IfOk result (λ c. c.most ≡ most) }
    {
        let directory = Directory::new(alloc.clone()?)?;
        Ok(Clerk {
            directory,
            alloc,
            given: 0,
            most,
        })
    }

    /// Adds a thing under the next number, and claims it. If it is refused, nothing changes, and the thing comes back.
    ///
    /// # Errors
    /// - `Full` if each number was given.
    /// - `NoMemory` if memory is refused.
    pub fn add(&mut self, thing: X) -> Result<Claim<X, A>, (AddError, X)>
        ensures next { IfOk result (λ c. c.number ≡ self.old.given) }
        ensures claim { IfOk result (λ c. IsOf self.old.rows c × (c.thing ≡ thing)) }
        ensures one_more { OnOk result (self.new.given ≡ self.old.given + 1) }
        ensures room { OnOk result (self.old.given < self.old.most) }
        ensures why { IfErr result (λ e. e.0 ≡ why_refused self.old) }
        ensures back { IfErr result (λ e. e.1 ≡ thing) }
        ensures refused { IfErr result (λ _. self.new ≡ self.old) }
        ensures same { (self.new.rows ≡ self.old.rows) × (self.new.most ≡ self.old.most) }
    {
        let (number, most) = (self.given, self.most);
        if number == most {
            return Err((AddError::Full { most }, thing));
        }
        if self.directory.make_row(&self.alloc, number).is_err() {
            return Err((AddError::NoMemory, thing));
        }
        match self.directory.put(number, thing) {
            Ok(claim) => {
                self.given += 1;
                Ok(claim)
            }
            Err(thing) => Err((AddError::NoMemory, thing)),
        }
    }
}

impl<X, A: Allocator> Clerk<X, A> {
    /// The directory.
    pub fn directory(&self) -> &Directory<X, A>
        ensures { result.now ≡ self.now.rows }
    {
        &self.directory
    }

    /// How many numbers were given.
    pub fn given(&self) -> u32
        ensures { result ≡ self.now.given }
    {
        self.given
    }
}
