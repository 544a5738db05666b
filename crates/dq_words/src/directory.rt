//! A directory of what is made later. A [`Clerk`] adds a thing, and gets a number for it. Whoever has the [`Directory`]
//! finds the thing by its number, from any thread and without a lock, for as long as the directory lasts: a thing stays
//! where it was put, and no number is given twice.
//!
//! A [`Claim`] is for contracts: it says that a number is of a thing. Two claims of one number are of one thing,
//! whoever found them, and whenever.
ghost use Rattle.std.specs.Prelude.{◌≡◌, ◌+◌, ◌^◌, ◌<◌, ◌∷◌, [], IfSome, IfOk, IfErr, vec_len, ⊤};
ghost use Rattle.dq_words.specs.DirectoryRows.{StandsAt, AreNumbered, first};
ghost use Rattle.dq_words.specs.Claims.{IsOf};

mod clerk;

use boxcar::slot::{OnceSlot, SlotRule, Written};
use boxcar::tag::{Names, Tag};
pub use clerk::{AddError, Clerk};
use std::alloc::{AllocError, Allocator, Global};
use std::marker::Model;
use std::sync::Arc;

/// How many numbers a directory can give: they are 0 to `MOST` - 1.
pub const MOST: u32 = u32::MAX;

const ROWS: usize = 32;

/// A thing may be any of its type.
pub struct AnyThing;

impl<X> SlotRule<X> for AnyThing {
    ghost holds = { λ _ _. ⊤ };
}

// A row has as many places as its number says.
pub struct Doubled;

impl<X, A: Allocator> SlotRule<Vec<OnceSlot<X, AnyThing>, A>> for Doubled {
    ghost holds = { λ tag places. vec_len places ≡ 2 ^ first tag };
}

type Place<X> = OnceSlot<X, AnyThing>;

type Row<X, A> = OnceSlot<Vec<Place<X>, A>, Doubled>;

struct Itself;

impl Names<usize> for Itself {
    ghost numbers = { λ n. n ∷ [] };
}

// The rows, none of which has its places yet.
fn no_places<X: Drop, A: Allocator>(alloc: A) -> Result<Vec<Row<X, A>, A>, AllocError>
    ensures { IfOk result (λ v. AreNumbered 32 v.items) }
{
    let mut rows = Vec::with_capacity(alloc, ROWS)?;
    let mut row = 0;
    while row < ROWS {
        rows.push_reserved(OnceSlot::new(&Tag::of::<usize, Itself>(&row)));
        row += 1;
    }
    Ok(rows)
}

// So many places, at which nothing stands.
fn places<X: Drop, A: Allocator>(alloc: A, count: usize) -> Result<Vec<Place<X>, A>, AllocError>
    ensures { IfOk result (λ v. vec_len v ≡ count) }
{
    let mut places = Vec::with_capacity(alloc, count)?;
    let mut made = 0;
    while made < count {
        places.push_reserved(OnceSlot::new(&Tag::empty()));
        made += 1;
    }
    Ok(places)
}

fn len_of(row: usize) -> usize
    requires { row < 32 }
    ensures { result ≡ 2 ^ row }
{
    1 << row
}

// The row and the place of a number.
fn locate(number: u32) -> (usize, usize)
    requires { number < 4294967295 }
    ensures { StandsAt number result.0 result.1 }
{
    let above = number as usize + 1;
    let row = above.ilog2() as usize;
    (row, above - len_of(row))
}

/// Things by their numbers. Whoever shares it has the same things.
#[derive(Drop)]
pub struct Directory<X, A: Allocator = Global> {
    rows: Arc<Vec<Row<X, A>, A>, A>,
}

impl<X, A: Allocator> Model for Directory<X, A> {
    ghost use Rattle.std.specs.Prelude.{List};
    ghost use Rattle.std.specs.Arc.{arc_value};
    ghost use Rattle.boxcar.specs.Slot.{Named};
    ghost use Rattle.dq_words.specs.DirectoryRows.{AreNumbered};

    ghost Value = { List Named };

    ghost view = { λ d. (arc_value d.rows).items };

    ghost invariant = { λ d. AreNumbered 32 (arc_value d.rows).items };
}

/// That a number is of a thing.
#[derive(Drop)]
pub struct Claim<X, A: Allocator = Global> {
    number: u32,
    row: Written<Vec<Place<X>, A>>,
    place: Written<X>,
}

impl<X, A: Allocator> Model for Claim<X, A> {
    ghost use Rattle.std.specs.Prelude.{◌≡◌, ℕ, ◌<◌};
    ghost use Rattle.dq_words.specs.DirectoryRows.{StandsAt, name_at};
    ghost use Rattle.dq_words.specs.Claims.{Claimed};

    ghost Value = { Claimed X };

    ghost view = { λ c. record { number = c.number; thing = c.place.value; row = c.row.of } };

    ghost invariant = { λ c. (c.number < 4294967295) × ((k j : ℕ) → StandsAt c.number k j → c.place.of ≡ name_at c.row.value.items j) };
}

impl<X: Drop, A: Allocator + Clone> Directory<X, A> {
    // A directory with nothing in it.
    pub(crate) fn new(alloc: A) -> Result<Directory<X, A>, AllocError> {
        let heap = alloc.clone()?;
        let rows = no_places(alloc)?;
        match Arc::new(heap, rows) {
            Ok(rows) => Ok(Directory { rows }),
            Err(_) => Err(AllocError),
        }
    }

    // Makes the places of the number's row, unless they are there.
    pub(crate) fn make_row(&self, alloc: &A, number: u32) -> Result<(), AllocError>
        requires { number < 4294967295 }
    {
        let (row, _) = locate(number);
        if self.rows[row].get().is_none() {
            let places = places(alloc.clone()?, len_of(row))?;
            drop(self.rows[row].set_written(places));
        }
        Ok(())
    }
}

impl<X, A: Allocator> Directory<X, A> {
    // Puts a thing where its number stands. It comes back where something stands there, or the row has no places.
    pub(crate) fn put(&self, number: u32, thing: X) -> Result<Claim<X, A>, X>
        requires { number < 4294967295 }
        ensures claim { IfOk result (λ c. IsOf self.now c × (c.number ≡ number) × (c.thing ≡ thing)) }
        ensures back { IfErr result (λ x. x ≡ thing) }
    {
        let (at, place) = locate(number);
        let Some(row) = self.rows[at].witness() else {
            return Err(thing);
        };
        match self.rows[at].value(&row)[place].set_written(thing) {
            Ok(place) => Ok(Claim { number, row, place }),
            Err(thing) => Err(thing),
        }
    }

    /// The thing of a number, and the claim of it. `None` if nothing was added under that number yet. It takes no lock
    /// and no memory.
    pub fn get(&self, number: u32) -> Option<(&X, Claim<X, A>)>
        ensures of { IfSome result (λ r. IsOf self.now r.1) }
        ensures number { IfSome result (λ r. r.1.number ≡ number) }
        ensures thing { IfSome result (λ r. r.0.now ≡ r.1.thing) }
    {
        if number == MOST {
            return None;
        }
        let (at, place) = locate(number);
        let row = self.rows[at].witness()?;
        let spot = &self.rows[at].value(&row)[place];
        let place = spot.witness()?;
        Some((spot.value(&place), Claim { number, row, place }))
    }

    /// The thing that a claim is of. It is there from the moment at which it was added.
    pub fn thing<'a>(&'a self, claim: &Claim<X, A>) -> &'a X
        requires { IsOf self.now claim.now }
        ensures { result.now ≡ claim.now.thing }
    {
        let (at, place) = locate(claim.number);
        self.rows[at].value(&claim.row)[place].value(&claim.place)
    }

    /// Two claims of one number are of one thing.
    pub fn agree(&self, one: &Claim<X, A>, other: &Claim<X, A>)
        requires one { IsOf self.now one.now }
        requires other { IsOf self.now other.now }
        requires number { one.now.number ≡ other.now.number }
        ensures { one.now.thing ≡ other.now.thing }
    {
        let _ = locate(one.number);
        one.row.agrees(&other.row);
        one.place.agrees(&other.place);
    }

    /// The same directory, for another thread.
    pub fn share(&self) -> Result<Directory<X, A>, AllocError>
        ensures { IfOk result (λ d. d ≡ self.now) }
    {
        Ok(Directory {
            rows: Arc::try_clone(&self.rows)?,
        })
    }
}

impl<X, A: Allocator> Claim<X, A> {
    /// The number.
    pub fn number(&self) -> u32
        ensures { result ≡ self.now.number }
    {
        self.number
    }

    /// The same claim, for another thread.
    pub fn again(&self) -> Claim<X, A>
        ensures { result ≡ self.now }
    {
        Claim {
            number: self.number,
            row: self.row.again(),
            place: self.place.again(),
        }
    }
}
