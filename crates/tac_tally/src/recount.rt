//! Marks that are worked out anew, as after a change of the policy.

ghost use Rattle.std.specs.Prelude.{◌≡◌, ◌<◌, Bool, true, ℕ, List, length, IfOk};
ghost use Rattle.std.specs.List.{All};
ghost use Rattle.tac_tally.specs.Book.{items};
ghost use Rattle.tac_tally.specs.Accounts.{ArePlaces};
ghost use Rattle.tac_tally.specs.Recount.{Computes, is_one_of, recount_of, settled, remarked};
ghost use Rattle.tac_tally.specs.Recount.{marked, marks_at, spread, with_marks};

use crate::book::Book;
use basics::Bytes;
use std::alloc::{AllocError, Global};
use std::marker::Model;

// A record's mark, worked out anew.
#[derive(Clone, Copy)]
struct Mark {
    // where the record stands in the book
    place: usize,
    denied: bool,
}

/// The marks of some users' records, worked out anew: for each record of the book its mark, or
/// nothing where its user is another. Only the marks themselves are kept.
#[derive(Drop)]
pub struct Recount {
    // how many records the book has
    size: usize,
    marks: Vec<Mark>,
}

impl Model for Recount {
    ghost use Rattle.std.specs.Prelude.{◌<◌, Bool, List, Option};
    ghost use Rattle.std.specs.List.{All};
    ghost use Rattle.tac_tally.specs.Recount.{spread};

    ghost Value = { List (Option Bool) };

    ghost view = { λ recount. spread recount.size recount.marks.items };

    ghost invariant = { λ recount. All (λ mark. mark.place < recount.size) recount.marks.items };
}

// Puts the marks in, one after another.
fn put_marks(book: &mut Book, marks: &[Mark])
    requires { All (λ mark. mark.place < length book.old.entries) marks.now }
    ensures { book.new ≡ record book.old { entries = with_marks marks.now book.old.entries } }
{
    'marks: for mark in marks {
        book.put_mark(mark.place, mark.denied);
    }
}

impl Book {
    // Where the records of these users stand. A look-up for each user.
    fn places_of(&self, alloc: Global, users: &[Bytes]) -> Result<Vec<usize>, AllocError>
        ensures { IfOk result (λ places. ArePlaces
            (λ entry. is_one_of users.now entry.item.user) self.now.entries places.items) }
    {
        let mut places = Vec::new(alloc);
        'users: for user in users {
            let Some(account) = self.accounts.get(user.as_slice()) else {
                continue;
            };
            places.extend_from_slice(account.places.as_slice())?;
        }
        Ok(places)
    }

    // Where any record stands.
    fn all_places(&self, alloc: Global) -> Result<Vec<usize>, AllocError>
        ensures { IfOk result
            (λ places. ArePlaces (λ entry. true) self.now.entries places.items) }
    {
        let mut places = Vec::new(alloc);
        'places: for place in 0..self.records.len() {
            places.push(place)?;
        }
        Ok(places)
    }

    // Works out anew the marks of the records at these places.
    fn recount_at<F: FnMut(&[u8], &[u8]) -> Result<bool, AllocError>>(
        &self,
        alloc: Global,
        places: &[usize],
        mut decide: F,
    ) -> Result<Recount, AllocError>
        requires callable { F.IsAlwaysCallable decide }
        requires places { All (λ place. place < length self.now.entries) places.now }
        ensures size { IfOk result (λ recount. length recount ≡ length self.now.entries) }
        ensures marks { IfOk result (λ recount. (denies : List ℕ → List ℕ → Bool)
            → Computes F.FnMut denies decide → recount ≡ spread (length self.now.entries)
            (marks_at denies (items self.now.entries) places.now)) }
    {
        let mut marks = Vec::new(alloc);
        'places: for place in places {
            let record = &self.records[*place];
            let denied = match &record.line {
                Some(line) => decide(record.user.as_slice(), line.as_slice())?,
                None => false,
            };
            marks.push(Mark {
                place: *place,
                denied,
            })?;
        }
        Ok(Recount {
            size: self.records.len(),
            marks,
        })
    }

    /// Works out anew, by `decide` of user and line, the marks of the records of these users:
    /// whether the line is denied. A record without a line isn't denied, and `decide` isn't asked
    /// of it.
    /// The book stays as it is; the error means that memory ran out, here or in `decide`.
    /// One look-up for each user, and then these users' records alone.
    pub fn recount<F: FnMut(&[u8], &[u8]) -> Result<bool, AllocError>>(
        &self,
        alloc: Global,
        users: &[Bytes],
        decide: F,
    ) -> Result<Recount, AllocError>
        requires { F.IsAlwaysCallable decide }
        // For the present records, as `settle` requires.
        ensures size { IfOk result (λ recount. length recount ≡ length self.now.entries) }

        // Whatever `decide` is known to compute, the marks say.
        ensures marks { IfOk result (λ recount. (denies : List ℕ → List ℕ → Bool)
            → Computes F.FnMut denies decide
            → recount ≡ recount_of denies users.now (items self.now.entries)) }

        // What becomes of the book once the marks are put in.
        ensures settles { IfOk result (λ recount. (denies : List ℕ → List ℕ → Bool)
            → Computes F.FnMut denies decide
            → settled recount self.now.entries ≡ remarked denies users.now self.now.entries) }
    {
        let places = self.places_of(alloc, users)?;
        self.recount_at(alloc, places.as_slice(), decide)
    }

    /// Works out anew the marks of all records, as `recount` does for some users.
    /// One pass over all records.
    pub fn recount_all<F: FnMut(&[u8], &[u8]) -> Result<bool, AllocError>>(
        &self,
        alloc: Global,
        decide: F,
    ) -> Result<Recount, AllocError>
        requires { F.IsAlwaysCallable decide }
        // For the present records, as `settle` requires.
        ensures size { IfOk result (λ recount. length recount ≡ length self.now.entries) }

        // Whatever `decide` is known to compute, all marks say once they are put in.
        ensures settles { IfOk result (λ recount. (denies : List ℕ → List ℕ → Bool)
            → Computes F.FnMut denies decide
            → settled recount self.now.entries ≡ marked denies (items self.now.entries)) }
    {
        let places = self.all_places(alloc)?;
        self.recount_at(alloc, places.as_slice(), decide)
    }

    /// Puts the marks in that were worked out anew, and leaves those of other users. The recount
    /// must be of the records that the book now has. Takes no memory. One look-up for each of the
    /// recount's marks.
    pub fn settle(&mut self, recount: Recount)
        requires { length recount ≡ length self.old.entries }
        ensures { self.new ≡ record self.old { entries = settled recount self.old.entries } }
    {
        put_marks(self, recount.marks.as_slice());
    }
}
