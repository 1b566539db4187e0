//! The marks of records under a policy that is to come.

ghost use Rattle.std.specs.Prelude.{◌≡◌, length, IfOk};
ghost use Rattle.pol_meaning.specs.LineChanges.{AreLineChanges};
ghost use Rattle.tac_tally.specs.Book.{Contents};
ghost use Rattle.tac_tally.specs.Recount.{settled};
ghost use Rattle.tac_desk.specs.Reporting as reporting;
ghost use Rattle.tac_desks.specs.Kept.{entries_by};
ghost use Rattle.tac_desks.specs.Metered.{HasMarksBy, names};

use basics::{Bytes, Sequence};
use pol_live::Prepared;
use pol_meaning::Changed;
use pol_names::{Name, Verdict};
use std::alloc::{AllocError, Global};
use tac_tally::{Book, Recount};

// Whether the policy that is to come denies this line to this user.
fn denies(prepared: &Prepared, name: &[u8], line: &[u8]) -> bool
    ensures { result ≡ reporting.denies prepared.now.after name.now line.now }
{
    let Some(user) = Name::read(name) else {
        return true;
    };
    match prepared.decide(&user, line) {
        Some(decision) => decision.verdict == Verdict::Deny,
        None => true,
    }
}

// The users for whom something changes.
fn users_of(alloc: Global, changes: &[Changed]) -> Result<Sequence<Bytes>, AllocError>
    ensures { IfOk result (λ users. users ≡ names changes.now) }
{
    let mut users = Sequence::new(alloc);
    for change in changes {
        let user = Bytes::from_slice(alloc, change.user.as_slice())?;
        users.push(user)?;
    }
    Ok(users)
}

/// Works out anew whether the policy that is to come denies the lines of the users for whom
/// something changes. What the book says of all others stays right.
pub(crate) fn recount_changed(
    alloc: Global,
    prepared: &Prepared,
    changes: &[Changed],
    book: &Book,
) -> Result<Recount, AllocError>
    requires changes { AreLineChanges prepared.now.before prepared.now.after changes.now }
    requires marks { HasMarksBy prepared.now.before book.now }
    ensures size { IfOk result (λ recount. length recount ≡ length book.now.entries) }
    ensures marks { IfOk result (λ recount.
        settled recount book.now.entries ≡ entries_by prepared.now.after book.now) }
{
    let users = users_of(alloc, changes)?;
    let recount = book.recount(alloc, users.as_slice(), |user, line| {
        Ok(denies(prepared, user, line))
    })?;
    Ok(recount)
}
