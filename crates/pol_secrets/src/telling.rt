//! How it is told what became of secrets.

ghost use Rattle.std.specs.Prelude.{◌≡◌, ◌++◌, OnOk};
ghost use Rattle.pol_secrets.specs.Telling as specified;

use crate::secret_change::{Alteration, SecretChange};
use std::alloc::AllocError;
use std::io;
use std::io::Write;

fn alteration_word(alteration: Alteration) -> &'static str
    ensures { result.now ≡ specified.alteration_word alteration }
{
    match alteration {
        Alteration::Set => "set",
        Alteration::Changed => "changed",
        Alteration::Cleared => "cleared",
    }
}

fn write_secret_change(out: &mut Vec<u8>, change: &SecretChange) -> io::Result<()>
    ensures { OnOk result
        (out.new.items ≡ out.old.items ++ specified.secret_change_line change.now) }
{
    let user = change.user;
    let credential = change.credential.keyword();
    let became = alteration_word(change.alteration);
    writeln!(out, "user {user} {credential}{became}")
}

fn write_all(out: &mut Vec<u8>, changes: &[SecretChange]) -> io::Result<()>
    ensures { OnOk result (out.new.items ≡ out.old.items ++ specified.secret_lines changes.now) }
{
    'changes: for change in changes {
        write_secret_change(out, change)?;
    }
    Ok(())
}

/// Adds a line for each secret that was set, changed or cleared: whose it is, which one, and which
/// of the three. The error means that memory ran out. Linear in what is added.
pub fn write_secret_changes(out: &mut Vec<u8>, changes: &[SecretChange]) -> Result<(), AllocError>
    ensures { OnOk result (out.new.items ≡ out.old.items ++ specified.secret_lines changes.now) }
{
    match write_all(out, changes) {
        Ok(()) => Ok(()),
        Err(_) => Err(AllocError),
    }
}
