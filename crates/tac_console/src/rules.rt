//! How reports of a policy's rules are printed.

ghost use Rattle.std.specs.Prelude.{◌≡◌, ◌++◌, IfOk, OnOk, OnErr};
ghost use Rattle.std.specs.List.{flat_map};
ghost use Rattle.tac_console.specs.Reports as reports;

use crate::adding::add;
use basics::Bytes;
use pol_meaning::{Reached, Shadowed};
use std::alloc::{AllocError, Global};
use std::io;
use std::io::Write;

fn write_shadowed(out: &mut Vec<u8>, row: &Shadowed) -> io::Result<()>
    ensures { OnOk result (out.new.items ≡ out.old.items ++ reports.shadowed_line row.now) }
{
    let Shadowed {
        subject,
        owner,
        number,
    } = *row;
    write!(out, "shadowed in {subject}")?;
    writeln!(out, ": {owner} rule {number}")?;
    Ok(())
}

/// Adds the rules that decide nothing, a line each, or `none`.
pub(crate) fn write_rows(out: &mut Vec<u8>, rows: &[Shadowed]) -> io::Result<()>
    ensures { OnOk result (out.new.items ≡ out.old.items ++ reports.shadows_text rows.now) }
{
    if rows.is_empty() {
        return writeln!(out, "none");
    }
    'rows: for row in rows {
        write_shadowed(out, row)?;
    }
    Ok(())
}

fn shadows_text(alloc: Global, rows: &[Shadowed]) -> io::Result<Vec<u8>>
    ensures { IfOk result (λ text. text.items ≡ reports.shadows_text rows.now) }
{
    let mut text = Vec::new(alloc);
    write_rows(&mut text, rows)?;
    Ok(text)
}

fn write_reach_end(out: &mut Vec<u8>, text: &Option<Bytes>) -> io::Result<()>
    ensures { OnOk result (out.new.items ≡ out.old.items ++ reports.reach_end text.now) }
{
    let Some(text) = text else {
        write!(out, " never reached")?;
        return Ok(());
    };
    write!(out, " first reached by: ")?;
    out.extend_from_slice(text.as_slice())?;
    Ok(())
}

fn write_reached(out: &mut Vec<u8>, row: &Reached) -> io::Result<()>
    ensures { OnOk result (out.new.items ≡ out.old.items ++ reports.reached_line row.now) }
{
    let Reached {
        owner,
        number,
        text,
    } = row;
    write!(out, "{owner} rule {number}")?;
    write_reach_end(out, text)?;
    out.push(b'\n')?;
    Ok(())
}

/// Adds the rules along a chain, a line each, or `none`.
pub(crate) fn write_reach(out: &mut Vec<u8>, rows: &[Reached]) -> io::Result<()>
    ensures { OnOk result (out.new.items ≡ out.old.items ++ reports.reach_text rows.now) }
{
    if rows.is_empty() {
        return writeln!(out, "none");
    }
    'rows: for row in rows {
        write_reached(out, row)?;
    }
    Ok(())
}

/// Adds the rules that decide nothing, a line each, or `none`. The error means that memory ran out;
/// nothing is added then. Linear in what is added.
pub fn write_shadows(alloc: Global, out: &mut Vec<u8>, rows: &[Shadowed]) -> Result<(), AllocError>
    ensures ok { OnOk result (out.new.items ≡ out.old.items ++ reports.shadows_text rows.now) }
    ensures err { OnErr result (out.new.items ≡ out.old.items) }
{
    add(out, shadows_text(alloc, rows))
}
