//! Writing the pattern of what an expression finds.
//!
//! An expression is searched for, and a pattern fits a whole text. So what may stand before and
//! after is written too, as `.*`, and an anchor is what keeps it away. Where alternatives in
//! parentheses at the edge of an expression have anchors, the `.*` goes into these parentheses.

ghost use Rattle.std.specs.Prelude.{◌≡◌, ◌++◌, ◌∷◌, [], Bool, true, false, OnOk};
ghost use Rattle.std.specs.Fmt.{decimal};
ghost use Rattle.posix_expression.specs.Trees.{expression_of};
ghost use Rattle.posix_expression.specs.Writing.{is_quoted as quoted_test, symbol_written};
ghost use Rattle.posix_expression.specs.Writing.{is_quoted_in_class as class_quoted_test};
ghost use Rattle.posix_expression.specs.Writing.{class_symbol_written, item_written, items_written};
ghost use Rattle.posix_expression.specs.Writing.{negation_written, class_written, count_written};
ghost use Rattle.posix_expression.specs.Writing.{repeated_written, any_if, written};
ghost use Rattle.posix_expression.specs.Writing.{symbols_written, alternatives_written};
ghost use Rattle.posix_expression.specs.Writing.{arguments_written, some_written, line_written};

use crate::shape::is_run;
use crate::tree::{Item, Repeats, Tree};
use std::alloc::AllocError;
use std::io::Write;

// Whether a pattern spells it with a `\`; `^` and `$` only so that nobody asks about them.
fn is_quoted(byte: u8) -> bool
    ensures { result ≡ quoted_test byte }
{
    b"|*+?.[()\\{}^$".contains(&byte)
}

fn is_quoted_in_class(byte: u8) -> bool
    ensures { result ≡ class_quoted_test byte }
{
    b"]\\-^".contains(&byte)
}

fn write_symbol(out: &mut Vec<u8>, byte: u8) -> Result<(), AllocError>
    ensures { OnOk result (out.new.items ≡ out.old.items ++ symbol_written byte) }
{
    if is_quoted(byte) {
        out.push(b'\\')?;
    }
    out.push(byte)?;
    Ok(())
}

fn write_symbols(out: &mut Vec<u8>, bytes: &[u8]) -> Result<(), AllocError>
    ensures { OnOk result (out.new.items ≡ out.old.items ++ symbols_written bytes.now) }
{
    'bytes: for byte in bytes {
        write_symbol(out, *byte)?;
    }
    Ok(())
}

fn write_class_symbol(out: &mut Vec<u8>, byte: u8) -> Result<(), AllocError>
    ensures { OnOk result (out.new.items ≡ out.old.items ++ class_symbol_written byte) }
{
    if is_quoted_in_class(byte) {
        out.push(b'\\')?;
    }
    out.push(byte)?;
    Ok(())
}

fn write_item(out: &mut Vec<u8>, item: Item) -> Result<(), AllocError>
    ensures { OnOk result (out.new.items ≡ out.old.items ++ item_written item) }
{
    match item {
        Item::One(byte) => write_class_symbol(out, byte),
        Item::Range(first, last) => {
            write_class_symbol(out, first)?;
            out.push(b'-')?;
            write_class_symbol(out, last)
        }
    }
}

fn write_items(out: &mut Vec<u8>, items: &[Item]) -> Result<(), AllocError>
    ensures { OnOk result (out.new.items ≡ out.old.items ++ items_written items.now) }
{
    'items: for item in items {
        write_item(out, *item)?;
    }
    Ok(())
}

fn write_negation(out: &mut Vec<u8>, is_negated: bool) -> Result<(), AllocError>
    ensures { OnOk result (out.new.items ≡ out.old.items ++ negation_written is_negated) }
{
    if is_negated {
        out.push(b'^')?;
    }
    Ok(())
}

fn write_class(
    out: &mut Vec<u8>,
    is_negated: bool,
    first: Item,
    others: &[Item],
) -> Result<(), AllocError>
    ensures { OnOk result
        (out.new.items ≡ out.old.items ++ class_written is_negated first others.now) }
{
    out.push(b'[')?;
    write_negation(out, is_negated)?;
    write_item(out, first)?;
    write_items(out, others)?;
    out.push(b']')?;
    Ok(())
}

fn write_number(out: &mut Vec<u8>, number: u8) -> Result<(), AllocError>
    ensures { OnOk result (out.new.items ≡ out.old.items ++ decimal number) }
{
    match write!(out, "{number}") {
        Ok(()) => Ok(()),
        Err(_) => Err(AllocError),
    }
}

fn write_count(out: &mut Vec<u8>, low: u8, high: u8) -> Result<(), AllocError>
    ensures { OnOk result (out.new.items ≡ out.old.items ++ count_written low high) }
{
    out.push(b'{')?;
    write_number(out, low)?;
    if low != high {
        out.push(b',')?;
        write_number(out, high)?;
    }
    out.push(b'}')?;
    Ok(())
}

// A `.*`, or nothing.
fn write_any(out: &mut Vec<u8>, is_written: bool) -> Result<(), AllocError>
    ensures { OnOk result (out.new.items ≡ out.old.items ++ any_if is_written) }
{
    if is_written {
        out.extend_from_slice(b".*")?;
    }
    Ok(())
}

impl Tree {
    // A part that is repeated.
    #[cycle(write)]
    fn write_repeated(&self, repeats: Repeats, out: &mut Vec<u8>) -> Result<(), AllocError>
        ensures { OnOk result (out.new.items ≡ out.old.items
            ++ repeated_written repeats (written false false (expression_of self.now))) }
    {
        if let Repeats::AtLeast(low) = repeats {
            out.push(b'(')?;
            self.write(false, false, out)?;
            write_count(out, low, low)?;
            self.write(false, false, out)?;
            return out.extend_from_slice(b"*)");
        }
        self.write(false, false, out)?;
        match repeats {
            Repeats::Any => out.extend_from_slice(b"*"),
            Repeats::More => out.extend_from_slice(b"+"),
            Repeats::Optional => out.extend_from_slice(b"?"),
            Repeats::Between(low, high) => write_count(out, low, high),
            Repeats::AtLeast(_) => Ok(()),
        }
    }

    // An expression, where something may stand before it, or after it.
    #[cycle(write)]
    fn write(&self, opens: bool, closes: bool, out: &mut Vec<u8>) -> Result<(), AllocError>
        ensures { OnOk result (out.new.items ≡ out.old.items
            ++ written opens closes (expression_of self.now)) }
    {
        match self {
            Tree::Blank => write_any(out, opens || closes),
            Tree::Symbol(byte) => {
                write_any(out, opens)?;
                write_symbol(out, *byte)?;
                write_any(out, closes)
            }
            Tree::Period => {
                write_any(out, opens)?;
                out.push(b'.')?;
                write_any(out, closes)
            }
            Tree::Bracketed(is_negated, first, others) => {
                write_any(out, opens)?;
                write_class(out, *is_negated, *first, others)?;
                write_any(out, closes)
            }
            Tree::Begin => write_any(out, closes),
            Tree::End => write_any(out, opens),
            Tree::Subexpression(inner) => {
                let begins = inner.has_begin();
                let ends = inner.has_end();
                write_any(out, opens && !begins)?;
                out.push(b'(')?;
                inner.write(opens && begins, closes && ends, out)?;
                out.push(b')')?;
                write_any(out, closes && !ends)
            }
            Tree::Duplicated(part, repeats) => {
                let is_run = is_run(part, *repeats);
                write_any(out, opens && !is_run)?;
                part.write_repeated(*repeats, out)?;
                write_any(out, closes && !is_run)
            }
            Tree::Concatenated(first, second) => {
                first.write(opens, false, out)?;
                second.write(false, closes, out)
            }
            Tree::Alternated(first, second) => {
                first.write(opens, closes, out)?;
                out.push(b'|')?;
                second.write(opens, closes, out)
            }
        }
    }

    // Alternatives in parentheses. Where they are anchored alike, what may stand at their edges is
    // written once.
    fn write_alternatives(
        &self,
        edges: Option<(bool, bool)>,
        out: &mut Vec<u8>,
    ) -> Result<(), AllocError>
        ensures { OnOk result (out.new.items ≡ out.old.items
            ++ alternatives_written edges (expression_of self.now)) }
    {
        match edges {
            None => {
                out.push(b'(')?;
                self.write(true, true, out)?;
                out.push(b')')?;
                Ok(())
            }
            Some(edges) => {
                write_any(out, !edges.0)?;
                out.push(b'(')?;
                self.write(false, false, out)?;
                out.push(b')')?;
                write_any(out, !edges.1)
            }
        }
    }

    fn write_some(&self, out: &mut Vec<u8>) -> Result<(), AllocError>
        ensures { OnOk result
            (out.new.items ≡ out.old.items ++ some_written (expression_of self.now)) }
    {
        match self {
            Tree::Alternated(..) => self.write_alternatives(self.edges(), out),
            Tree::Blank | Tree::Begin | Tree::End => self.write(true, true, out),
            Tree::Symbol(_) | Tree::Period | Tree::Bracketed(..) => self.write(true, true, out),
            Tree::Subexpression(_) | Tree::Duplicated(..) => self.write(true, true, out),
            Tree::Concatenated(..) => self.write(true, true, out),
        }
    }

    // What arguments have to fit.
    #[tactic(auto, unfolding(crate::specs::Writing::arguments_written))]
    fn write_arguments(&self, out: &mut Vec<u8>) -> Result<(), AllocError>
        ensures { OnOk result
            (out.new.items ≡ out.old.items ++ arguments_written (expression_of self.now)) }
    {
        if self.is_everything() {
            return out.extend_from_slice(b".*");
        }
        self.write_some(out)
    }

    /// What a line of the command has to fit: its name alone, or with arguments.
    #[tactic(auto, unfolding(crate::specs::Writing::line_written))]
    pub(crate) fn write_line(&self, name: &[u8], out: &mut Vec<u8>) -> Result<(), AllocError>
        ensures { OnOk result
            (out.new.items ≡ out.old.items ++ line_written name.now (expression_of self.now)) }
    {
        write_symbols(out, name)?;
        if self.is_optional() {
            out.extend_from_slice(b"( ")?;
            self.write_arguments(out)?;
            return out.extend_from_slice(b")?");
        }
        out.push(b' ')?;
        self.write_arguments(out)
    }
}
