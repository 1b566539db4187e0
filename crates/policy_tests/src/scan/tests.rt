//! Tables, limits and least words, against answers that were worked out by hand.
use crate::scan::remainders::{Numerals, Remainders};
use pol_scan::{Alphabet, SYMBOLS, ScanFault, Table, scan};
use std::alloc::{AllocError, Global};
use std::test::Fail;

// A machine of this base and divisor that accepts the target.
fn machine(base: u8, divisor: u32, target: u32) -> Option<Remainders> {
    if divisor == 0 {
        return None;
    }
    Some(Remainders {
        numerals: Numerals { base, divisor },
        target,
        steps: 0,
    })
}

// A word in digits; `-` is the empty one.
fn digits(alloc: Global, word: &[u8]) -> Result<String, AllocError> {
    if word.is_empty() {
        return format!(in alloc; "-");
    }
    let mut text = String::new(alloc);
    for digit in word {
        let shown = format!(in alloc; "{digit}")?;
        text.push_str(shown.as_str())?;
    }
    Ok(text)
}

// A line for each state: its word, and the states to which it leads.
fn shown(alloc: Global, table: &Table) -> Result<String, AllocError> {
    let mut text = String::new(alloc);
    for state in 0..table.states() {
        let word = digits(alloc, &table.word_of(alloc, state)?)?;
        text.push_str(word.as_str())?;
        for column in 0..table.width() {
            let next = format!(in alloc; " {}", table.next(state, column))?;
            text.push_str(next.as_str())?;
        }
        text.push_str("\n")?;
    }
    Ok(text)
}

// The table of a machine of this base and divisor.
fn table_of(alloc: Global, base: u8, divisor: u32) -> Result<String, Fail> {
    let mut machine = machine(base, divisor, 0).ok_or("no machine")?;
    let automaton = scan(alloc, &mut machine, 4).ok().ok_or("refused")?;
    Ok(shown(alloc, &automaton.table)?)
}

#[test]
fn tables(rt: HostRuntime) -> Result<(), Fail> {
    for (base, divisor, expected) in [
        (2, 3, "- 0 1\n1 2 0\n10 1 2\n"),
        (3, 4, "- 0 1 2\n1 3 0 1\n2 2 3 0\n10 1 2 3\n"),
        (2, 1, "- 0 0\n"),
        (1, 5, "- 0\n"),
        (0, 5, "-\n"),
    ] {
        let table = table_of(rt.alloc(), base, divisor)?;
        assert!(rt; table.as_str() == expected, "{table}");
    }
    Ok(())
}

// How many states were found within the limit, if there are no more, and the steps that it took.
fn found(alloc: Global, base: u8, divisor: u32, limit: u16) -> Result<Option<(u16, u64)>, Fail> {
    let mut machine = machine(base, divisor, 0).ok_or("no machine")?;
    match scan(alloc, &mut machine, limit) {
        Ok(automaton) => Ok(Some((automaton.table.states(), machine.steps))),
        Err(ScanFault::TooMany) => Ok(None),
        Err(ScanFault::Memory) => Err("no memory".into()),
    }
}

// Each state is stepped from once for each column, and the first state too many ends it.
#[test]
fn limits(rt: HostRuntime) -> Result<(), Fail> {
    for (base, divisor, limit, expected) in [
        (2, 3, 3, Some((3, 6))),
        (2, 3, 2, None),
        (2, 3, 0, None),
        (0, 7, 1, Some((1, 0))),
        (0, 7, 0, None),
        (95, 1000, 1000, Some((1000, 95_000))),
        (95, 1000, 999, None),
        (95, 4096, 4096, Some((4096, 389_120))),
        (95, 4097, 4096, None),
        (2, 65535, 65535, Some((65535, 131_070))),
    ] {
        let found = found(rt.alloc(), base, divisor, limit)?;
        assert!(rt; found == expected, "{divisor} within {limit}");
    }
    Ok(())
}

// The word in digits, and the steps that it took to find it.
fn told(alloc: Global, word: Option<&[u8]>, steps: u64) -> Result<String, AllocError> {
    match word {
        Some(word) => {
            let digits = digits(alloc, word)?;
            format!(in alloc; "{digits} {steps}")
        }
        None => format!(in alloc; "none {steps}"),
    }
}

// The least word of a remainder, and how many steps it took to find it.
fn least(alloc: Global, base: u8, divisor: u32, target: u32) -> Result<String, Fail> {
    let mut machine = machine(base, divisor, target).ok_or("no machine")?;
    let word = machine.least(alloc)?;
    Ok(told(alloc, word.as_deref(), machine.steps)?)
}

#[test]
fn least_words(rt: HostRuntime) -> Result<(), Fail> {
    for (base, divisor, target, expected) in [
        (10, 7, 0, "- 0"),
        (10, 7, 5, "5 6"),
        (2, 11, 10, "1010 11"),
        (3, 100, 99, "10200 100"),
        (1, 7, 3, "none 1"),
        (0, 7, 3, "none 0"),
        (2, 4, 5, "none 8"),
    ] {
        let least = least(rt.alloc(), base, divisor, target)?;
        assert!(rt;
            least.as_str() == expected,
            "{least} for {target} modulo {divisor}"
        );
    }
    Ok(())
}

// A label for each symbol: 1 of those that are listed, 0 of all others.
fn labels_of(listed: &[u8]) -> [u8; SYMBOLS] {
    let mut labels = [0; SYMBOLS];
    for place in 0..SYMBOLS {
        labels[place] = u8::from(listed.contains(&(b' ' + place as u8)));
    }
    labels
}

// Each symbol has a label of its own.
fn own_labels() -> [u8; SYMBOLS] {
    let mut labels = [0; SYMBOLS];
    for place in 0..SYMBOLS {
        labels[place] = place as u8;
    }
    labels
}

// The least symbols of the columns, in order.
fn least_symbols(alloc: Global, alphabet: &Alphabet) -> Result<Vec<u8>, AllocError> {
    let mut least = Vec::new(alloc);
    for column in 0..alphabet.width() {
        least.push(alphabet.least_of(column))?;
    }
    Ok(least)
}

// Columns are numbered in the order of their least symbols, in whichever order they were divided.
#[test]
fn columns(rt: HostRuntime) -> Result<(), Fail> {
    let one = Alphabet::undivided();
    let digits = one.divide(&labels_of(b"0123456789"));
    let vowels = one.divide(&labels_of(b"aeiou"));
    let both = vowels.join(&digits);
    let crossing = both.divide(&labels_of(b" 05abz~"));
    for (alphabet, least) in [
        (&one, " "),
        (&digits, " 0"),
        (&vowels, " a"),
        (&both, " 0a"),
        (&digits.join(&vowels), " 0a"),
        (&both.join(&digits), " 0a"),
        (&crossing, " !01ae"),
    ] {
        let found = least_symbols(rt.alloc(), alphabet)?;
        assert!(rt; found.as_slice() == least.as_bytes(), "{least}");
    }
    Ok(())
}

#[test]
fn columns_of_symbols(rt: HostRuntime) {
    let vowels = Alphabet::undivided().divide(&labels_of(b"aeiou"));
    let crossing = vowels.divide(&labels_of(b" 05abz~"));
    for (alphabet, symbol, column) in [
        (&vowels, b'u', 1),
        (&vowels, b'b', 0),
        (&crossing, b'~', 0),
        (&crossing, b'}', 1),
    ] {
        assert!(rt; alphabet.column_of(symbol) == column, "{symbol}");
    }
}

// Texts are read by the column of each symbol, and words are spelled by least symbols.
#[test]
fn texts(rt: HostRuntime) -> Result<(), Fail> {
    let alphabet = Alphabet::undivided().divide(&own_labels());
    assert!(rt; alphabet.width() == 95);
    let word = [0, 1, 94].to_vec(rt.alloc())?;
    let text = alphabet.text_of(word);
    assert!(rt; text.as_slice() == b" !~".as_slice());
    let mut machine = machine(95, 5, 0).ok_or("no machine")?;
    let table = scan(rt.alloc(), &mut machine, 5)
        .ok()
        .ok_or("refused")?
        .table;
    assert!(rt; table.width() == alphabet.width());
    assert!(rt; table.run(&[0, 94]) == 4);
    for (text, state) in [("", Some(0)), (" ~", Some(4)), ("a\n", None)] {
        assert!(rt;
            table.run_text(&alphabet, text.as_bytes()) == state,
            "{text}"
        );
    }
    Ok(())
}
