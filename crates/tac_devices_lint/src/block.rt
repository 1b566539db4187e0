//! What a device lacks.

use crate::clash::line_words;
use crate::whole::WholeFault;
use crate::word::LineWord;
use basics::Lines;

/// Which lines a device has.
#[derive(Clone, Copy)]
struct Block {
    has_place: bool,
    has_key: bool,
    has_old_key: bool,
    has_tls: bool,
}

impl Block {
    // With one more line.
    fn with(self, word: LineWord) -> Block {
        match word {
            LineWord::At => Block {
                has_place: true,
                ..self
            },
            LineWord::Key => Block {
                has_key: true,
                ..self
            },
            LineWord::OldKey => Block {
                has_old_key: true,
                ..self
            },
            LineWord::Tls => Block {
                has_tls: true,
                ..self
            },
            LineWord::Device | LineWord::Connections => self,
        }
    }

    fn has_way(&self) -> bool {
        self.has_key || self.has_tls && !self.has_old_key
    }
}

// The lines of a device, after the one that begins it.
fn block_of(rest: &[u8]) -> Block {
    let mut block = Block {
        has_place: false,
        has_key: false,
        has_old_key: false,
        has_tls: false,
    };
    let mut lines = Lines::new(rest);
    'lines: while let Some((_, line)) = lines.take_line() {
        match line_words(line) {
            Some((LineWord::Device, _)) => return block,
            Some((word, _)) => block = block.with(word),
            None => {}
        }
    }
    block
}

/// What the device lacks that a line begins, which this text follows. Other lines begin none.
pub(crate) fn lack(line: &[u8], rest: &[u8]) -> Option<WholeFault> {
    let Some((LineWord::Device, _)) = line_words(line) else {
        return None;
    };
    let block = block_of(rest);
    if !block.has_way() {
        return Some(WholeFault::NoKey);
    }
    if !block.has_place {
        return Some(WholeFault::NoAddress);
    }
    None
}
