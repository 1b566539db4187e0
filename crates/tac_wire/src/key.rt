//! The secret that the server shares with its clients.

ghost use Rattle.std.specs.Prelude.{◌≡◌};
ghost use Rattle.tac_wire.specs.Key.{key_of};

use arrayvec::ArrayVec;
use basics::is_text;
use std::marker::Model;

/// 1 to 128 symbols. A clause sees them as a list.
#[derive(Drop)]
pub struct Key {
    symbols: ArrayVec<u8, 128>,
}

impl Model for Key {
    ghost use Rattle.std.specs.Prelude.{List, ℕ, IsTrue};
    ghost use Rattle.tac_wire.specs.Key.{is_key};

    ghost Value = { List ℕ };

    ghost view = { λ key. key.symbols.items };

    ghost invariant = { λ key. IsTrue (is_key key.symbols.items) };
}

impl Key {
    /// How many symbols a key has at most.
    pub const MAX: usize = 128;

    /// The key that the text is; `None` where it has no or over 128 bytes, or one that is no
    /// symbol.
    pub fn read(text: &[u8]) -> Option<Key>
        ensures { result ≡ key_of text.now }
    {
        if text.is_empty() || text.len() > Self::MAX || !is_text(text) {
            return None;
        }
        let mut symbols = ArrayVec::new();
        symbols.try_extend_from_slice(text).ok()?;
        Some(Key { symbols })
    }

    /// Another with the same symbols. Takes no memory.
    pub fn copy(&self) -> Key
        ensures { result ≡ self.now }
    {
        let mut symbols = ArrayVec::new();
        symbols
            .try_extend_from_slice(self.symbols.as_slice())
            .unwrap();
        Key { symbols }
    }

    /// The key's symbols.
    pub fn as_slice(&self) -> &[u8]
        ensures { result.now ≡ self.now }
    {
        self.symbols.as_slice()
    }
}
