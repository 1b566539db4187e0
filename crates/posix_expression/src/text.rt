//! Text that is put together.

ghost use Rattle.std.specs.Prelude.{◌≡◌, false, true, [], ◌∷◌};
ghost use Rattle.std.specs.Fmt.{decimal};
ghost use Rattle.posix_expression.specs.Gathered.{gathered, lacks, Gains};

use std::alloc::Global;

/// Text that is put together. Where memory runs out it lacks something, and `is_cut` tells that.
pub struct Text {
    alloc: Global,
    bytes: Vec<u8>,
    is_cut: bool,
}

// By hand, so that a proof of an owner has one call at each exit, not a drop of each field.
impl Drop for Text {
    fn drop(self) {
        let Text {
            alloc: _,
            bytes: _,
            is_cut: _,
        } = self;
    }
}

impl Text {
    /// No text. Takes no memory.
    pub fn new(alloc: Global) -> Text
        ensures none { gathered result ≡ [] }
        ensures whole { lacks result ≡ false }
    {
        Text {
            alloc,
            bytes: Vec::new(alloc),
            is_cut: false,
        }
    }

    /// What there is by now.
    pub fn as_slice(&self) -> &[u8]
        ensures { result.now ≡ gathered self.now }
    {
        self.bytes.as_slice()
    }

    /// That memory ran out for something else, without which the text is wrong.
    pub fn cut(&mut self)
        ensures { lacks self.new ≡ true }
    {
        self.is_cut = true;
    }

    /// Whether it lacks something.
    pub fn is_cut(&self) -> bool
        ensures { result ≡ lacks self.now }
    {
        self.is_cut
    }

    /// Adds a byte.
    pub fn push(&mut self, byte: u8)
        ensures { Gains self.old (byte ∷ []) self.new }
    {
        if self.bytes.push(byte).is_err() {
            self.is_cut = true;
        }
    }

    /// Adds bytes.
    pub fn add(&mut self, bytes: &[u8])
        ensures { Gains self.old bytes.now self.new }
    {
        if self.bytes.extend_from_slice(bytes).is_err() {
            self.is_cut = true;
        }
    }

    /// Adds a number.
    pub fn add_number(&mut self, number: usize)
        ensures { Gains self.old (decimal number) self.new }
    {
        match format!(in self.alloc; "{number}") {
            Ok(digits) => self.add(digits.as_bytes()),
            Err(_) => self.is_cut = true,
        }
    }

    /// Adds another text.
    pub fn add_text(&mut self, text: &Text)
        ensures bytes { Gains self.old (gathered text.now) self.new }

        // What the other lacks, it lacks.
        ensures whole { lacks self.new ≡ false → lacks text.now ≡ false }
    {
        self.add(text.as_slice());
        self.is_cut |= text.is_cut;
    }

    /// The bytes, which are right if it lacks nothing.
    pub fn into_bytes(self) -> Vec<u8>
        ensures { result.items ≡ gathered self }
    {
        let Text {
            alloc: _,
            bytes,
            is_cut: _,
        } = self;
        bytes
    }
}
