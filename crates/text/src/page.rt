// The page of a text, long enough for every text. What would lie past its end is left out.
ghost use Rattle.std.specs.Prelude.{◌≡◌, ◌≤◌, [], ◌∷◌, length};
ghost use Rattle.text.specs.Text.{Adds, decimal_of, page_size};

use std::marker::Model;

// No text is longer.
const SIZE: usize = 7364;

#[derive(Drop)]
pub struct Page {
    bytes: [u8; SIZE],
    at: usize,
}

// Clauses see what is written.
impl Model for Page {
    ghost use Rattle.std.specs.Prelude.{ℕ, List, ◌≤◌, take};

    ghost Value = { List ℕ };

    ghost view = { λ p. take p.at p.bytes };

    ghost invariant = { λ p. p.at ≤ 7364 };
}

impl Page {
    pub fn new() -> Page
        ensures { result ≡ [] }
    {
        Page {
            bytes: [0; SIZE],
            at: 0,
        }
    }

    pub fn written(&self) -> &[u8]
        ensures bytes { result.now ≡ self.now }
        ensures fits { length result.now ≤ page_size }
    {
        &self.bytes[..self.at]
    }

    pub fn put(&mut self, byte: u8)
        ensures { Adds (byte ∷ []) self.old self.new }
    {
        if self.at < SIZE {
            self.bytes[self.at] = byte;
            self.at += 1;
        }
    }

    pub fn word(&mut self, word: &[u8])
        ensures { Adds word.now self.old self.new }
    {
        for byte in word {
            self.put(*byte);
        }
    }

    pub fn decimal(&mut self, n: usize)
        ensures { Adds (decimal_of n) self.old self.new }
    {
        let mut digits = itoa::Buffer::new();
        self.word(digits.format(n).as_bytes());
    }
}
