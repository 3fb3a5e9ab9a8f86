//! Logs whose lines are made as they are pulled.

ghost use Rattle.std.specs.Prelude.{◌≤◌, length};

use cap_log::{PullFault, Source};
use cap_word::{Word, word_text};

// Some lines while they are made. What does not fit is left out.
#[derive(Drop)]
struct Text {
    bytes: [u8; 256],
    length: usize,
}

impl Text {
    fn put(&mut self, bytes: &[u8]) {
        if let Some(room) = self.bytes.get_mut(self.length..) {
            let count = room.len().min(bytes.len());
            room[..count].copy_from_slice(&bytes[..count]);
            self.length = self.length.saturating_add(count);
        }
    }

    // Puts a number in decimal.
    fn put_decimal(&mut self, number: u64) {
        let mut digits = itoa::Buffer::new();
        self.put(digits.format(number).as_bytes());
    }

    // Puts the sixteen hexadecimal digits of a number.
    fn put_hex(&mut self, number: u64) {
        let digits = word_text(Word(u128::from(number)));
        self.put(&digits[16..]);
    }

    // Gives what fits of the text from an index on, and answers how many bytes.
    fn give(&self, from: usize, piece: &mut [u8]) -> usize
        ensures { result ≤ length piece.new }
    {
        let Some(rest) = self.bytes.get(from..self.length) else {
            return 0;
        };
        let count = rest.len().min(piece.len());
        piece[..count].copy_from_slice(&rest[..count]);
        count
    }
}

// Puts a line of a block: an address in the middle of a page of 4096 bytes, and then a store of a byte to each of the
// page's 256 granules.
fn put_block(number: u64, text: &mut Text) {
    let middle = (number / 257).saturating_mul(4096).saturating_add(2048);
    let store = number % 257 * 16;
    if store == 0 {
        text.put(b"setaddr c2 c1 ");
        text.put_hex(middle);
        text.put(b" = 1 ffff1ffffc018004");
        text.put_hex(middle);
    } else {
        text.put(b"store c2 ");
        if store < 2064 {
            text.put(b"-");
        }
        text.put_decimal(store.abs_diff(2064));
        text.put(b" 1 00");
    }
    text.put(b"\n");
}

// Puts a root, in each register and then in granules.
fn put_root(number: u64, text: &mut Text) {
    if number < 31 {
        text.put(b"root c");
        text.put_decimal(number + 1);
    } else {
        text.put(b"root @");
        text.put_hex(number.saturating_mul(16));
    }
    text.put(b" ffff1ffffc0180040000000000000000\n");
}

/// A text, lines of a kind with the numbers from one to another, and a text after them.
#[derive(Drop)]
pub struct Made<'a> {
    /// The text before the lines.
    pub header: &'a [u8],
    /// `blocks`, `roots`, `moves`, `feeds` or `letters`.
    pub kind: &'a [u8],
    /// The number of the first line.
    pub next: u64,
    /// The number after the last.
    pub until: u64,
    /// The text after the lines.
    pub rest: &'a [u8],
}

impl<'a> Made<'a> {
    /// A log of no bytes.
    pub fn nothing() -> Made<'a> {
        Made {
            header: &[],
            kind: &[],
            next: 0,
            until: 0,
            rest: &[],
        }
    }

    // Puts what is next.
    fn put(&mut self, text: &mut Text) {
        if !self.header.is_empty() {
            text.put(self.header);
            self.header = &[];
        } else if self.next < self.until {
            match self.kind {
                b"blocks" => put_block(self.next, text),
                b"roots" => put_root(self.next, text),
                b"moves" => text.put(b"move c2 c1 = 1 ffff1ffffc0180040000000000000000\n"),
                b"feeds" => text.put(b"\n"),
                _ => text.put(b"x"),
            }
            self.next += 1;
        } else {
            text.put(self.rest);
            self.rest = &[];
        }
    }
}

/// A log while it is made.
#[derive(Drop)]
pub struct Making<'a> {
    made: Made<'a>,
    text: Text,
    given: usize,
    is_ended: bool,
}

impl<'a> Making<'a> {
    /// Nothing was pulled yet.
    pub fn new(made: Made<'a>) -> Making<'a> {
        Making {
            made,
            text: Text {
                bytes: [0; 256],
                length: 0,
            },
            given: 0,
            is_ended: false,
        }
    }
}

impl<'a> Source for Making<'a> {
    ghost use Rattle.std.proofs.lemmas.Nat.{pow_pos};

    ghost gave = { λ a b xs. Unit {0} };

    ghost ended = { λ s. s.is_ended };

    ghost faults = { λ s. 0 };

    ghost nothing = { λ s. tt };

    ghost faults_fit = { λ s. pow_pos 64 };

    ghost joined = { λ a b c xs ys h k. tt };

    fn pull(&mut self, piece: &mut [u8]) -> Result<usize, PullFault> {
        if self.given >= self.text.length {
            self.given = 0;
            self.text.length = 0;
            self.made.put(&mut self.text);
        }
        let count = self.text.give(self.given, piece);
        self.given = self.given.saturating_add(count);
        self.is_ended = count == 0 && !piece.is_empty();
        Ok(count)
    }
}
