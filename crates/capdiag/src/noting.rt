//! A writer whose first bytes are kept, and the name of the refusal in them.

ghost use Rattle.std.specs.Prelude.{◌≡◌, ◌≤◌, ◌++◌, [], length, take, IfOk, OnErr};
ghost use Rattle.std.specs.Io.{KnownBytes.WriteAppends, WritesAtMost};
ghost use Rattle.capdiag.specs.Notes.{from_capital, is_capital, is_letter, letters, name_in};

use std::io::{self, Write};

/// How many bytes are kept: those of the line of any verdict, also as an object of JSON, up to the name of the refusal.
const KEPT: usize = 96;

/// A writer that is lent, and the first bytes that it took.
#[derive(Drop)]
pub struct Noting<'a, W: Write> {
    writer: &'a mut W,
    front: [u8; 96],
    length: usize,
    ghost fits: { length ≤ 96 },
}

impl<'a, W: Write> Noting<'a, W> {
    ghost use Rattle.capdiag.specs.Noted.{noted, writer_of};

    /// None are kept yet.
    pub fn new(writer: &'a mut W) -> Noting<'a, W>
        ensures writer { writer_of result ≡ writer.old }
        ensures none { noted result ≡ [] }
    {
        Noting {
            writer,
            front: [0u8; 96],
            length: 0,
        }
    }

    /// The first bytes that it took.
    pub fn front(&self) -> &[u8]
        ensures value { result.now ≡ noted self.now }
    {
        &self.front[..self.length]
    }

    // Keeps the first of these bytes, if there is room.
    fn keep(&mut self, bytes: &[u8])
        ensures writer { writer_of self.new ≡ writer_of self.old }
        ensures noted { noted self.new ≡ take 96 (noted self.old ++ bytes.now) }
    {
        let count = bytes.len().min(KEPT - self.length);
        self.front[self.length..self.length + count].copy_from_slice(&bytes[..count]);
        self.length += count;
    }
}

impl<'a, W: Write> Write for Noting<'a, W> {
    ghost use Rattle.capdiag.specs.Noted.{noted, writer_of};

    ghost contents = { λ s. W.contents s.writer.now };

    fn write(&mut self, bytes: &[u8]) -> io::Result<usize>
        ensures bound { WritesAtMost result bytes.now }
        ensures bytes { WriteAppends (W.contents (writer_of self.old)) (W.contents (writer_of self.new)) result bytes.now }
        ensures noted { IfOk result (λ n. noted self.new ≡ take 96 (noted self.old ++ take n bytes.now)) }
        ensures failed { OnErr result (noted self.new ≡ noted self.old) }
    {
        match self.writer.write(bytes) {
            Ok(count) => {
                self.keep(&bytes[..count]);
                Ok(count)
            }
            Err(error) => Err(error),
        }
    }

    fn flush(&mut self) -> io::Result<()> {
        self.writer.flush()
    }
}

// Whether a byte is a letter, or a capital.
fn is_letter(byte: u8) -> bool
    ensures value { result ≡ is_letter byte }
{
    is_capital(byte) || (byte >= b'a' && byte <= b'z')
}

fn is_capital(byte: u8) -> bool
    ensures value { result ≡ is_capital byte }
{
    byte >= b'A' && byte <= b'Z'
}

// A text from its first capital on.
fn from_capital(text: &[u8]) -> &[u8]
    ensures value { result.now ≡ from_capital text.now }
{
    match text.split_first() {
        Some((byte, rest)) if !is_capital(*byte) => from_capital(rest),
        _ => text,
    }
}

// How many letters a text begins with.
fn letters(text: &[u8]) -> usize
    ensures value { result ≡ letters text.now }
    ensures fits { result ≤ length text.now }
{
    match text.split_first() {
        Some((byte, rest)) if is_letter(*byte) => 1 + letters(rest),
        _ => 0,
    }
}

/// The name of the refusal in the first bytes of what is shown of a `no`: its first word with a capital.
pub fn name_in(front: &[u8]) -> &[u8]
    ensures value { result.now ≡ name_in front.now }
{
    let name = from_capital(front);
    &name[..letters(name)]
}
