//! What is kept of the bytes that a source gave.

ghost use Rattle.std.specs.Prelude.{◌≡◌, ◌++◌, ◌≤◌, [], IfOk, OnOk, List, ℕ, length};
ghost use Rattle.cap_context.specs.{Keepings.{IsKept, Keeps, hart_kept}, Writers.written};

use crate::registers::hart_after;
use crate::writers::{Writer, copied, keep_writers};
use cap_json::cut;
use std::alloc::{AllocError, Global};
use std::collections::BTreeMap;

// From how many bytes on lines are dropped.
const MOST: usize = 65_536;

/// What is kept of the bytes that a source gave, for the context of a line: the last lines, and of those before them the last
/// that wrote each register of each hart. Its size doesn't depend on how many lines there are.
#[derive(Drop)]
pub struct Kept {
    pub(crate) alloc: Global,
    // How many lines may be asked for, if any.
    count: Option<u8>,
    // How many lines were dropped, the hart that these named last, and of these the last that wrote each register of each hart,
    // by the hart's number.
    pub(crate) skipped: u64,
    pub(crate) hart: Option<Vec<u8>>,
    pub(crate) writers: BTreeMap<u64, Vec<Writer>>,
    // The bytes after them.
    pub(crate) bytes: Vec<u8>,
    // Whether no memory was refused.
    pub(crate) is_whole: bool,
}

/// The hart after the lines that were dropped.
pub(crate) fn hart_kept(hart: &Option<Vec<u8>>) -> &[u8]
    ensures value { result.now ≡ hart_kept hart.now }
{
    match hart {
        Some(hart) => hart.as_slice(),
        None => b"0",
    }
}

// How many lines end in some bytes.
fn line_count(bytes: &[u8]) -> usize
    ensures few { result ≤ length bytes.now }
{
    let mut count = 0usize;
    for byte in bytes {
        if *byte == b'\n' {
            count += 1;
        }
    }
    count
}

// Drops so many whole lines from the front of the bytes, after others: how many are dropped then, the rest, and the hart there.
fn dropped<'a>(
    alloc: Global,
    skipped: u64,
    hart: &'a [u8],
    bytes: &'a [u8],
    count: usize,
    writers: &mut BTreeMap<u64, Vec<Writer>>,
) -> Result<(u64, &'a [u8], &'a [u8]), AllocError>
    ensures keeps { IfOk result (λ left. (given : List ℕ) → Keeps skipped hart.now (written writers.old) bytes.now given
        → Keeps left.0 left.2.now (written writers.new) left.1.now given) }
{
    let mut skipped = skipped;
    let mut hart = hart;
    let mut rest = bytes;
    let mut left = count;
    while left > 0 && skipped < u64::MAX {
        let (text, more) = cut(b'\n', rest);
        if text.len() >= rest.len() {
            return Ok((skipped, rest, hart));
        }
        keep_writers(alloc, writers, hart, skipped + 1, text)?;
        hart = hart_after(hart, text);
        skipped += 1;
        rest = more;
        left -= 1;
    }
    Ok((skipped, rest, hart))
}

impl Kept {
    /// Nothing is kept yet; for at most this many lines before a line, if any are asked for.
    pub fn new(alloc: Global, count: Option<u8>) -> Kept
        ensures empty { IsKept result [] }
    {
        Kept {
            alloc,
            count,
            skipped: 0,
            hart: None,
            writers: BTreeMap::new(alloc),
            bytes: Vec::new(alloc),
            is_whole: count.is_some(),
        }
    }

    // Drops the lines that no context has, except the last that wrote each register of each hart.
    fn drop_lines(&mut self) -> Result<(), AllocError>
        ensures keeps { OnOk result ((given : List ℕ) → IsKept self.old given → IsKept self.new given) }
    {
        if self.bytes.len() < MOST {
            return Ok(());
        }
        let most = usize::from(self.count.unwrap_or(0));
        let count = line_count(self.bytes.as_slice()).saturating_sub(most);
        let mut rest = Vec::new(self.alloc);
        let (skipped, left, hart) = dropped(
            self.alloc,
            self.skipped,
            hart_kept(&self.hart),
            self.bytes.as_slice(),
            count,
            &mut self.writers,
        )?;
        rest.extend_from_slice(left)?;
        let hart = copied(self.alloc, hart)?;
        self.skipped = skipped;
        self.hart = Some(hart);
        self.bytes = rest;
        Ok(())
    }

    /// Keeps more bytes. Once memory was refused, nothing more is kept.
    pub(crate) fn keep(&mut self, bytes: &[u8])
        ensures kept { (given : List ℕ) → IsKept self.old given → IsKept self.new (given ++ bytes.now) }
    {
        if !self.is_whole {
            return;
        }
        if self.drop_lines().is_err() {
            self.is_whole = false;
            return;
        }
        if self.bytes.extend_from_slice(bytes).is_err() {
            self.is_whole = false;
        }
    }
}
