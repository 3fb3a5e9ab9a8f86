//! The lines that last wrote registers.

ghost use Rattle.std.specs.Prelude.{◌≡◌, ◌≢◌, ℕ, ◌<◌, if◌then◌else◌, IfOk, IfSome, OnOk, Some, true, length, option_map};
ghost use Rattle.cap_context.specs.Registers.{HartRegister, is_register, writes_of};
ghost use Rattle.cap_context.specs.{Readings.entry_of, Writers.{found, is_same, place_in, slot_of, slots_of, written, writers_of}};

use crate::registers::{is_register, is_word, number_of, word_at, writes_first};
use std::alloc::{AllocError, Global};
use std::collections::BTreeMap;

/// A line with its number.
#[derive(Drop)]
struct Line {
    number: u64,
    text: Vec<u8>,
}

/// A register of a hart, and the last line that wrote it.
#[derive(Drop)]
pub(crate) struct Writer {
    register: Vec<u8>,
    hart: Vec<u8>,
    line: Line,
}

impl Writer {
    // Whether it is that of a register of a hart.
    fn is_of(&self, register: &[u8], hart: &[u8]) -> bool
        ensures value { result ≡ is_same (register.now, hart.now) (slot_of self.now).0 }
    {
        is_word(register, self.register.as_slice()) && is_word(hart, self.hart.as_slice())
    }
}

// The last line that wrote a register of a hart, if one did.
#[tactic(auto, unfolding(crate::specs::Writers::found))]
fn found<'a>(register: &[u8], hart: &[u8], writers: &'a [Writer]) -> Option<(u64, &'a [u8])>
    ensures value { option_map entry_of result ≡ found (register.now, hart.now) (slots_of writers.now) }
{
    let (writer, writers) = writers.split_first()?;
    if writer.is_of(register, hart) {
        return Some((writer.line.number, writer.line.text.as_slice()));
    }
    found(register, hart, writers)
}

/// The bytes of a slice.
pub(crate) fn copied(alloc: Global, bytes: &[u8]) -> Result<Vec<u8>, AllocError>
    ensures copy { IfOk result (λ copy. copy.items ≡ bytes.now) }
{
    let mut copy = Vec::new(alloc);
    copy.extend_from_slice(bytes)?;
    Ok(copy)
}

// The place of a register of a hart.
#[tactic(auto, unfolding(crate::specs::Writers::place_in))]
fn place_in(register: &[u8], hart: &[u8], writers: &[Writer]) -> Option<usize>
    ensures value { result ≡ place_in (register.now, hart.now) (slots_of writers.now) }
    ensures inside { IfSome result (λ place. place < length writers.now) }
{
    let (writer, writers) = writers.split_first()?;
    if writer.is_of(register, hart) {
        return Some(0);
    }
    match place_in(register, hart, writers) {
        Some(place) => Some(1 + place),
        None => None,
    }
}

// Keeps the last line that wrote a register of a hart.
fn set(
    alloc: Global,
    writers: &mut Vec<Writer>,
    register: &[u8],
    hart: &[u8],
    number: u64,
    text: &[u8],
) -> Result<(), AllocError>
    ensures ok { OnOk result ((other : HartRegister) → found other (slots_of writers.new.items)
        ≡ (if is_same other (register.now, hart.now) then Some (number, text.now) else found other (slots_of writers.old.items))) }
{
    let text = copied(alloc, text)?;
    let line = Line { number, text };
    match place_in(register, hart, writers.as_slice()) {
        Some(place) => writers[place].line = line,
        None => {
            let register = copied(alloc, register)?;
            let hart = copied(alloc, hart)?;
            writers.push(Writer {
                register,
                hart,
                line,
            })?;
        }
    }
    Ok(())
}

// Keeps the last line that wrote a word, if that is a register, of a hart.
fn set_register(
    alloc: Global,
    writers: &mut Vec<Writer>,
    word: &[u8],
    hart: &[u8],
    number: u64,
    text: &[u8],
) -> Result<(), AllocError>
    ensures ok { OnOk result ((other : HartRegister) → is_register other.0 ≡ true → found other (slots_of writers.new.items)
        ≡ (if is_same other (word.now, hart.now) then Some (number, text.now) else found other (slots_of writers.old.items))) }
{
    if is_register(word) {
        set(alloc, writers, word, hart, number, text)
    } else {
        Ok(())
    }
}

// Keeps a line of a hart for the registers that it writes.
fn note(
    alloc: Global,
    writers: &mut Vec<Writer>,
    hart: &[u8],
    number: u64,
    text: &[u8],
) -> Result<(), AllocError>
    ensures ok { OnOk result ((other : HartRegister) → is_register other.0 ≡ true → found other (slots_of writers.new.items)
        ≡ (if writes_of other hart.now text.now then Some (number, text.now) else found other (slots_of writers.old.items))) }
{
    let kind = word_at(0, text);
    if is_word(kind, b"invoke") {
        set(alloc, writers, b"scr0", hart, number, text)?;
        return set(alloc, writers, b"c31", hart, number, text);
    }
    if !writes_first(text) {
        return Ok(());
    }
    set_register(alloc, writers, word_at(1, text), hart, number, text)?;
    if is_word(kind, b"exchange") {
        set_register(alloc, writers, word_at(3, text), hart, number, text)?;
    }
    Ok(())
}

/// The last line that wrote a register of a hart, if one did, in what is kept by the harts' numbers.
#[tactic(auto, unfolding(crate::specs::Writers::found, crate::specs::Writers::written))]
pub(crate) fn written<'a>(
    register: &[u8],
    hart: &[u8],
    writers: &'a BTreeMap<u64, Vec<Writer>>,
) -> Option<(u64, &'a [u8])>
    ensures value { option_map entry_of result ≡ written writers.now (register.now, hart.now) }
{
    match writers.get(&number_of(hart)) {
        Some(own) => found(register, hart, own.as_slice()),
        None => None,
    }
}

// Takes what is kept for the harts of a number.
fn take_own(alloc: Global, writers: &mut BTreeMap<u64, Vec<Writer>>, number: u64) -> Vec<Writer>
    ensures own { result.items ≡ writers_of writers.old number }
    ensures others { (other : ℕ) → other ≢ number → writers_of writers.new other ≡ writers_of writers.old other }
{
    match writers.remove(&number) {
        Some(own) => own,
        None => Vec::new(alloc),
    }
}

// Keeps this for the harts of a number.
fn put_own(
    writers: &mut BTreeMap<u64, Vec<Writer>>,
    number: u64,
    own: Vec<Writer>,
) -> Result<(), AllocError>
    ensures own { OnOk result (writers_of writers.new number ≡ own.items) }
    ensures others { OnOk result ((other : ℕ) → other ≢ number → writers_of writers.new other ≡ writers_of writers.old other) }
{
    match writers.insert(number, own) {
        Ok(_) => Ok(()),
        Err(_) => Err(AllocError),
    }
}

/// Keeps a line of a hart for the registers that it writes, by the hart's number.
pub(crate) fn keep_writers(
    alloc: Global,
    writers: &mut BTreeMap<u64, Vec<Writer>>,
    hart: &[u8],
    number: u64,
    text: &[u8],
) -> Result<(), AllocError>
    ensures ok { OnOk result ((other : HartRegister) → is_register other.0 ≡ true → written writers.new other
        ≡ (if writes_of other hart.now text.now then Some (number, text.now) else written writers.old other)) }
{
    let key = number_of(hart);
    let mut own = take_own(alloc, writers, key);
    note(alloc, &mut own, hart, number, text)?;
    put_own(writers, key, own)?;
    Ok(())
}
