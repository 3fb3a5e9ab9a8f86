//! How a report is shown: as it is, with colors, with its file or the context of the line that it refuses, or as an object of
//! JSON.

ghost use Rattle.std.specs.Prelude.{◌≡◌, ◌&&◌, ◌++◌, ℕ, List, true, IfOk, OnErr, OnOk, option_map, take, [], ◌∷◌};
ghost use Rattle.cap_context.specs.Keepings.{IsKept};
ghost use Rattle.cap_program.specs.Doings.{IsCounted};
ghost use Rattle.capdiag.specs.Forms.{count_of, is_digit, is_json, is_kept, is_plain};
ghost use Rattle.capdiag.specs.Renderings.{IsPut, color_of, colored, in_context, looking, name_text, rendered, unopened_object, with_name};

use crate::complaints::{Unopened, reason_text};
use cap_context::{Kept, push_context};
use cap_json::{LogKind, begins, cut, json_of};
use cap_log::{PushFault, Sink, push_all};
use cap_program::Fault;
use cap_texts::shown_bytes::put_shown;
use std::alloc::{AllocError, Global};

/// How a text looks.
#[derive(Clone, Copy)]
pub enum Look {
    /// As it is.
    Plain,
    /// With the verdict in its color on a terminal: green for a `yes`, red for a `no`.
    Colored,
    /// As an object of JSON.
    Json,
}

/// How a report is shown.
#[derive(Clone, Copy)]
pub struct Form {
    /// How its text looks.
    pub look: Look,
    /// At most how many lines before a line that is refused follow its report, with those that last wrote the registers that it
    /// reads; none of these where that isn't asked for.
    pub context: Option<u8>,
}

/// A report as it is.
pub(crate) const PLAIN: Form = Form {
    look: Look::Plain,
    context: None,
};

/// Whether a text looks as it is.
pub fn is_plain(look: Look) -> bool
    ensures value { result ≡ is_plain look }
{
    match look {
        Look::Plain => true,
        Look::Colored | Look::Json => false,
    }
}

/// Whether a text is an object of JSON.
pub fn is_json(look: Look) -> bool
    ensures value { result ≡ is_json look }
{
    match look {
        Look::Json => true,
        Look::Plain | Look::Colored => false,
    }
}

// Whether a byte is a decimal digit.
fn is_digit(byte: u8) -> bool
    ensures value { result ≡ is_digit byte }
{
    byte >= b'0' && byte <= b'9'
}

/// The number of lines that a word spells, 0 to 99, if it does.
pub(crate) fn count_of(word: &[u8]) -> Option<u8>
    ensures value { result ≡ count_of word.now }
{
    match word {
        [digit] if is_digit(*digit) => Some(*digit - b'0'),
        [ten, digit] if *ten != b'0' && is_digit(*ten) && is_digit(*digit) => {
            Some(10 * (*ten - b'0') + (*digit - b'0'))
        }
        _ => None,
    }
}

/// Whether a report is kept before it is shown, in this form and with this name of its file.
pub(crate) fn is_kept(form: Form, name: Option<&str>) -> bool
    ensures value { result ≡ is_kept form (option_map (λ it. it.now) name.entry) }
{
    !is_plain(form.look) || form.context.is_some() || name.is_some()
}

// A report, followed by the context of the line that it refuses, in what is kept of its log, where that is asked for.
fn in_context(context: Option<u8>, mut report: Vec<u8>, kept: &Kept) -> Result<Vec<u8>, AllocError>
    ensures text { IfOk result (λ text. (bytes : List ℕ) → IsKept kept.now bytes → text.items ≡ in_context context bytes report.items) }
{
    let Some(count) = context else {
        return Ok(report);
    };
    push_context(&mut report, count, kept)?;
    Ok(report)
}

// Appends a byte of a file's name as it is shown.
fn push_name_byte(text: &mut Vec<u8>, is_raw: bool, byte: u8) -> Result<(), AllocError>
    ensures ok { OnOk result (text.new.items ≡ text.old.items ++ name_text is_raw (byte ∷ [])) }
{
    if is_raw && byte >= 128 {
        return text.extend_from_slice(&[byte]);
    }
    let mut buffer = [0u8; 4];
    let length = put_shown(&mut buffer, 0, &[byte]);
    text.extend_from_slice(&buffer[..length])
}

// Appends a file's name as it is shown.
fn push_name(text: &mut Vec<u8>, is_raw: bool, name: &[u8]) -> Result<(), AllocError>
    ensures ok { OnOk result (text.new.items ≡ text.old.items ++ name_text is_raw name.now) }
{
    for byte in name {
        push_name_byte(text, is_raw, *byte)?;
    }
    Ok(())
}

// A report, with the name of its file after the line of the verdict, if that is shown.
fn with_name(
    alloc: Global,
    is_raw: bool,
    name: Option<&str>,
    report: Vec<u8>,
) -> Result<Vec<u8>, AllocError>
    ensures text { IfOk result (λ text. text.items ≡ with_name is_raw (option_map (λ it. it.now) name.entry) report.items) }
{
    let Some(name) = name else {
        return Ok(report);
    };
    let (verdict, lines) = cut(b'\n', report.as_slice());
    let mut text = Vec::new(alloc);
    text.extend_from_slice(verdict)?;
    text.extend_from_slice(b"\nfile ")?;
    push_name(&mut text, is_raw, name.as_bytes())?;
    text.push(b'\n')?;
    text.extend_from_slice(lines)?;
    Ok(text)
}

// What switches a terminal to the color of a verdict.
fn color_of(verdict: &[u8]) -> &'static [u8]
    ensures value { result.now ≡ color_of verdict.now }
{
    if begins(b"yes", verdict) {
        b"\x1b[32m"
    } else {
        b"\x1b[31m"
    }
}

// A report whose verdict has its color on a terminal.
fn colored(alloc: Global, report: &[u8]) -> Result<Vec<u8>, AllocError>
    ensures text { IfOk result (λ text. text.items ≡ colored report.now) }
{
    let (verdict, lines) = cut(b'\n', report);
    let mut text = Vec::new(alloc);
    text.extend_from_slice(color_of(verdict))?;
    text.extend_from_slice(verdict)?;
    text.extend_from_slice(b"\x1b[0m\n")?;
    text.extend_from_slice(lines)?;
    Ok(text)
}

// A text as it looks.
fn looking(alloc: Global, look: Look, kind: LogKind, text: Vec<u8>) -> Result<Vec<u8>, AllocError>
    ensures text { IfOk result (λ shown. shown.items ≡ looking look kind text.items) }
{
    match look {
        Look::Plain => Ok(text),
        Look::Colored => colored(alloc, text.as_slice()),
        Look::Json => json_of(alloc, kind, text.as_slice()),
    }
}

// What is shown of a report.
fn rendered(
    alloc: Global,
    form: Form,
    name: Option<&str>,
    kind: LogKind,
    report: Vec<u8>,
    kept: &Kept,
) -> Result<Vec<u8>, AllocError>
    ensures text { IfOk result (λ text. (bytes : List ℕ) → IsKept kept.now bytes
        → text.items ≡ rendered form (option_map (λ it. it.now) name.entry) kind bytes report.items) }
{
    let text = in_context(form.context, report, kept)?;
    let text = with_name(alloc, is_json(form.look), name, text)?;
    looking(alloc, form.look, kind, text)
}

/// Pushes what is shown of a report that was kept, by what was done for it and by what is kept of its log.
pub(crate) fn push_report<K: Sink>(
    alloc: Global,
    form: Form,
    name: Option<&str>,
    kind: LogKind,
    done: Result<u8, Fault>,
    report: Vec<u8>,
    kept: &Kept,
    sink: &mut K,
) -> Result<u8, Fault>
    ensures put { (bytes : List ℕ) → IsKept kept.now bytes
        → IsPut (rendered form (option_map (λ it. it.now) name.entry) kind bytes report.items) (K.took sink.old sink.new) done result }
    ensures written { IsCounted Fault.Write result (K.faults sink.old) (K.faults sink.new) }
{
    match done {
        Ok(status) => match rendered(alloc, form, name, kind, report, kept) {
            Ok(text) => match push_all(sink, text.as_slice()) {
                Ok(()) => Ok(status),
                Err(PushFault) => Err(Fault::Write),
            },
            Err(AllocError) => Err(Fault::NoMemory),
        },
        Err(Fault::Write) => Err(Fault::NoMemory),
        Err(fault) => Err(fault),
    }
}

// What is shown of a file that cannot be opened, as an object of JSON.
#[tactic(auto, unfolding(crate::specs::Renderings::unopened_object))]
fn unopened_object(alloc: Global, path: &str, reason: Unopened) -> Result<Vec<u8>, AllocError>
    ensures object { IfOk result (λ object. object.items ≡ unopened_object path.now reason) }
{
    let mut report = Vec::new(alloc);
    report.extend_from_slice(b"unopened ")?;
    report.extend_from_slice(reason_text(reason))?;
    report.extend_from_slice(b"\nfile ")?;
    push_name(&mut report, true, path.as_bytes())?;
    report.push(b'\n')?;
    json_of(alloc, LogKind::Machine, report.as_slice())
}

/// Pushes an object of JSON for a file that cannot be opened. Where the sink fails it took a beginning of the object.
pub fn show_unopened<K: Sink>(
    alloc: Global,
    path: &str,
    reason: Unopened,
    out: &mut K,
) -> Result<(), Fault>
    ensures ok { OnOk result (K.took out.old out.new (unopened_object path.now reason)) }
    ensures err { OnErr result ((n : ℕ) × K.took out.old out.new (take n (unopened_object path.now reason))) }
{
    match unopened_object(alloc, path, reason) {
        Ok(object) => match push_all(out, object.as_slice()) {
            Ok(()) => Ok(()),
            Err(PushFault) => Err(Fault::Write),
        },
        Err(AllocError) => Err(Fault::NoMemory),
    }
}
