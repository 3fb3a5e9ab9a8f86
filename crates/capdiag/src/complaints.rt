//! What the program says of words that ask for no order, of a file that cannot be opened, and where it waits for a terminal.

ghost use Rattle.std.specs.Prelude.{◌≡◌, ◌+◌, ◌≤◌, length, map, option_map, take};
ghost use Rattle.cap_streams.specs.Written.{Writes};
ghost use Rattle.cap_program.specs.Doings.{IsPushed};
ghost use Rattle.capdiag.specs.{Guesses.guess_of, Hints.{hint_text, packed_text}};
ghost use Rattle.capdiag.specs.Complaints.{complaint_line, front_text, hint_line, named, packed_line, question, quoted};
ghost use Rattle.capdiag.specs.Complaints.{reason_text, subject, told_line, unopened_line, waiting_line};

use crate::fronts::Packing;
use crate::guesses::guess_of;
use cap_json::LogKind;
use cap_log::buffers::put;
use cap_log::{Sink, push_all};
use cap_texts::shown_bytes::put_shown;

/// What is wrong with the words after the program's name.
#[derive(Clone, Copy)]
pub enum Complaint {
    /// There is no word.
    NoCommand,
    /// The first word is no command.
    UnknownCommand,
    /// A word is no option of its command.
    UnknownOption,
    /// The value of an option is missing.
    NoValue,
    /// A word is no value of the option before it.
    UnknownValue,
    /// The number of lines of context is missing.
    NoCount,
    /// A word is no number of lines of context.
    UnknownCount,
    /// An option is given twice.
    Twice,
    /// An option that takes no other word is given with one.
    Alone,
}

/// Why the words after the program's name ask for no order.
#[derive(Clone, Copy)]
pub struct Wrong<'a> {
    /// What is wrong.
    pub complaint: Complaint,
    /// The word that is wrong, empty where there is none.
    pub word: &'a str,
}

/// Why a file cannot be opened.
#[derive(Clone, Copy)]
pub enum Unopened {
    /// There is none of this name.
    Missing,
    /// The user may not read it.
    Denied,
    /// It is a directory.
    Directory,
    /// A part of its path is a file.
    Through,
    /// Its name or a part of its path is too long.
    Long,
    /// Its symbolic links lead round in a circle.
    Circle,
    /// Any other reason.
    Other,
}

/// Pushes the line that says what is wrong with words, and which word may have been meant. Where the sink fails it took
/// a beginning of the line.
pub fn tell_words<F: Sink>(words: &[&str], wrong: Wrong<'_>, faults: &mut F)
    ensures told { IsPushed F.took F.faults faults.old faults.new (complaint_line wrong.entry.complaint wrong.entry.word.now
        (guess_of wrong.entry.complaint (map (λ word. word.now) words.now) wrong.entry.word.now)) }
{
    let mut line = [0u8; 512];
    let guess = guess_of(wrong.complaint, words, wrong.word);
    let length = put_complaint(wrong.complaint, wrong.word, guess, &mut line);
    let _pushed = push_all(faults, &line[..length]);
}

// Writes the line of a complaint at the front of a buffer, and answers its length.
#[tactic(auto, unfolding(crate::specs::Complaints::complaint_line))]
fn put_complaint(
    complaint: Complaint,
    word: &str,
    guess: Option<&str>,
    buffer: &mut [u8; 512],
) -> usize
    ensures fits { result ≤ 512 }
    ensures line { take result buffer.new ≡ complaint_line complaint word.now (option_map (λ it. it.now) guess.entry) }
{
    let at = put(buffer, 0, b"capdiag: ");
    let at = put(buffer, at, front_text(complaint));
    let at = put_subject(buffer, at, complaint, word);
    let at = put(buffer, at, b";");
    let at = put_question(buffer, at, guess);
    put(buffer, at, b" see capdiag --help\n")
}

// Writes the word, where the complaint is of one.
fn put_subject(buffer: &mut [u8], at: usize, complaint: Complaint, word: &str) -> usize
    requires room { at + 258 ≤ length buffer.old }
    ensures written { Writes at (subject complaint word.now) buffer.old buffer.new result }
    ensures fits { result ≤ at + 258 }
{
    match complaint {
        Complaint::NoCommand => at,
        _ => put_quoted(buffer, at, word),
    }
}

// Writes the question whether another word was meant, where there is one.
fn put_question(buffer: &mut [u8], at: usize, guess: Option<&str>) -> usize
    requires room { at + 80 ≤ length buffer.old }
    ensures written { Writes at (question (option_map (λ it. it.now) guess.entry)) buffer.old buffer.new result }
    ensures fits { result ≤ at + 80 }
{
    match guess {
        Some(guess) => {
            let at = put(buffer, at, b" did you mean ");
            let at = put(buffer, at, front(guess.as_bytes()));
            put(buffer, at, b"?")
        }
        None => at,
    }
}

/// Pushes the line that says that a file cannot be opened. Where the sink fails it took a beginning of the line.
pub fn tell_unopened<F: Sink>(path: &str, reason: Unopened, faults: &mut F)
    ensures told { IsPushed F.took F.faults faults.old faults.new (unopened_line path.now reason) }
{
    let mut line = [0u8; 512];
    let length = put_unopened(path, reason, &mut line);
    let _pushed = push_all(faults, &line[..length]);
}

// Writes that line at the front of a buffer, and answers its length.
#[tactic(auto, unfolding(crate::specs::Complaints::unopened_line))]
fn put_unopened(path: &str, reason: Unopened, buffer: &mut [u8; 512]) -> usize
    ensures fits { result ≤ 512 }
    ensures line { take result buffer.new ≡ unopened_line path.now reason }
{
    let at = put(buffer, 0, b"capdiag: cannot open ");
    let at = put_quoted(buffer, at, path);
    let at = put(buffer, at, b": ");
    let at = put(buffer, at, reason_text(reason));
    put(buffer, at, b"\n")
}

/// Pushes the line that says that a log is read from the terminal. Where the sink fails it took a beginning of the line.
pub fn tell_waiting<F: Sink>(faults: &mut F)
    ensures told { IsPushed F.took F.faults faults.old faults.new waiting_line }
{
    let _pushed = push_all(
        faults,
        b"capdiag: reading a log from the terminal; Ctrl-D ends it\n",
    );
}

/// Pushes the line that names the command for a log of another kind, with the name of its file if that is one of several. Where
/// the sink fails it took a beginning of the line.
pub fn tell_hint<F: Sink>(name: Option<&str>, kind: LogKind, faults: &mut F)
    ensures told { IsPushed F.took F.faults faults.old faults.new (hint_line (option_map (λ it. it.now) name.entry) kind) }
{
    tell_of_log(name, hint_text(kind), faults)
}

/// Pushes in the same way the line that says how a log is packed.
pub fn tell_packed<F: Sink>(name: Option<&str>, packing: Packing, faults: &mut F)
    ensures told { IsPushed F.took F.faults faults.old faults.new (packed_line (option_map (λ it. it.now) name.entry) packing) }
{
    tell_of_log(name, packed_text(packing), faults)
}

// Pushes the line that tells something of a log.
#[tactic(auto, unfolding(crate::specs::Complaints::told_line))]
fn tell_of_log<F: Sink>(name: Option<&str>, text: &[u8], faults: &mut F)
    requires short { length text.now ≤ 64 }
    ensures told { IsPushed F.took F.faults faults.old faults.new (told_line (option_map (λ it. it.now) name.entry) text.now) }
{
    let mut line = [0u8; 512];
    let at = put(&mut line, 0, b"capdiag: ");
    let at = put_name(&mut line, at, name);
    let at = put(&mut line, at, text);
    let length = put(&mut line, at, b"\n");
    let _pushed = push_all(faults, &line[..length]);
}

// What is told of a log of this kind.
fn hint_text(kind: LogKind) -> &'static [u8]
    ensures text { result.now ≡ hint_text kind }
    ensures short { length result.now ≤ 64 }
{
    match kind {
        LogKind::Machine => b"this is a log of version 1 or 2; capdiag why judges it",
        LogKind::Heap => b"this is the log of an allocator; capdiag heap judges it",
        LogKind::Run => b"this is a run log; capdiag run judges it",
    }
}

// What is told of a log that is packed.
fn packed_text(packing: Packing) -> &'static [u8]
    ensures text { result.now ≡ packed_text packing }
    ensures short { length result.now ≤ 64 }
{
    match packing {
        Packing::Gzip => b"this is packed by gzip; unpack it first",
        Packing::Xz => b"this is packed by xz; unpack it first",
        Packing::Zstandard => b"this is packed by zstd; unpack it first",
        Packing::Zip => b"this is packed by zip; unpack it first",
    }
}

/// Writes the name of a file, if there is one.
pub(crate) fn put_name(buffer: &mut [u8], at: usize, name: Option<&str>) -> usize
    requires room { at + 260 ≤ length buffer.old }
    ensures written { Writes at (named (option_map (λ it. it.now) name.entry)) buffer.old buffer.new result }
    ensures fits { result ≤ at + 260 }
{
    match name {
        Some(name) => {
            let at = put_quoted(buffer, at, name);
            put(buffer, at, b": ")
        }
        None => at,
    }
}

// Writes the first 64 bytes of a word in quotes.
#[tactic(auto, unfolding(crate::specs::Complaints::quoted))]
fn put_quoted(buffer: &mut [u8], at: usize, word: &str) -> usize
    requires room { at + 258 ≤ length buffer.old }
    ensures written { Writes at (quoted word.now) buffer.old buffer.new result }
    ensures fits { result ≤ at + 258 }
{
    let at = put(buffer, at, b"'");
    let at = put_shown(buffer, at, front(word.as_bytes()));
    put(buffer, at, b"'")
}

// The first 64 bytes.
fn front(bytes: &[u8]) -> &[u8]
    ensures value { result.now ≡ take 64 bytes.now }
    ensures few { length result.now ≤ 64 }
{
    &bytes[..bytes.len().min(64)]
}

// What stands before the word.
fn front_text(complaint: Complaint) -> &'static [u8]
    ensures text { result.now ≡ front_text complaint }
    ensures short { length result.now ≤ 64 }
{
    match complaint {
        Complaint::NoCommand => b"no command",
        Complaint::UnknownCommand => b"unknown command ",
        Complaint::UnknownOption => b"unknown option ",
        Complaint::NoValue => b"held, used or both is missing after ",
        Complaint::UnknownValue => b"--freed takes held, used or both, not ",
        Complaint::NoCount => b"a number from 0 to 99 is missing after ",
        Complaint::UnknownCount => b"--context takes a number from 0 to 99, not ",
        Complaint::Twice => b"given twice: ",
        Complaint::Alone => b"other words beside ",
    }
}

/// A reason in words.
pub(crate) fn reason_text(reason: Unopened) -> &'static [u8]
    ensures text { result.now ≡ reason_text reason }
    ensures short { length result.now ≤ 32 }
{
    match reason {
        Unopened::Missing => b"no such file",
        Unopened::Denied => b"permission denied",
        Unopened::Directory => b"is a directory",
        Unopened::Through => b"a part of the path is a file",
        Unopened::Long => b"the name is too long",
        Unopened::Circle => b"a circle of symbolic links",
        Unopened::Other => b"the system refuses it",
    }
}
