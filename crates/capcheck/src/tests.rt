//! The words of the program, and what it does for them: over readers and writers in memory, also such as fail.

use crate::rows::ROWS;
use crate::{Order, read_words, run};
use std::alloc::{AllocError, Global};
use std::io;
use std::io::{ErrorKind, Read, Write};

const READ_FAULT: &[u8] = b"capcheck: read fault\n";

const WRITE_FAULT: &[u8] = b"capcheck: write fault\n";

// A reader that gives one byte a read, and fails after the last.
#[derive(Drop)]
struct Failing<'a> {
    left: &'a [u8],
}

impl Read for Failing<'_> {
    fn read(&mut self, buffer: &mut [u8]) -> io::Result<usize> {
        match (buffer.first_mut(), self.left.split_first()) {
            (Some(room), Some((byte, rest))) => {
                *room = *byte;
                self.left = rest;
                Ok(1)
            }
            _ => Err(io::Error::from(ErrorKind::BrokenPipe)),
        }
    }
}

// A writer that takes one byte a write, has room for so many, and may fail to hand them on.
#[derive(Drop)]
struct Narrow {
    written: Vec<u8>,
    room: usize,
    is_flushed: bool,
}

impl Write for Narrow {
    fn write(&mut self, bytes: &[u8]) -> io::Result<usize> {
        match bytes.first() {
            Some(byte) if self.written.len() < self.room && self.written.push(*byte).is_ok() => Ok(
                1,
            ),
            _ => Err(io::Error::from(ErrorKind::BrokenPipe)),
        }
    }

    fn flush(&mut self) -> io::Result<()> {
        if self.is_flushed {
            Ok(())
        } else {
            Err(io::Error::from(ErrorKind::BrokenPipe))
        }
    }
}

// A run that is worked: its order, its input, and its status and its texts.
#[derive(Clone, Copy)]
struct Worked<'a> {
    order: Option<Order<'a>>,
    input: &'a [u8],
    status: u8,
    out: &'a [u8],
    err: &'a [u8],
}

// The lines of a row after a mark.
fn lines_behind(alloc: Global, row: &str, mark: &str) -> Result<Vec<u8>, AllocError> {
    let mut text = Vec::new(alloc);
    for line in row.split('\n') {
        if let Some(rest) = line.strip_prefix(mark) {
            text.extend_from_slice(rest.replace(alloc, " / ", "\n")?.as_bytes())?;
            text.push(b'\n')?;
        }
    }
    Ok(text)
}

// The words of a run.
fn words_of<'a>(alloc: Global, run: &'a str) -> Result<Vec<&'a str>, AllocError> {
    let mut words = Vec::new(alloc);
    for word in run.split_whitespace() {
        words.push(if word == "''" { "" } else { word })?;
    }
    Ok(words)
}

// What the order reads: the row's input, unless its file is not there or it reads none.
fn input_of<'a>(order: Option<Order<'_>>, input: &'a [u8]) -> Option<&'a [u8]> {
    match order? {
        Order::Judge { file, .. } => match file {
            None | Some("log") => Some(input),
            Some(_) => None,
        },
        Order::Vectors { file } => { if file == "file" { Some(input) } else { None } }
        Order::Explain { .. } | Order::Round { .. } => None,
    }
}

// Whether a text is the one that is wanted, in which a line `..` stands for any lines.
fn agrees(text: &[u8], wanted: &[u8]) -> bool {
    match wanted {
        [b'.', b'.', b'\n', middle @ .., b'.', b'.', b'\n'] => {
            (0..text.len()).any(|at| text[at..].starts_with(middle))
        }
        [b'.', b'.', b'\n', end @ ..] => text.ends_with(end),
        _ => text == wanted,
    }
}

// Whether the run has its status and its texts. If it is shown or judged, its output then fails after each byte
// and when it is handed on, and its input fails after each byte, up to the one that decides.
fn holds(alloc: Global, worked: Worked<'_>) -> Result<bool, AllocError> {
    let Worked {
        order,
        input,
        status,
        out,
        err,
    } = worked;
    let (mut text, mut told) = (Vec::new(alloc), Vec::new(alloc));
    let input = input_of(order, input);
    let ended = run(alloc, order, input, &mut text, &mut told);
    if ended != status || !agrees(text.as_slice(), out) || told.as_slice() != err {
        return Ok(false);
    }
    Ok(
        status > 1
            || (outputs_fail(alloc, order, input, text.as_slice())
                && inputs_fail(alloc, order, input, status, text.as_slice())),
    )
}

fn outputs_fail(
    alloc: Global,
    order: Option<Order<'_>>,
    input: Option<&[u8]>,
    text: &[u8],
) -> bool {
    for room in 0..text.len().saturating_add(1) {
        let mut out = Narrow {
            written: Vec::new(alloc),
            room,
            is_flushed: room < text.len(),
        };
        let mut told = Vec::new(alloc);
        let status = run(alloc, order, input, &mut out, &mut told);
        if status != 3
            || told.as_slice() != WRITE_FAULT
            || Some(out.written.as_slice()) != text.get(..room)
        {
            return false;
        }
    }
    true
}

fn inputs_fail(
    alloc: Global,
    order: Option<Order<'_>>,
    input: Option<&[u8]>,
    status: u8,
    text: &[u8],
) -> bool {
    let Some(input) = input else {
        return true;
    };
    let mut is_decided = false;
    for at in 0..input.len().saturating_add(1) {
        let reader = Failing { left: &input[..at] };
        let (mut out, mut told) = (Vec::new(alloc), Vec::new(alloc));
        let ended = run(alloc, order, Some(reader), &mut out, &mut told);
        let is_fault = ended == 3 && told.as_slice() == READ_FAULT && out.is_empty();
        let is_same = ended == status && told.is_empty() && out.as_slice() == text;
        is_decided = is_decided || is_same;
        if if is_decided { !is_same } else { !is_fault } {
            return false;
        }
    }
    // A `yes`, a pass and a `no` on no bytes need the end of the input.
    is_decided == (status == 1 && !input.is_empty())
}

// The first run of a row that ends otherwise.
fn other_run<'a>(alloc: Global, row: &'a str) -> Result<Option<&'a str>, AllocError> {
    let input = lines_behind(alloc, row, "| ")?;
    let out = lines_behind(alloc, row, "= ")?;
    let err = lines_behind(alloc, row, "! ")?;
    for line in row.split('\n') {
        let (status, runs) = line.split_once(' ').unwrap_or((line, ""));
        let Ok(status) = status.parse::<u8>() else {
            continue;
        };
        for words in runs.split(" / ") {
            let worked = Worked {
                order: read_words(words_of(alloc, words)?.as_slice()),
                input: input.as_slice(),
                status,
                out: out.as_slice(),
                err: err.as_slice(),
            };
            if !holds(alloc, worked)? {
                return Ok(Some(words));
            }
        }
    }
    Ok(None)
}

// The first run of the rows that ends otherwise.
fn first_other(alloc: Global) -> Result<Option<&'static str>, AllocError> {
    for row in ROWS.split("\n\n") {
        let other = other_run(alloc, row)?;
        if other.is_some() {
            return Ok(other);
        }
    }
    Ok(None)
}

#[test]
fn words_and_what_is_printed_for_them(rt: HostRuntime) {
    assert_eq!(rt; first_other(rt.alloc()), Ok(None));
}
