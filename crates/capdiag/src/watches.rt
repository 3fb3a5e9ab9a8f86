//! A reader that tells how far it was read, and writers that clear that from a terminal first.

use crate::progress::{Reading, read_on, tell_progress};
use cap_log::WriteSink;
use std::cell::Cell;
use std::io::{self, Read, Write};
use std::time::{Clock, Instant};

// After how many milliseconds a terminal is told by itself, and how long it then shows the same.
const PATIENCE: u64 = 2000;

const REFRESH: u64 = 500;

// How many milliseconds pass between the lines that are told elsewhere.
const INTERVAL: u64 = 5000;

/// How it is told how far the reading is.
#[derive(Drop)]
pub struct Telling {
    // When the program began.
    began: Instant,
    // Whether a line of a terminal shows it.
    is_drawn: bool,
    // Whether that line shows it now.
    is_shown: Cell<bool>,
    // When it is told next, in milliseconds since the program began.
    due: Cell<u64>,
}

impl Telling {
    /// It is told on a terminal, or else, if it is asked for, by lines; none if it isn't told, or there is no clock.
    pub fn new<C: Clock>(clock: &C, is_terminal: bool, is_asked: bool) -> Option<Telling> {
        if !is_terminal && !is_asked {
            return None;
        }
        let began = Instant::now(clock).ok()?;
        let due = if !is_terminal {
            INTERVAL
        } else if is_asked {
            REFRESH
        } else {
            PATIENCE
        };
        Some(Telling {
            began,
            is_drawn: is_terminal,
            is_shown: Cell::new(false),
            due: Cell::new(due),
        })
    }

    // Whether it is to be told at this time. It then is told again only after a while.
    fn is_due(&self, milliseconds: u64) -> bool {
        if milliseconds < self.due.get() {
            return false;
        }
        let pause = if self.is_drawn { REFRESH } else { INTERVAL };
        self.due.set(milliseconds.saturating_add(pause));
        true
    }
}

// The milliseconds from one moment to another.
fn milliseconds(from: Instant, to: Instant) -> u64 {
    u64::try_from(to.duration_since(from).as_millis()).unwrap_or(u64::MAX)
}

// How far a reader was read, of which file, and since when.
#[derive(Drop)]
struct Watch<'a, C: Clock, E: Write> {
    telling: &'a Telling,
    clock: &'a C,
    errors: E,
    name: Option<&'a str>,
    began: Instant,
    reading: Reading,
}

impl<'a, C: Clock, E: Write> Watch<'a, C, E> {
    // Notes what was read, and tells it if that is due.
    fn note(&mut self, piece: &[u8]) {
        self.reading = read_on(self.reading, piece);
        let Ok(now) = Instant::now(self.clock) else {
            return;
        };
        let telling = self.telling;
        if telling.is_due(milliseconds(telling.began, now)) {
            telling.is_shown.set(telling.is_drawn);
            tell_progress(
                self.name,
                self.reading,
                milliseconds(self.began, now),
                telling.is_drawn,
                &mut WriteSink::new(&mut self.errors),
            );
        }
    }
}

/// A reader, and how far it was read, if that is told.
#[derive(Drop)]
pub struct Watched<'a, R: Read, C: Clock, E: Write> {
    reader: R,
    watch: Option<Watch<'a, C, E>>,
}

impl<'a, R: Read, C: Clock, E: Write + Drop> Watched<'a, R, C, E> {
    /// Nothing was read yet, of so many bytes in all if that is known.
    pub fn new(
        reader: R,
        clock: &'a C,
        errors: E,
        telling: Option<&'a Telling>,
        name: Option<&'a str>,
        whole: Option<u64>,
    ) -> Watched<'a, R, C, E> {
        let reading = Reading {
            bytes: 0,
            lines: 0,
            whole,
        };
        let watch = match (telling, Instant::now(clock)) {
            (Some(telling), Ok(began)) => Some(Watch {
                telling,
                clock,
                errors,
                name,
                began,
                reading,
            }),
            _ => None,
        };
        Watched { reader, watch }
    }
}

impl<'a, R: Read, C: Clock, E: Write> Read for Watched<'a, R, C, E> {
    ghost remaining = { λ s. R.remaining s.reader };

    fn read(&mut self, buffer: &mut [u8]) -> io::Result<usize> {
        match self.reader.read(buffer) {
            Ok(count) => {
                if let Some(watch) = &mut self.watch {
                    watch.note(&buffer[..count]);
                }
                Ok(count)
            }
            Err(error) => Err(error),
        }
    }
}

/// A writer that is lent, before whose first bytes a terminal no longer shows how far the reading is.
#[derive(Drop)]
pub struct Clearing<'a, W: Write, E: Write> {
    writer: &'a mut W,
    errors: E,
    telling: Option<&'a Telling>,
}

impl<'a, W: Write, E: Write> Clearing<'a, W, E> {
    /// What is written is written to this writer.
    pub fn new(writer: &'a mut W, errors: E, telling: Option<&'a Telling>) -> Clearing<'a, W, E> {
        Clearing {
            writer,
            errors,
            telling,
        }
    }
}

// Clears the line of the terminal, if it shows how far the reading is.
fn clear<E: Write>(telling: Option<&Telling>, errors: &mut E) {
    let Some(telling) = telling else {
        return;
    };
    if telling.is_shown.get() {
        telling.is_shown.set(false);
        let _written = errors.write(b"\r\x1b[K");
    }
}

impl<'a, W: Write, E: Write> Write for Clearing<'a, W, E> {
    ghost contents = { λ s. W.contents s.writer.now };

    fn write(&mut self, bytes: &[u8]) -> io::Result<usize> {
        clear(self.telling, &mut self.errors);
        self.writer.write(bytes)
    }

    fn flush(&mut self) -> io::Result<()> {
        self.writer.flush()
    }
}
