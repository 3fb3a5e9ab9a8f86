//! Worked logs and vector files, as the program reads them.

use crate::told::text_holds;
use crate::vector_files::vectors_hold;
use crate::ways::{line_from, verdict_holds};
use cap_judge::judge_bytes;
use std::alloc::{AllocError, Global};

/// A log or a vector file, and the text that belongs to it.
#[derive(Drop)]
pub struct Row<'a> {
    name: &'a str,
    log: Vec<u8>,
    text: Vec<u8>,
}

impl<'a> Row<'a> {
    /// No line of a row was added yet.
    pub fn new(alloc: Global) -> Row<'a> {
        Row {
            name: "",
            log: Vec::new(alloc),
            text: Vec::new(alloc),
        }
    }

    /// What the row shows.
    pub fn name(&self) -> &'a str {
        self.name
    }

    /// Whether the row has no text.
    pub fn is_empty(&self) -> bool {
        self.text.is_empty()
    }

    /// Adds a line of the row.
    pub fn add(&mut self, line: &'a str) -> Result<(), AllocError> {
        let bytes = line.as_bytes();
        let rest = bytes.get(2..).unwrap_or(b"");
        match bytes.first() {
            Some(b'|') => append(&mut self.log, rest, b"\n"),
            Some(b'~') => append(&mut self.log, rest, b"\r\n"),
            Some(b'!') => append(&mut self.log, rest, b""),
            Some(b'=') => append(&mut self.text, rest, b"\n"),
            _ => {
                self.name = line;
                Ok(())
            }
        }
    }

    /// Whether the log or the vector file gets its text.
    pub fn holds(&self, alloc: Global) -> Result<bool, AllocError> {
        let (log, text) = (self.log.as_slice(), self.text.as_slice());
        if self.name.starts_with('+') {
            return vectors_hold(alloc, log, text);
        }
        let Ok(verdict) = judge_bytes(alloc, log) else {
            return Ok(false);
        };
        let line = line_from(text, 0);
        if !verdict_holds(alloc, log, verdict, line, self.name.starts_with('#'))? {
            return Ok(false);
        }
        Ok(!self.name.starts_with('*') || text_holds(alloc, log, verdict, text))
    }
}

// Appends a line and its end.
fn append(out: &mut Vec<u8>, line: &[u8], end: &[u8]) -> Result<(), AllocError> {
    out.extend_from_slice(line)?;
    out.extend_from_slice(end)
}
