//! The lines of a source, and what some bytes begin with, as far as lines go.

ghost use Rattle.std.specs.Prelude.{◌≡◌, ◌+◌, ◌<◌, [], true, false, None, Ok, IfOk, OnErr, OnOk};
ghost use Rattle.cap_streams.specs.{declared.lines.{Front.TheVariants.Cut, Over.Over}, Front.IsCut};
ghost use Rattle.cap_streams.specs.Streams.{CountsFault, next_count};

use crate::fronts::front;
use crate::read_buffer::ReadBuffer;
use crate::sources::{PullFault, Source};

/// What some bytes begin with.
#[derive(Clone, Copy, Debug, PartialEq, Eq)]
pub enum Front {
    /// A whole line: its length in bytes, before its line feed.
    Line(usize),
    /// More than 95 bytes before any line feed.
    TooLong,
    /// At most 95 bytes, and no line feed among them.
    Cut,
}

/// What the next call answers.
#[derive(Clone, Copy, Debug, PartialEq, Eq)]
pub enum Next<'a> {
    /// A line, without its line feed.
    Line(&'a [u8]),
    /// More than 95 bytes before any line feed.
    LineTooLong,
    /// The source ended in the middle of a line.
    Truncated,
    /// The source ended at a line's start.
    Finished,
}

/// Why there are no more lines.
#[derive(Clone, Copy, Debug, PartialEq, Eq)]
pub enum Over {
    /// The source failed.
    Failed,
    /// More than 95 bytes came before any line feed.
    TooLong,
    /// The source ended in the middle of a line.
    Truncated,
    /// The source ended at a line's start.
    Finished,
}

/// The lines of a source's bytes. It holds what was pulled and not yet lent.
#[derive(Drop)]
pub struct Lines {
    pulled: ReadBuffer,
    over: Option<Over>,
}

impl Lines {
    ghost use Rattle.std.specs.{Borrow.sem, Io.BufRead.Rests};
    ghost use Rattle.cap_streams.specs.{Takings.{kept, over_of, Found, Answered, Again}, contracts.lines.Lines.the_row};

    /// Nothing was pulled yet.
    pub fn new() -> Lines
        ensures kept { kept result ≡ [] }
        ensures begins { over_of result ≡ None }
    {
        Lines {
            pulled: ReadBuffer::new(),
            over: None,
        }
    }

    /// The next line of the bytes that are kept followed by those that the source gives, or why there is
    /// none: more than 95 bytes without a line feed, or the end of the source. After any other answer than
    /// a line it answers the same from then on, without pulling.
    pub fn next<S: Source>(&mut self, source: &mut S) -> Result<Next<'_>, PullFault>
        ensures* answers { sem 𝓛 (Rests the_row self.entry (λ new.
            (over_of self.old ≡ None → Answered S.gave S.ended source.old source.new (kept self.old) new result)
            × Again source.old source.new self.old new result)) }
        ensures counted { OnOk result (S.faults source.new ≡ S.faults source.old) }
        ensures fault_counted { OnErr result (over_of self.old ≡ None → S.faults source.new ≡ next_count (S.faults source.old)) }

        // What is kept is answered before anything is pulled.
        ensures kept_first { (IsCut (kept self.old) → ⊥) → source.new ≡ source.old }
    {
        if let Some(over) = self.over {
            return match over {
                Over::Failed => Err(PullFault),
                Over::TooLong => Ok(Next::LineTooLong),
                Over::Truncated => Ok(Next::Truncated),
                Over::Finished => Ok(Next::Finished),
            };
        }
        match self.find(source) {
            Err(PullFault) => {
                self.over = Some(Over::Failed);
                Err(PullFault)
            }
            Ok(Front::TooLong) => {
                self.over = Some(Over::TooLong);
                Ok(Next::LineTooLong)
            }
            Ok(Front::Cut) => {
                if self.pulled.as_slice().is_empty() {
                    self.over = Some(Over::Finished);
                    Ok(Next::Finished)
                } else {
                    self.over = Some(Over::Truncated);
                    Ok(Next::Truncated)
                }
            }
            Ok(Front::Line(length)) => {
                let start = self.pulled.start();
                self.pulled.consume(length + 1);
                Ok(Next::Line(self.pulled.before(start, length)))
            }
        }
    }

    /// The bytes that were pulled and not yet lent.
    pub fn kept(&self) -> &[u8]
        ensures value { result.now ≡ kept self.now }
    {
        self.pulled.as_slice()
    }

    // Finds the front of what is kept, pulling while that is cut.
    fn find<S: Source>(&mut self, source: &mut S) -> Result<Front, PullFault>
        ensures over { self.new.over ≡ self.old.over }
        ensures ok { IfOk result (Found S.gave source.old source.new (kept self.old) (kept self.new)) }
        ensures end { result ≡ Ok Cut → S.ended source.new ≡ true }
        ensures err { OnErr result (Found S.gave source.old source.new (kept self.old) (kept self.new) Cut) }
        ensures no_end { OnErr result (S.ended source.new ≡ false) }
        ensures counted { CountsFault (S.faults source.old) (S.faults source.new) result }
        ensures kept_first { (IsCut (kept self.old) → ⊥) → source.new ≡ source.old }
    {
        loop {
            let found = front(self.pulled.as_slice());
            let Front::Cut = found else {
                return Ok(found);
            };
            match self.pulled.fill(source) {
                Ok(0) => return Ok(Front::Cut),
                Ok(_) => {}
                Err(PullFault) => return Err(PullFault),
            }
        }
    }
}
