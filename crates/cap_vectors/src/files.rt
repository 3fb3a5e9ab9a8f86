//! Vector files: lines of operands and of what is said of them, by which two implementations compare themselves.

ghost use Rattle.std.specs.Prelude.{◌≢◌, MatchBool};
ghost use Rattle.cap_streams.specs.Streams.{CountsFault};
ghost use Rattle.cap_vectors.specs.{VectorFiles.{Checked, FailsWhole, last_line}, Vectors.IsTrueLine};

use crate::statements::is_true_line;
use cap_log::{Lines, Next, PullFault, Source};

/// The number of the line that fails whatever it holds, so that no file goes on for ever.
const LAST_LINE: u64 = 0xffff_ffff_ffff_ffff;

/// What is said of a vector file.
#[derive(Debug, Clone, Copy, PartialEq, Eq)]
pub enum VectorVerdict {
    /// Each of its lines states something true.
    Pass {
        /// How many lines it has.
        lines: u64,
    },
    /// One of its lines fails.
    Fail {
        /// The number of the first line that fails, from 1 on.
        line: u64,
    },
}

/// Checks the lines of a vector file that a source gives, each as soon as it is there. It is `Pass` exactly
/// if each line states something true, there are fewer than 2^64 - 1 of them, and the source has ended at
/// a line's start. Otherwise it is `Fail` with the first line that is too long, lacks its line feed, has no
/// form, states something false, or has the number 2^64 - 1: if the source has not ended, whatever bytes
/// follow.
///
/// A `PullFault` comes only if the source failed; then the whole lines that it gave state something true,
/// and less than a line follows them. It takes no memory.
///
/// ```rust
/// let file = b"keeps ffff1ffffc0180040000000000000000 0000000000001000 = 1\n";
/// let verdict = vectors(&mut SliceSource::new(file, &[]));
/// assert_eq!(rt; verdict, Ok(VectorVerdict::Pass { lines: 1 }));
/// ```
pub fn vectors<S: Source>(source: &mut S) -> Result<VectorVerdict, PullFault>
    ensures checked { Checked S.gave S.ended source.old source.new result }
    ensures counted { CountsFault (S.faults source.old) (S.faults source.new) result }
{
    let mut lines = Lines::new();
    let mut passed = 0u64;
    'lines: loop {
        match lines.next(source) {
            Err(PullFault) => return Err(PullFault),
            Ok(Next::Finished) => return Ok(VectorVerdict::Pass { lines: passed }),
            Ok(Next::Truncated) => return Ok(VectorVerdict::Fail { line: passed + 1 }),
            Ok(Next::LineTooLong) => return Ok(VectorVerdict::Fail { line: passed + 1 }),
            Ok(Next::Line(text)) => {
                let line = passed + 1;
                if is_failing(line, text) {
                    return Ok(VectorVerdict::Fail { line });
                }
                passed = line;
            }
        }
    }
}

// Whether a whole line fails: it is the last one, or it states nothing true.
fn is_failing(line: u64, text: &[u8]) -> bool
    ensures { MatchBool result (FailsWhole line text.now) ((line ≢ last_line) × IsTrueLine text.now) }
{
    line == LAST_LINE || !is_true_line(text)
}
