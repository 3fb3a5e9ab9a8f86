//! How many of several files were accepted, and by which refusals the others were rejected.

ghost use Rattle.std.specs.Prelude.{◌≡◌, ◌++◌, ◌<◌, decimal, flat_map, length, IfOk, IfSome, OnErr, OnOk};
ghost use Rattle.cap_program.specs.Doings.{IsPushed};
ghost use Rattle.capdiag.specs.Tallies.{no_files, one_more, place_in, row_of, row_text, rows_of, rows_text, summary_line, tally_of};
ghost use Rattle.capdiag.specs.Tallies.{comma_text, unread_text, with_accepted, with_rejected, with_unread};

use cap_log::buffers::put_decimal;
use cap_log::{Sink, push_all};
use std::alloc::{AllocError, Global};

/// A refusal by its name, and how many logs have it.
#[derive(Drop)]
struct Row {
    name: Vec<u8>,
    count: u64,
}

/// The verdicts on several files.
#[derive(Drop)]
pub struct Tally {
    accepted: u64,
    rejected: u64,
    // Files that could not be opened.
    unread: u64,
    // The refusals, in the order in which they came.
    rows: Vec<Row>,
}

impl Tally {
    /// No file was judged yet.
    pub fn new(alloc: Global) -> Tally
        ensures none { tally_of result ≡ no_files }
    {
        Tally {
            accepted: 0,
            rejected: 0,
            unread: 0,
            rows: Vec::new(alloc),
        }
    }

    /// Counts a file that was accepted.
    pub fn accept(&mut self)
        ensures counted { tally_of self.new ≡ with_accepted (tally_of self.old) }
    {
        self.accepted = self.accepted.saturating_add(1);
    }

    /// Counts a file that could not be opened.
    pub fn pass_over(&mut self)
        ensures counted { tally_of self.new ≡ with_unread (tally_of self.old) }
    {
        self.unread = self.unread.saturating_add(1);
    }

    /// Counts a file that was rejected, by the name of the refusal.
    pub fn reject(&mut self, alloc: Global, name: &[u8]) -> Result<(), AllocError>
        ensures counted { OnOk result (tally_of self.new ≡ with_rejected name.now (tally_of self.old)) }
    {
        count_in(alloc, &mut self.rows, name)?;
        self.rejected = self.rejected.saturating_add(1);
        Ok(())
    }
}

// The place of a refusal among rows.
fn place_of(rows: &[Row], name: &[u8]) -> Option<usize>
    ensures value { result ≡ place_in name.now rows.now }
    ensures inside { IfSome result (λ place. place < length rows.now) }
{
    rows.iter().position(|row| row.name.as_slice() == name)
}

// Counts one log more of a refusal: in its row, or in a new one at the end.
fn count_in(alloc: Global, rows: &mut Vec<Row>, name: &[u8]) -> Result<(), AllocError>
    ensures counted { OnOk result (rows_of rows.new.items ≡ one_more name.now (rows_of rows.old.items)) }
{
    match place_of(rows.as_slice(), name) {
        Some(place) => rows[place].count = rows[place].count.saturating_add(1),
        None => {
            let mut own = Vec::new(alloc);
            own.extend_from_slice(name)?;
            rows.push(Row {
                name: own,
                count: 1,
            })?;
        }
    }
    Ok(())
}

// Appends a number.
#[tactic(auto, using(cap_log::proofs::ElementLemmas::short_decimal))]
fn push_number(text: &mut Vec<u8>, number: u64) -> Result<(), AllocError>
    ensures ok { OnOk result (text.new.items ≡ text.old.items ++ decimal number) }
{
    let mut buffer = [0u8; 20];
    let length = put_decimal(&mut buffer, 0, number);
    text.extend_from_slice(&buffer[..length])
}

// Appends a row.
fn push_row(text: &mut Vec<u8>, row: &Row) -> Result<(), AllocError>
    ensures ok { OnOk result (text.new.items ≡ text.old.items ++ row_text (row_of row.now)) }
{
    push_number(text, row.count)?;
    text.push(b' ')?;
    text.extend_from_slice(row.name.as_slice())
}

// Appends rows, each after a comma.
fn push_more(text: &mut Vec<u8>, rows: &[Row]) -> Result<(), AllocError>
    ensures ok { OnOk result (text.new.items ≡ text.old.items ++ flat_map comma_text (rows_of rows.now)) }
{
    let Some((row, rows)) = rows.split_first() else {
        return Ok(());
    };
    text.extend_from_slice(b", ")?;
    push_row(text, row)?;
    push_more(text, rows)
}

// Appends rows, the first after a colon.
fn push_rows(text: &mut Vec<u8>, rows: &[Row]) -> Result<(), AllocError>
    ensures ok { OnOk result (text.new.items ≡ text.old.items ++ rows_text (rows_of rows.now)) }
{
    let Some((row, rows)) = rows.split_first() else {
        return Ok(());
    };
    text.extend_from_slice(b": ")?;
    push_row(text, row)?;
    push_more(text, rows)
}

// Appends how many files could not be opened, if any.
fn push_unread(text: &mut Vec<u8>, count: u64) -> Result<(), AllocError>
    ensures ok { OnOk result (text.new.items ≡ text.old.items ++ unread_text count) }
{
    if count > 0 {
        text.extend_from_slice(b"; ")?;
        push_number(text, count)?;
        text.extend_from_slice(b" not opened")?;
    }
    Ok(())
}

// The line that tells all of it.
#[tactic(auto, unfolding(crate::specs::Tallies::summary_line))]
fn summary(alloc: Global, tally: &Tally) -> Result<Vec<u8>, AllocError>
    ensures line { IfOk result (λ line. line.items ≡ summary_line (tally_of tally.now)) }
{
    let mut line = Vec::new(alloc);
    line.extend_from_slice(b"capdiag: ")?;
    push_number(&mut line, tally.accepted)?;
    line.extend_from_slice(b" accepted, ")?;
    push_number(&mut line, tally.rejected)?;
    line.extend_from_slice(b" rejected")?;
    push_rows(&mut line, tally.rows.as_slice())?;
    push_unread(&mut line, tally.unread)?;
    line.push(b'\n')?;
    Ok(line)
}

/// Pushes the line that tells how many files were accepted, rejected and not opened. Where the sink fails it took a beginning of the
/// line.
pub fn tell_summary<F: Sink>(alloc: Global, tally: &Tally, faults: &mut F) -> Result<(), AllocError>
    ensures told { OnOk result (IsPushed F.took F.faults faults.old faults.new (summary_line (tally_of tally.now))) }
    ensures untold { OnErr result (faults.new ≡ faults.old) }
{
    let line = summary(alloc, tally)?;
    let _pushed = push_all(faults, line.as_slice());
    Ok(())
}
