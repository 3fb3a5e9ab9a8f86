//! Explains why a log was rejected: judges it, and after a `no` reports what the machine held before the faulty line.
//! Also judges the log of a whole program's run with its objects, and that of an allocator: whether capabilities can
//! guard its objects.
#![tactic(auto)]

mod complaints;
mod forms;
mod fronts;
mod guesses;
mod help;
mod judges;
mod noting;
mod orders;
mod progress;
mod renderings;
mod runs;
mod tallies;
mod watches;
mod words;

pub use crate::complaints::{
    Complaint, Unopened, Wrong, tell_hint, tell_packed, tell_unopened, tell_waiting, tell_words,
};
pub use crate::forms::{Form, Look, is_json, is_plain, show_unopened};
pub use crate::fronts::{Packing, order_on, other_kind, packing_of, read_front};
pub use crate::noting::{Noting, name_in};
pub use crate::orders::{Judging, Order, Request, RunAsked, order_of};
pub use crate::progress::{Reading, read_on, tell_progress};
pub use crate::renderings::name_of;
pub use crate::runs::run;
pub use crate::tallies::{Tally, tell_summary};
pub use crate::watches::{Clearing, Telling, Watched};
pub use crate::words::read_words;
use cap_log::WriteSink;
pub use cap_program::carry_out;
use cap_program::{Fault, collect_words, tell, tell_of};
use std::alloc::AllocError;
use std::env::{self, VarError};
use std::fs::File;
use std::io::{ErrorKind, IsTerminal, Read, Write};
use std::process::ExitCode;

fn main(rt: HostRuntime) -> ExitCode {
    ExitCode::from(match answer(&rt) {
        Ok(status) => status,
        Err(AllocError) => fail(Fault::NoMemory, &mut rt.stderr()),
    })
}

// Tells a fault: the status of the program.
fn fail<F: Write>(fault: Fault, errors: &mut F) -> u8 {
    tell(b"capdiag: ", Err(fault), &mut WriteSink::new(errors));
    fault.status()
}

// Collects the words, and does what they ask for, or says why they ask for nothing.
fn answer(rt: &HostRuntime) -> Result<u8, AllocError> {
    let Some(texts) = collect_words(rt)? else {
        return Ok(fail(Fault::BadWords, &mut rt.stderr()));
    };
    let mut words = Vec::new(rt.alloc());
    for text in &texts {
        words.push(text.as_str())?;
    }
    let words = words.as_slice();
    match read_words(rt.alloc(), words)? {
        Ok(Request::Help) => Ok(show(rt, Order::Help)),
        Ok(Request::Version) => Ok(show(rt, Order::Version)),
        Ok(Request::Judge(judging, form, progress, files)) => {
            let form = with_colors(has_colors(rt), form);
            judge_files(rt, judging, form, progress, files.as_slice())
        }
        Err(wrong) => {
            tell_words(words, wrong, &mut WriteSink::new(&mut rt.stderr()));
            Ok(Fault::BadWords.status())
        }
    }
}

// Follows an order that reads no input: the status.
fn show(rt: &HostRuntime, order: Order) -> u8 {
    run(
        rt.alloc(),
        Some(order),
        None::<File>,
        &mut rt.stdout(),
        &mut rt.stderr(),
    )
}

// Judges each of these files in turn, or standard input if there is none: the greatest of their statuses. After several, tells
// how many were accepted and rejected, unless a fault of reading, writing or memory ended it.
fn judge_files(
    rt: &HostRuntime,
    judging: Judging,
    form: Form,
    progress: bool,
    files: &[&str],
) -> Result<u8, AllocError> {
    let telling = telling_of(rt, progress);
    let mut tally = Tally::new(rt.alloc());
    let mut status = 0u8;
    for number in 0..files.len().max(1) {
        let order = order_of(judging, form, files, number);
        let (own, goes_on) = judge_alone(rt, order, telling.as_ref(), &mut tally)?;
        status = status.max(own);
        if !goes_on {
            return Ok(status);
        }
    }
    if files.len() > 1 {
        tell_summary(rt.alloc(), &tally, &mut WriteSink::new(&mut rt.stderr()))?;
    }
    Ok(status)
}

// Whether standard output shows colors: it is a terminal that isn't dumb, and NO_COLOR isn't set or is empty.
fn has_colors(rt: &HostRuntime) -> bool {
    if !rt.stdout().is_terminal() {
        return false;
    }
    match env::var(rt, "NO_COLOR") {
        Err(VarError::NotPresent) => {}
        Ok(value) if value.is_empty() => {}
        _ => return false,
    }
    !is_dumb(rt)
}

// Whether the terminal takes no escape sequences, or doesn't say that it does.
fn is_dumb(rt: &HostRuntime) -> bool {
    match env::var(rt, "TERM") {
        Ok(terminal) => terminal.as_str() == "dumb",
        Err(_) => true,
    }
}

// How it is told how far the reading is, if it is.
fn telling_of(rt: &HostRuntime, is_asked: bool) -> Option<Telling> {
    let is_drawn = rt.stderr().is_terminal() && !is_dumb(rt);
    Telling::new(rt, is_drawn, is_asked)
}

// A form with colors, if there are any and it is shown as it is otherwise.
fn with_colors(has_colors: bool, form: Form) -> Form {
    if has_colors && is_plain(form.look) {
        return Form {
            look: Look::Colored,
            ..form
        };
    }
    form
}

// Judges a file or standard input, and counts it if it is one of several: the status, and whether the next file can be judged, which no fault of
// reading, writing or memory lets.
fn judge_alone(
    rt: &HostRuntime,
    order: Order,
    telling: Option<&Telling>,
    tally: &mut Tally,
) -> Result<(u8, bool), AllocError> {
    let (out, errors) = (&mut rt.stdout(), &mut rt.stderr());
    let mut out = Clearing::new(out, rt.stderr(), telling);
    let errors = &mut Clearing::new(errors, rt.stderr(), telling);
    let mut out = Noting::new(&mut out);
    let name = name_of(Look::Plain, files_of(order), file_of(order));
    let status = match file_of(order) {
        Some(path) => match open(rt, path) {
            Ok((file, whole)) => {
                let file = Watched::new(file, rt, rt.stderr(), telling, name, whole);
                judge(rt, order, file, &mut out, errors)
            }
            Err(reason) => {
                tell_unopened(path, reason, &mut WriteSink::new(errors));
                tally.pass_over();
                return Ok(pass_over(rt, order, path, reason, &mut out, errors));
            }
        },
        None => {
            let input = rt.stdin();
            let telling = if input.is_terminal() {
                tell_waiting(&mut WriteSink::new(errors));
                None
            } else {
                telling
            };
            let input = Watched::new(input, rt, rt.stderr(), telling, name, None);
            judge(rt, order, input, &mut out, errors)
        }
    };
    match status {
        0 => tally.accept(),
        1 if files_of(order) > 1 => tally.reject(rt.alloc(), name_in(out.front()))?,
        1 => {}
        _ => return Ok((status, false)),
    }
    Ok((status, true))
}

// Passes over a file that cannot be opened, of which an object of JSON is shown if that is asked for: the status, and whether
// the next file can be judged.
fn pass_over<O: Write, F: Write>(
    rt: &HostRuntime,
    order: Order,
    path: &str,
    reason: Unopened,
    out: &mut O,
    errors: &mut F,
) -> (u8, bool) {
    if !shows_json(order) {
        return (Fault::Read.status(), true);
    }
    match show_unopened(rt.alloc(), path, reason, &mut WriteSink::new(out)) {
        Ok(()) => (Fault::Read.status(), true),
        Err(fault) => (fail(fault, errors), false),
    }
}

// Whether an order shows objects of JSON.
fn shows_json(order: Order) -> bool {
    match order {
        Order::Judge(_, form, ..) => is_json(form.look),
        Order::Help | Order::Version => false,
    }
}

// Judges an input, whose first line says what `why` judges, and whether another command was meant.
fn judge<R: Read + Drop, O: Write, F: Write>(
    rt: &HostRuntime,
    order: Order,
    mut input: R,
    out: &mut O,
    errors: &mut F,
) -> u8 {
    let mut front = [0u8; 6];
    match read_front(&mut input, &mut front) {
        Ok(length) => {
            let front = &front[..length];
            let order = order_on(order, front);
            let input = front.chain(input);
            let status = run(rt.alloc(), Some(order), Some(input), out, errors);
            if status == 1 {
                let name = name_of(Look::Plain, files_of(order), file_of(order));
                if let Some(kind) = other_kind(order, front) {
                    tell_hint(name, kind, &mut WriteSink::new(errors));
                }
                if let Some(packing) = packing_of(front) {
                    tell_packed(name, packing, &mut WriteSink::new(errors));
                }
            }
            status
        }
        Err(_) => {
            tell_of(Some(order), Err(Fault::Read), &mut WriteSink::new(errors));
            Fault::Read.status()
        }
    }
}

// Opens a file that is no directory, and answers how many bytes it has, if that is known.
fn open(rt: &HostRuntime, path: &str) -> Result<(File, Option<u64>), Unopened> {
    let file = match File::open(rt, path) {
        Ok(file) => file,
        Err(error) => return Err(reason_of(error.kind())),
    };
    match file.metadata() {
        Ok(found) if found.is_dir() => Err(Unopened::Directory),
        Ok(found) if found.is_file() => Ok((file, Some(found.len()))),
        _ => Ok((file, None)),
    }
}

// The file that an order names.
fn file_of<'a>(order: Order<'a>) -> Option<&'a str> {
    match order {
        Order::Judge(_, _, file, _) => file,
        Order::Help | Order::Version => None,
    }
}

// How many files there are, as an order of one of them has it.
fn files_of(order: Order) -> usize {
    match order {
        Order::Judge(.., files) => files,
        Order::Help | Order::Version => 0,
    }
}

// Why a file could not be opened.
fn reason_of(kind: ErrorKind) -> Unopened {
    match kind {
        ErrorKind::NotFound => Unopened::Missing,
        ErrorKind::PermissionDenied => Unopened::Denied,
        ErrorKind::NotADirectory => Unopened::Through,
        ErrorKind::InvalidFilename => Unopened::Long,
        ErrorKind::FilesystemLoop => Unopened::Circle,
        _ => Unopened::Other,
    }
}
