//! What the program can be asked to do.

ghost use Rattle.std.specs.Prelude.{◌≡◌, length, option_map, slice_get};
ghost use Rattle.capdiag.specs.{Files.{Judges, file_of}, Judgings.telling, Readings.names_of};

use crate::forms::{Form, is_json};

/// What the words ask for.
#[derive(Drop)]
pub enum Request<'a> {
    /// `help`, `--help` or `-h`, also one of these options after a command: tell how the program is used.
    Help,
    /// `--version`: tell its version.
    Version,
    /// `why`, `heap` or `run`, each with `[--context N] [--json] [--progress] [FILE..]`: judge each file in turn, or standard
    /// input if there is none, and print the verdict with the reports that are asked for, in this form; and tell meanwhile how far
    /// the reading is, if that is asked for. `-` is standard input.
    Judge(Judging, Form, bool, Vec<&'a str>),
}

/// What the program does at once.
#[derive(Clone, Copy)]
pub enum Order<'a> {
    /// Tell how the program is used.
    Help,
    /// Tell its version.
    Version,
    /// Judge a log, one of so many, and print the verdict with the reports that are asked for, in this form. The file's name
    /// is not `-`, and none for standard input.
    Judge(Judging, Form, Option<&'a str>, usize),
}

/// A judge, and the reports that it is asked for.
#[derive(Clone, Copy)]
pub enum Judging {
    /// `why [--origins] [--freed held|used|both] [--owned] [--owners]`: the judge of a machine's log, with the report of a
    /// `no`; of a run log that of `run --why`.
    Why {
        /// Whether after a `yes` the root of each capability in the last state is asked for.
        origins: bool,
        /// What is asked of a run log.
        run: RunAsked,
    },
    /// `heap [--report] [--why]`: the judge of an allocator's log.
    Heap {
        /// Whether after a `yes` the report is asked for.
        report: bool,
        /// Whether after a `no` the report is asked for.
        why: bool,
    },
    /// `run [--freed held|used|both] [--owned] [--owners] [--why]`: the judge of a run log.
    Run {
        /// What is asked of the log.
        run: RunAsked,
        /// Whether after a `no` the report is asked for.
        why: bool,
        /// Whether after a `yes` a line says what was asked.
        told: bool,
    },
}

/// What is asked of a run log.
#[derive(Clone, Copy)]
pub struct RunAsked {
    /// What is asked of freed objects, if `--freed` says it.
    pub freed: Option<Freed>,
    /// Whether an access without owner may touch no live object.
    pub owned: bool,
    /// Whether after a `yes` the objects and the owners are asked for.
    pub owners: bool,
}

/// What is asked of freed objects.
#[derive(Clone, Copy)]
pub enum Freed {
    /// `held`: no place holds an object whose memory is handed out again.
    Held,
    /// `used`: no access goes through a capability of a freed object.
    Used,
    /// `both` of these.
    Both,
}

// The file that a word names; none for standard input.
fn file_of<'a>(word: Option<&'a str>) -> Option<&'a str>
    ensures value { option_map (λ it. it.now) result ≡ file_of (option_map (λ it. it.now) word.entry) }
{
    match word {
        None | Some("-") => None,
        Some(name) => Some(name),
    }
}

// A judge, which tells what was asked of a run log if its report or an object of JSON is asked for.
fn telling(judging: Judging, form: Form) -> Judging
    ensures value { result ≡ telling judging form }
{
    match judging {
        Judging::Run { run, why, .. } => Judging::Run {
            run,
            why,
            told: why || is_json(form.look),
        },
        _ => judging,
    }
}

/// The order that judges one of some files, by its number from 0, or standard input if there are none.
pub fn order_of<'a>(judging: Judging, form: Form, files: &[&'a str], number: usize) -> Order<'a>
    ensures judges { Judges (telling judging form) form (file_of (slice_get (names_of files.now) number)) (length files.now) result }
{
    let file = file_of(files.get(number).copied());
    Order::Judge(telling(judging, form), form, file, files.len())
}
