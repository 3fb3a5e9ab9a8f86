//! The words after the program's name.

ghost use Rattle.std.specs.Prelude.{◌≡◌, [], IfOk, Ok, map};
ghost use Rattle.capdiag.specs.Orders.{after_command, after_flag, after_option, alone, at_end, freed_of, is_file, is_help, is_taken, with_asked_flag, with_why_flag};
ghost use Rattle.capdiag.specs.Orders.{after_dash, once, read_words, with_both, with_file, with_flag, with_freed, with_run_flag, with_value, with_word, with_words};
ghost use Rattle.capdiag.specs.Orders.{without_command};
ghost use Rattle.capdiag.specs.Readings.{names_of, read_of, request_of};

use crate::complaints::{Complaint, Wrong};
use crate::forms::{Form, Look, PLAIN, count_of, is_json};
use crate::orders::{Freed, Judging, Request, RunAsked};
use cap_json::begins;
use cap_program::is_operand;
use std::alloc::{AllocError, Global};

// What is asked of a run log if no word says it.
const NOTHING: RunAsked = RunAsked {
    freed: None,
    owned: false,
    owners: false,
};

// What the next word is.
#[derive(Clone, Copy)]
enum Due {
    // An option, or the file.
    Any,
    // The value of `--freed`.
    FreedValue,
    // The value of `--context`.
    ContextValue,
    // The file, since the options have ended.
    File,
}

// What the words that were read ask for.
#[derive(Clone, Copy)]
struct Asked {
    // What the next word is.
    due: Due,
    // The judge, and the reports that it is asked for.
    judging: Judging,
    // How they are shown.
    form: Form,
    // Whether it is asked how far the reading is.
    progress: bool,
    // Whether standard input is named.
    has_input: bool,
}

// What is asked for with an option, if that wasn't given before.
fn once(is_given: bool, asked: Asked) -> Result<Asked, Complaint>
    ensures value { result ≡ once is_given asked }
{
    if is_given {
        return Err(Complaint::Twice);
    }
    Ok(asked)
}

// What is asked of a run log with one option more, and whether that was given before; none if it is no option of a run log.
// `--freed` asks nothing by itself, since its value follows.
fn with_run_flag(run: RunAsked, word: &str) -> Option<(bool, RunAsked)>
    ensures value { result ≡ with_run_flag run word.now }
{
    match word {
        "--freed" => Some((run.freed.is_some(), run)),
        "--owned" => Some((run.owned, RunAsked { owned: true, ..run })),
        "--owners" => Some((
            run.owners,
            RunAsked {
                owners: true,
                ..run
            },
        )),
        _ => None,
    }
}

// The judge of `why` with one option more of a run log.
fn with_why_flag(origins: bool, run: RunAsked, word: &str) -> Option<(bool, Judging)>
    ensures value { result ≡ with_why_flag origins run word.now }
{
    match with_run_flag(run, word) {
        Some((is_given, run)) => Some((is_given, Judging::Why { origins, run })),
        None => None,
    }
}

// The judge of `run` with one option more of a run log.
fn with_asked_flag(run: RunAsked, why: bool, told: bool, word: &str) -> Option<(bool, Judging)>
    ensures value { result ≡ with_asked_flag run why told word.now }
{
    match with_run_flag(run, word) {
        Some((is_given, run)) => Some((is_given, Judging::Run { run, why, told })),
        None => None,
    }
}

// A judge with one option more, and whether it had that before; none if it has no such option.
fn with_flag(judging: Judging, word: &str) -> Option<(bool, Judging)>
    ensures value { result ≡ with_flag judging word.now }
{
    match judging {
        Judging::Why { origins, run } => match word {
            "--origins" => Some((origins, Judging::Why { origins: true, run })),
            _ => with_why_flag(origins, run, word),
        },
        Judging::Heap { report, why } => match word {
            "--report" => Some((report, Judging::Heap { report: true, why })),
            "--why" => Some((why, Judging::Heap { report, why: true })),
            _ => None,
        },
        Judging::Run { run, why, told } => match word {
            "--why" => Some((
                why,
                Judging::Run {
                    run,
                    why: true,
                    told,
                },
            )),
            _ => with_asked_flag(run, why, told, word),
        },
    }
}

// What is asked for after a judge's own option.
fn after_flag(asked: Asked, word: &str) -> Result<Asked, Complaint>
    ensures value { result ≡ after_flag asked word.now }
{
    let due = if word == "--freed" {
        Due::FreedValue
    } else {
        Due::Any
    };
    match with_flag(asked.judging, word) {
        Some((is_given, judging)) => once(
            is_given,
            Asked {
                due,
                judging,
                ..asked
            },
        ),
        None => Err(Complaint::UnknownOption),
    }
}

// What is asked for after an option.
fn after_option(asked: Asked, word: &str) -> Result<Asked, Complaint>
    ensures value { result ≡ after_option asked word.now }
{
    let form = asked.form;
    match word {
        "--" => Ok(Asked {
            due: Due::File,
            ..asked
        }),
        "--help" | "-h" => Err(Complaint::Alone),
        "--json" => once(
            is_json(form.look),
            Asked {
                form: Form {
                    look: Look::Json,
                    ..form
                },
                ..asked
            },
        ),
        "--progress" => once(
            asked.progress,
            Asked {
                progress: true,
                ..asked
            },
        ),
        "--context" => once(
            form.context.is_some(),
            Asked {
                due: Due::ContextValue,
                ..asked
            },
        ),
        _ => after_flag(asked, word),
    }
}

// What a value of `--freed` asks of freed objects; none if the word isn't one.
fn freed_of(word: &[u8]) -> Option<Freed>
    ensures value { result ≡ freed_of word.now }
{
    if word == b"held".as_slice() {
        Some(Freed::Held)
    } else if word == b"used".as_slice() {
        Some(Freed::Used)
    } else if word == b"both".as_slice() {
        Some(Freed::Both)
    } else {
        None
    }
}

// A judge with the value of `--freed`; none if the word isn't one.
fn with_freed(judging: Judging, word: &[u8]) -> Option<Judging>
    ensures value { result ≡ with_freed judging word.now }
{
    let freed = Some(freed_of(word)?);
    match judging {
        Judging::Why { origins, run } => {
            let run = RunAsked { freed, ..run };
            Some(Judging::Why { origins, run })
        }
        Judging::Heap { .. } => None,
        Judging::Run { run, why, told } => {
            let run = RunAsked { freed, ..run };
            Some(Judging::Run { run, why, told })
        }
    }
}

// Whether a word is an operand before the options have ended.
fn is_taken(word: &str) -> bool
    ensures value { result ≡ is_taken word.now }
{
    word == "-" || is_operand(word)
}

// Whether a word is a file, by what the next word is.
fn is_file(due: Due, word: &str) -> bool
    ensures value { result ≡ is_file due word.now }
{
    match due {
        Due::Any => is_taken(word),
        Due::File => true,
        Due::FreedValue | Due::ContextValue => false,
    }
}

// What is asked for with one file more. Standard input can be read once.
fn with_file(asked: Asked, word: &str) -> Result<Asked, Complaint>
    ensures value { result ≡ with_file asked word.now }
{
    if word == "-" {
        once(
            asked.has_input,
            Asked {
                has_input: true,
                ..asked
            },
        )
    } else {
        Ok(asked)
    }
}

// What is asked for with the value of an option.
fn with_value(asked: Asked, word: &[u8]) -> Result<Asked, Complaint>
    ensures value { result ≡ with_value asked.due asked word.now }
{
    match asked.due {
        Due::FreedValue => match with_freed(asked.judging, word) {
            Some(judging) => Ok(Asked {
                due: Due::Any,
                judging,
                ..asked
            }),
            None => Err(Complaint::UnknownValue),
        },
        Due::ContextValue => match count_of(word) {
            Some(count) => Ok(Asked {
                due: Due::Any,
                form: Form {
                    context: Some(count),
                    ..asked.form
                },
                ..asked
            }),
            None => Err(Complaint::UnknownCount),
        },
        Due::Any | Due::File => Err(Complaint::UnknownOption),
    }
}

// What is asked for with an option and its value.
fn with_both(asked: Asked, option: &str, value: &[u8]) -> Result<Asked, Complaint>
    ensures value { result ≡ with_both (after_option asked option.now) value.now }
{
    match after_option(asked, option) {
        Ok(asked) => with_value(asked, value),
        Err(complaint) => Err(complaint),
    }
}

// What is asked for with an option, and with its value if they are joined by an equals sign.
fn after_dash(asked: Asked, word: &str) -> Result<Asked, Complaint>
    ensures value { result ≡ after_dash asked word.now }
{
    let bytes = word.as_bytes();
    if begins(b"--context=", bytes) {
        with_both(asked, "--context", &bytes[10..])
    } else if begins(b"--freed=", bytes) {
        with_both(asked, "--freed", &bytes[8..])
    } else {
        after_option(asked, word)
    }
}

// What is asked for with one word more.
fn with_word(asked: Asked, word: &str) -> Result<Asked, Complaint>
    ensures value { result ≡ with_word asked word.now }
{
    match asked.due {
        Due::FreedValue | Due::ContextValue => with_value(asked, word.as_bytes()),
        Due::Any if !is_taken(word) => after_dash(asked, word),
        Due::Any | Due::File => with_file(asked, word),
    }
}

// What is asked for where the words end, with the files that they name.
fn at_end<'a>(asked: Asked, files: Vec<&'a str>) -> Result<Request<'a>, Wrong<'a>>
    ensures value { at_end asked (names_of files.entry.items) ≡ read_of result }
{
    match asked.due {
        Due::FreedValue => Err(Wrong {
            complaint: Complaint::NoValue,
            word: "--freed",
        }),
        Due::ContextValue => Err(Wrong {
            complaint: Complaint::NoCount,
            word: "--context",
        }),
        Due::Any | Due::File => Ok(Request::Judge(
            asked.judging,
            asked.form,
            asked.progress,
            files,
        )),
    }
}

// What is asked for with more words.
fn with_words<'a>(
    alloc: Global,
    asked: Asked,
    words: &[&'a str],
) -> Result<Result<Request<'a>, Wrong<'a>>, AllocError>
    ensures value { IfOk result (λ read. with_words (Ok asked) [] (map (λ word. word.now) words.now) ≡ read_of read) }
{
    let mut files = Vec::new(alloc);
    let mut asked = asked;
    for word in words {
        let names_file = is_file(asked.due, word);
        match with_word(asked, word) {
            Ok(next) => asked = next,
            Err(complaint) => return Ok(Err(Wrong { complaint, word })),
        }
        if names_file {
            files.push(*word)?;
        }
    }
    Ok(at_end(asked, files))
}

// Whether the words after a command ask for help.
fn is_help(words: &[&str]) -> bool
    ensures value { result ≡ is_help (map (λ word. word.now) words.now) }
{
    match words {
        [word] => *word == "--help" || *word == "-h",
        _ => false,
    }
}

// What a command and the words after it ask for.
fn after_command<'a>(
    alloc: Global,
    judging: Judging,
    words: &[&'a str],
) -> Result<Result<Request<'a>, Wrong<'a>>, AllocError>
    ensures value { IfOk result (λ read. after_command judging (map (λ word. word.now) words.now) ≡ read_of read) }
{
    if is_help(words) {
        return Ok(Ok(Request::Help));
    }
    let asked = Asked {
        due: Due::Any,
        judging,
        form: PLAIN,
        progress: false,
        has_input: false,
    };
    with_words(alloc, asked, words)
}

// What an option in place of a command asks for: no other word stands beside it.
fn alone<'a>(
    request: Request<'a>,
    option: &'a str,
    words: &[&'a str],
) -> Result<Request<'a>, Wrong<'a>>
    ensures value { alone (request_of request.entry) option.now (map (λ word. word.now) words.now) ≡ read_of result }
{
    if words.is_empty() {
        return Ok(request);
    }
    Err(Wrong {
        complaint: Complaint::Alone,
        word: option,
    })
}

// What the words ask for where the first is no command.
fn without_command<'a>(word: &'a str, words: &[&'a str]) -> Result<Request<'a>, Wrong<'a>>
    ensures value { without_command word.now (map (λ word. word.now) words.now) ≡ read_of result }
{
    match word {
        "--help" | "-h" | "help" => alone(Request::Help, word, words),
        "--version" => alone(Request::Version, word, words),
        _ if is_operand(word) => Err(Wrong {
            complaint: Complaint::UnknownCommand,
            word,
        }),
        _ => Err(Wrong {
            complaint: Complaint::UnknownOption,
            word,
        }),
    }
}

/// Reads the words after the program's name: what they ask for, and if they ask for nothing what is wrong with them. Options
/// stand before, after and between files, in any order.
pub fn read_words<'a>(
    alloc: Global,
    words: &[&'a str],
) -> Result<Result<Request<'a>, Wrong<'a>>, AllocError>
    ensures value { IfOk result (λ read. read_words (map (λ word. word.now) words.now) ≡ read_of read) }
{
    let Some((command, words)) = words.split_first() else {
        return Ok(Err(Wrong {
            complaint: Complaint::NoCommand,
            word: "",
        }));
    };
    match *command {
        "why" => after_command(
            alloc,
            Judging::Why {
                origins: false,
                run: NOTHING,
            },
            words,
        ),
        "heap" => after_command(
            alloc,
            Judging::Heap {
                report: false,
                why: false,
            },
            words,
        ),
        "run" => after_command(
            alloc,
            Judging::Run {
                run: NOTHING,
                why: false,
                told: false,
            },
            words,
        ),
        word => Ok(without_command(word, words)),
    }
}
