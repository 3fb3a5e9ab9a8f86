//! The names of what C knows by number, and a sentence for each.

ghost use Rattle.std.specs.Prelude.{◌≡◌, ◌≢◌, ◌≤◌, codes, length};
ghost use Rattle.cap_ops.specs.Refusals.{refusal_name_at, refusal_sentence_at};
ghost use Rattle.capcheck_c.specs.{Answers.{bad_argument, c_string}, Names.{c_string_in, kind_sentence, kind_sentences, kind_text, state_names}};
ghost use Rattle.capcheck_c.specs.Names.{run_kind_sentences, run_kind_words, state_sentences, text_at};

use crate::values::{RefusalName, Sentence};
use cap_halves::kinds::FIRST_RUN_KIND;
use cap_log::kinds::kind_word;
use cap_ops::{refusal_name_at, refusal_sentence_at};

/// The version of this library, that of `include/capcheck.h`.
const VERSION: &str = "1.3.0-dev";

/// A text as a C string.
fn as_c_string(text: &str) -> RefusalName
    requires { length text.now ≤ 23 }
    ensures { result.text ≡ c_string text.now }
{
    let mut bytes = [0u8; 24];
    bytes[..text.len()].copy_from_slice(text.as_bytes());
    RefusalName { text: bytes }
}

/// A sentence as a C string.
fn as_sentence(text: &str) -> Sentence
    requires { length text.now ≤ 95 }
    ensures { result.text ≡ c_string_in 96 text.now }
{
    let mut bytes = [0u8; 96];
    bytes[..text.len()].copy_from_slice(text.as_bytes());
    Sentence { text: bytes }
}

/// The version of the library, as `1.2.0`, or `1.3.0-dev` of one that isn't released.
#[unsafe(no_mangle)]
pub extern "C" fn capcheck_version() -> RefusalName
    ensures version { result.text ≡ c_string (codes "1.3.0-dev") }
{
    as_c_string(VERSION)
}

/// The name of a refusal by its number, as a C string: of each that a verdict line can show, 1 to 41; `BadArgument` of 255;
/// and an empty string of every other number.
#[unsafe(no_mangle)]
pub extern "C" fn capcheck_refusal_name(refusal: u8) -> RefusalName
    ensures named { refusal ≢ bad_argument → result.text ≡ c_string (refusal_name_at refusal) }
    ensures bad_argument { refusal ≡ bad_argument → result.text ≡ c_string (codes "BadArgument") }
{
    as_c_string(match refusal {
        255 => "BadArgument",
        _ => refusal_name_at(refusal),
    })
}

/// Why a line is refused, in a sentence as a C string, by the number of the refusal; an empty string of a number that no
/// verdict line can show.
#[unsafe(no_mangle)]
pub extern "C" fn capcheck_refusal_sentence(refusal: u8) -> Sentence
    ensures told { result.text ≡ c_string_in 96 (refusal_sentence_at refusal) }
{
    as_sentence(refusal_sentence_at(refusal))
}

/// The name of a state of an answer, as `GoesOn`, and an empty string of a number that is none.
#[unsafe(no_mangle)]
pub extern "C" fn capcheck_state_name(state: u8) -> RefusalName
    ensures name { result.text ≡ c_string (text_at state_names state) }
{
    as_c_string(match state {
        0 => "GoesOn",
        1 => "Yes",
        2 => "No",
        3 => "NoMemory",
        4 => "NoJudge",
        5 => "NoLine",
        _ => "",
    })
}

/// The word that a line of a kind begins with, as `setbounds`, and an empty string of a number that is no kind.
#[unsafe(no_mangle)]
pub extern "C" fn capcheck_kind_name(kind: u8) -> RefusalName
    ensures name { result.text ≡ c_string (kind_text kind) }
{
    if kind < FIRST_RUN_KIND {
        return as_c_string(kind_word(kind));
    }
    as_c_string(run_kind_word(kind - FIRST_RUN_KIND))
}

// The word that a line begins with which only run logs have, by its kind less 64.
fn run_kind_word(kind: u8) -> &'static str
    ensures word { result.now ≡ text_at run_kind_words kind }
    ensures short { length result.now ≤ 8 }
{
    match kind {
        0 => "derive",
        1 => "exchange",
        2 => "invoke",
        3 => "drop",
        4 => "fill",
        5 => "object",
        6 => "free",
        7 => "run",
        8 => "root",
        9 => "hart",
        _ => "",
    }
}

/// What a state says, in a sentence, and an empty string of a number that is none.
#[unsafe(no_mangle)]
pub extern "C" fn capcheck_state_sentence(state: u8) -> Sentence
    ensures sentence { result.text ≡ c_string_in 96 (text_at state_sentences state) }
{
    as_sentence(match state {
        0 => "No line so far is faulty.",
        1 => "The log is accepted: its steps have a run from its roots.",
        2 => "The log is rejected: a line is faulty.",
        3 => "Out of memory: there is no verdict.",
        4 => "The judge isn't open.",
        5 => "The bytes aren't one line with its line feed, or a number is out of range.",
        _ => "",
    })
}

/// What a kind of line is, in a sentence, and an empty string of a number that is no kind.
#[unsafe(no_mangle)]
pub extern "C" fn capcheck_kind_sentence(kind: u8) -> Sentence
    ensures sentence { result.text ≡ c_string_in 96 (kind_sentence kind) }
{
    if kind < FIRST_RUN_KIND {
        return as_sentence(usual_kind_sentence(kind));
    }
    as_sentence(run_kind_sentence(kind - FIRST_RUN_KIND))
}

// What a kind of line is that other logs have too.
fn usual_kind_sentence(kind: u8) -> &'static str
    ensures sentence { result.now ≡ text_at kind_sentences kind }
    ensures short { length result.now ≤ 95 }
{
    match kind {
        1 => "The first line: the version of the log.",
        2 => "The second line of a log of version 2: strict or clear mode.",
        3 => "A capability that a register holds at the start.",
        4 => "A capability that a granule of memory holds at the start.",
        5 => "Copies a register.",
        6 => "Copies a register without its tag.",
        7 => "Narrows the bounds, rounded.",
        8 => "Narrows the bounds, and is refused if they are rounded.",
        9 => "Sets the address.",
        10 => "Removes permissions.",
        11 => "Seals a capability with an authority's object type.",
        12 => "Unseals a capability with an authority of its object type.",
        13 => "Loads a capability.",
        14 => "Stores a capability.",
        15 => "Loads data.",
        16 => "Stores data, and clears the tag of the granule.",
        17 => "The last line: the number of steps.",
        _ => "",
    }
}

// What a kind of line is that only run logs have, by its kind less 64.
fn run_kind_sentence(kind: u8) -> &'static str
    ensures sentence { result.now ≡ text_at run_kind_sentences kind }
    ensures short { length result.now ≤ 95 }
{
    match kind {
        0 => "Derives a capability, judged only to be no wider than its source.",
        1 => "Exchanges a special register: a call, or CSpecialRW.",
        2 => "Calls by a pair of sealed capabilities, CInvoke.",
        3 => "Removes the tag of a place.",
        4 => "Fills a granule from outside, without a tag.",
        5 => "Hands out an object, or widens one.",
        6 => "Frees an object.",
        7 => "The first line of a run log: its version.",
        8 => "A capability that a special register holds at the start.",
        9 => "Names the hart whose registers the lines after it name.",
        _ => "",
    }
}
