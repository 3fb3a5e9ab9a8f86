//! Showing what a word or a request means.

ghost use Rattle.std.specs.Prelude.{◌≢◌, ◌≤◌, [], take, IfOk, IfErr, Err, Some, false};
ghost use Rattle.cap_program.specs.Doings.{IsCounted, IsDone};
ghost use Rattle.capcheck.specs.{declared.words.Order.TheVariants.{Explain, Round}, Answers.ShowsRounding};
ghost use Rattle.capcheck.specs.{Doings.{Fails, Shows}, Operands.RefusesRequest};

use crate::words::operands::{read_capability, read_request};
use cap_bounds::round;
use cap_log::Sink;
use cap_program::{Fault, show};
use cap_texts::{explain_text, round_text};

/// Pushes the explanation of a capability.
pub fn show_explanation<K: Sink>(
    memory: bool,
    tag: bool,
    hex: &str,
    out: &mut K,
) -> Result<u8, Fault>
    ensures done { IsDone (Shows (Some (Explain memory tag hex.entry)) [] false) (Fails (Some (Explain memory tag hex.entry)) [])
        (K.took out.old out.new) result }
    ensures unread { result ≢ Err Fault.Read }
    ensures written { IsCounted Fault.Write result (K.faults out.old) (K.faults out.new) }
{
    let Some(word) = read_capability(hex, memory) else {
        return Err(Fault::BadWord);
    };
    let mut text = [0u8; 512];
    let length = explain_text(word, tag, &mut text);
    show(&text[..length], out)
}

/// Pushes the rounding of a request.
pub fn show_rounding<K: Sink>(base: &str, length: &str, out: &mut K) -> Result<u8, Fault>
    ensures done { IsDone (Shows (Some (Round base.entry length.entry)) [] false) (Fails (Some (Round base.entry length.entry)) [])
        (K.took out.old out.new) result }
    ensures unread { result ≢ Err Fault.Read }
    ensures written { IsCounted Fault.Write result (K.faults out.old) (K.faults out.new) }
{
    let mut text = [0u8; 128];
    let count = rounding_of(base, length, &mut text)?;
    show(&text[..count], out)
}

// Writes the rounding of a request into a buffer: how long it is.
fn rounding_of(base: &str, length: &str, buffer: &mut [u8; 128]) -> Result<usize, Fault>
    ensures fits { IfOk result (λ count. count ≤ 128) }
    ensures ok { IfOk result (λ count. ShowsRounding base.now length.now (take count buffer.new)) }
    ensures err { IfErr result (RefusesRequest base.now length.now) }
{
    let request = read_request(base, length)?;
    Ok(round_text(&round(request.base, request.length), buffer))
}
