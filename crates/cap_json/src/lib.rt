//! Reports as objects of JSON: each line is a member, and lines that describe one thing are one member.
#![tactic(auto)]

ghost use Rattle.std.specs.Prelude.{IfOk, ◌≡◌};
ghost use Rattle.cap_json.specs.Objects.{json_of};

mod members;
mod rows;
mod words;

use crate::members::{push_filled, push_members};
pub use crate::rows::LogKind;
use crate::rows::verdict_of;
pub use crate::words::{begins, cut};
use std::alloc::{AllocError, Global};

/// A report, the lines of a verdict and what follows it, as one object and a line feed.
#[tactic(auto, unfolding(crate::specs::Objects::json_of, crate::specs::Members::verdict_text))]
pub fn json_of(alloc: Global, kind: LogKind, report: &[u8]) -> Result<Vec<u8>, AllocError>
    ensures json { IfOk result (λ object. object.items ≡ json_of kind report.now) }
{
    let (verdict, lines) = cut(b'\n', report);
    let mut object = Vec::new(alloc);
    object.push(b'{')?;
    let member = verdict_of(kind, verdict);
    push_filled(&mut object, member.form.as_bytes(), member.values)?;
    push_members(&mut object, lines)?;
    object.extend_from_slice(b"}\n")?;
    Ok(object)
}
