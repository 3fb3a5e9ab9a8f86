//! The text that explains a capability.

ghost use Rattle.std.specs.Prelude.{◌≡◌, ◌<◌, ◌≤◌, ◌++◌, drop, length};
ghost use Rattle.cap_texts.specs.ExplainLines.{explain_lines};
ghost use Rattle.cap_halves.specs.Passed.{cap_of};

use cap_halves::halves::from_c;
use cap_halves::values::Capability;
use cap_texts::explain_text;

/// Writes what `capcheck explain` prints of a capability, fifteen lines, at the front of the text if they fit.
/// Returns their length in either case, at most 512 bytes. If they don't fit, the text is unchanged.
#[unsafe(no_mangle)]
pub extern "C" fn capcheck_explain(cap: Capability, text: &mut [u8]) -> u64
    ensures length { let told = cap_of cap in result ≡ length (explain_lines told.word.0 told.tag) }
    ensures most { result ≤ 512 }
    ensures written { let told = cap_of cap in result ≤ length text.old
        → text.new ≡ explain_lines told.word.0 told.tag ++ drop result text.old }
    ensures unchanged { length text.old < result → text.new ≡ text.old }
{
    let cap = from_c(cap);
    let mut lines = [0u8; 512];
    let length = explain_text(cap.word, cap.tag, &mut lines);
    if length <= text.len() {
        text[..length].copy_from_slice(&lines[..length]);
    }
    length as u64
}
