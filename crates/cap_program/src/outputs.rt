//! Sinks that keep bytes back, and texts that are shown on them.

ghost use Rattle.std.specs.Prelude.{◌≡◌, ℕ, Bool, true, [], take, IfOk, IfErr, OnOk, Ok, Err};
ghost use Rattle.cap_streams.specs.{Streams.CountsFault, Wrapped.has_flushed};
ghost use Rattle.cap_program.specs.Doings.{IsCounted};

use crate::faults::Fault;
use cap_log::{PushFault, Sink, WriteSink, push_all};
use std::io::Write;

/// A sink that may keep bytes back, and hands them on when it is asked to.
pub trait Output: Sink {
    /// Whether all that was pushed was handed on.
    ghost has_handed_on: { Self → Bool };

    /// Hands on what was pushed so far. A fault counts one more. Nothing is taken.
    fn hand_on(&mut self) -> Result<(), PushFault>
        ensures nothing_taken { Self.took self.old self.new [] }
        ensures counted { CountsFault (Self.faults self.old) (Self.faults self.new) result }
        ensures handed_on { OnOk result (has_handed_on self.new ≡ true) };
}

impl<'a, W: Write> Output for WriteSink<'a, W> {
    ghost has_handed_on = { λ s. has_flushed s };

    fn hand_on(&mut self) -> Result<(), PushFault> {
        self.flush()
    }
}

/// Pushes a text that only shows something, and answers the status that goes with it.
pub fn show<K: Sink>(text: &[u8], out: &mut K) -> Result<u8, Fault>
    ensures ok { IfOk result (λ status. status ≡ 0) }
    ensures shown { OnOk result (K.took out.old out.new text.now) }
    ensures err { IfErr result (λ fault. (fault ≡ Fault.Write) × (n : ℕ) × K.took out.old out.new (take n text.now)) }
    ensures counted { IsCounted Fault.Write result (K.faults out.old) (K.faults out.new) }
{
    push_all(out, text)?;
    Ok(0)
}
