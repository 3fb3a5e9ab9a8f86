//! A sink over a writer.

ghost use Rattle.std.specs.Prelude.{◌≡◌, ◌<◌, ◌≤◌, ◌^◌, [], true, false, length, take, IfOk, OnOk, OnErr, refl};
ghost use Rattle.std.specs.Io.KnownBytes.{Appends};
ghost use Rattle.std.proofs.Common.{◌∙◌};
ghost use Rattle.cap_streams.specs.KnownLaws.{Appends-nothing, Appends-joined};

use crate::sinks::{PushFault, Sink};
use std::io::Write;

/// A writer that is lent. Each error of the writer is a fault, and so is a write of no bytes.
#[derive(Drop)]
pub struct WriteSink<'a, W: Write> {
    writer: &'a mut W,
    faults: u64,
    // Whether the writer was flushed, and was given nothing since.
    is_flushed: bool,
    ghost few_faults: { faults < 2 ^ 64 },
}

impl<'a, W: Write> WriteSink<'a, W> {
    ghost use Rattle.cap_streams.specs.{Streams.CountsFault, Wrapped.{has_flushed, name_of_writer, writer_of}};

    /// What is pushed goes to the writer. There were no faults, and nothing was flushed.
    pub fn new(writer: &'a mut W) -> WriteSink<'a, W>
        ensures same_reference { name_of_writer result ≡ writer.entry.ghost_name }
        ensures writer { writer_of result ≡ writer.old }
        ensures faults { ⟦<WriteSink<'a, W> as Sink>⟧.faults result ≡ 0 }
        ensures unflushed { has_flushed result ≡ false }
    {
        WriteSink {
            writer,
            faults: 0,
            is_flushed: false,
        }
    }

    /// Asks the writer to hand on what was pushed so far. An error of the writer is a fault. Nothing is taken.
    /// Of the writer's own flush no contract says what it does.
    pub fn flush(&mut self) -> Result<(), PushFault>
        ensures nothing_taken { ⟦<WriteSink<'a, W> as Sink>⟧.took self.old self.new [] }
        ensures counted { CountsFault (⟦<WriteSink<'a, W> as Sink>⟧.faults self.old) (⟦<WriteSink<'a, W> as Sink>⟧.faults self.new) result }
        ensures flushed { OnOk result (has_flushed self.new ≡ true) }
        ensures unflushed { OnErr result (has_flushed self.new ≡ has_flushed self.old) }
    {
        match self.writer.flush() {
            Ok(()) => {
                self.is_flushed = true;
                Ok(())
            }
            Err(_) => {
                self.faults = self.faults.wrapping_add(1);
                Err(PushFault)
            }
        }
    }
}

impl<'a, W: Write> Sink for WriteSink<'a, W> {
    ghost use Rattle.cap_streams.specs.Streams.{CountsFault};
    ghost use Rattle.cap_streams.specs.Wrapped.{faults_of_writer, has_flushed, name_of_writer, writer_of};

    ghost took = { λ a b xs. (b.writer.ghost_name ≡ a.writer.ghost_name) × Appends (W.contents a.writer.now) (W.contents b.writer.now) xs };

    ghost faults = { λ s. s.faults };

    ghost nothing = { λ s. (refl, Appends-nothing (W.contents s.writer.now)) };

    ghost faults_fit = { λ s. s.few_faults };

    ghost joined = { λ a b c xs ys h k. (
      k.0 ∙ h.0,
      Appends-joined (W.contents a.writer.now) (W.contents b.writer.now) (W.contents c.writer.now) xs ys h.1 k.1,
    ) };

    fn push(&mut self, piece: &[u8]) -> Result<usize, PushFault>
        ensures fits { IfOk result (λ n. n ≤ length piece.now) }
        ensures some { IfOk result (λ n. 0 < length piece.now → 0 < n) }
        ensures bytes { IfOk result (λ n. (name_of_writer self.new ≡ name_of_writer self.old)
            × Appends (W.contents (writer_of self.old)) (W.contents (writer_of self.new)) (take n piece.now)) }
        ensures nothing_taken { OnErr result ((name_of_writer self.new ≡ name_of_writer self.old)
            × Appends (W.contents (writer_of self.old)) (W.contents (writer_of self.new)) []) }
        ensures counted { CountsFault (faults_of_writer self.old) (faults_of_writer self.new) result }
        ensures unflushed { 0 < length piece.now → has_flushed self.new ≡ false }
    {
        if piece.is_empty() {
            return Ok(0);
        }
        self.is_flushed = false;
        match self.writer.write(piece) {
            Ok(0) | Err(_) => {
                self.faults = self.faults.wrapping_add(1);
                Err(PushFault)
            }
            Ok(count) => Ok(count),
        }
    }
}
