//! The words that lines of allocators' logs begin with.

ghost use Rattle.std.specs.Prelude.{◌≤◌, ℕ, List, IfNone, IfSome, length};
ghost use Rattle.cap_heap.specs.HeapLines.{IsNamed};

use cap_log::strip_word;

/// What kind of line a line of an allocator's log is.
#[derive(Clone, Copy, Debug, PartialEq, Eq)]
pub(crate) enum HeapHead {
    /// `heap`.
    Header,
    /// `root`.
    Root,
    /// `malloc`.
    Malloc,
    /// `free`.
    Free,
    /// `end`.
    End,
}

// Returns the head and what follows it, if this word and a space stand in front.
macro_rules! stands {
    ($line:expr, $head:expr, $word:expr) => {
        if let Some(operands) = strip_word($line, $word, b' ') {
            return Some(($head, operands));
        }
    };
}

impl HeapHead {
    /// Takes the head from the front of a line, with the space after it: the head, and what follows the space.
    pub fn take(line: &[u8]) -> Option<(HeapHead, &[u8])>
        ensures some { IfSome result (λ p. IsNamed line.now p.0 p.1.now) }
        ensures none { IfNone result ((head : HeapHead) (operands : List ℕ) → IsNamed line.now head operands → ⊥) }
        ensures inside { IfSome result (λ p. length p.1.now ≤ length line.now) }
    {
        stands!(line, HeapHead::Malloc, b"malloc");
        stands!(line, HeapHead::Free, b"free");
        stands!(line, HeapHead::Root, b"root");
        stands!(line, HeapHead::End, b"end");
        stands!(line, HeapHead::Header, b"heap");
        None
    }
}
