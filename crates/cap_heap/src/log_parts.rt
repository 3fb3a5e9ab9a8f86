//! The parts of a log.

/// How far a log was read.
#[derive(Clone, Copy, Debug, PartialEq, Eq)]
pub(crate) enum LogPart {
    /// Nothing of it.
    Start,
    /// Its header.
    Headed,
    /// Its root, and perhaps events.
    Within,
    /// Its end line.
    Ended,
}
