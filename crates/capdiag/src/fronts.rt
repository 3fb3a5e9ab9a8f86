//! The first bytes of an input, which tell the kinds of logs apart.

ghost use Rattle.std.specs.Prelude.{◌≡◌, ◌≤◌, ◌<◌, IfOk, length, take};
ghost use Rattle.std.specs.Io.KnownBytes.{Consumes, IsAtEnd};
ghost use Rattle.capdiag.specs.Hints.{order_on, other_kind, packing_of, with_origins};

use crate::orders::{Judging, Order, RunAsked};
use cap_json::LogKind;
use std::io::{self, ErrorKind, Read};

// The first line of a run log, with its line feed.
const RUN_HEADER: &[u8; 6] = b"run 1\n";

/// How a log is packed.
#[derive(Clone, Copy)]
pub enum Packing {
    /// By `gzip`.
    Gzip,
    /// By `xz`.
    Xz,
    /// By `zstd`.
    Zstandard,
    /// By `zip`.
    Zip,
}

// What is asked of a run log, also the owners if the origins are asked for.
fn with_origins(origins: bool, run: RunAsked) -> RunAsked
    ensures value { result ≡ with_origins origins run }
{
    let owners = origins || run.owners;
    RunAsked { owners, ..run }
}

/// What an order means of an input that begins with these bytes: `why` judges a run log, of whatever version, as `run --why`
/// does, with the owners where the origins are asked for.
pub fn order_on<'a>(order: Order<'a>, front: &[u8]) -> Order<'a>
    ensures value { result ≡ order_on order.entry front.now }
{
    match order {
        Order::Judge(Judging::Why { origins, run }, form, file, files)
            if front.starts_with(b"run ") => {
            let judging = Judging::Run {
                run: with_origins(origins, run),
                why: true,
                told: true,
            };
            Order::Judge(judging, form, file, files)
        }
        _ => order,
    }
}

/// The kind of a log that another command judges, by the first bytes of the input; none if the report of a `no` says it.
pub fn other_kind(order: Order<'_>, front: &[u8]) -> Option<LogKind>
    ensures value { result ≡ other_kind order.entry front.now }
{
    let Order::Judge(judging, ..) = order else {
        return None;
    };
    match judging {
        Judging::Run { why: false, .. } => {
            if front == b"capche".as_slice() {
                Some(LogKind::Machine)
            } else if front == b"heap 1".as_slice() {
                Some(LogKind::Heap)
            } else {
                None
            }
        }
        Judging::Heap { why: false, .. } => {
            if front == b"capche".as_slice() {
                Some(LogKind::Machine)
            } else if front == RUN_HEADER.as_slice() {
                Some(LogKind::Run)
            } else {
                None
            }
        }
        Judging::Heap { why: true, .. } if front == RUN_HEADER.as_slice() => Some(LogKind::Run),
        _ => None,
    }
}

/// How an input is packed, by its first bytes.
pub fn packing_of(front: &[u8]) -> Option<Packing>
    ensures value { result ≡ packing_of front.now }
{
    if front.starts_with(b"\x1f\x8b") {
        Some(Packing::Gzip)
    } else if front.starts_with(b"\xfd7zXZ\0") {
        Some(Packing::Xz)
    } else if front.starts_with(b"\x28\xb5\x2f\xfd") {
        Some(Packing::Zstandard)
    } else if front.starts_with(b"PK\x03\x04") {
        Some(Packing::Zip)
    } else {
        None
    }
}

/// Reads the first bytes of an input into the buffer, and answers how many there are: six, unless the input ends before.
pub fn read_front<R: Read>(input: &mut R, front: &mut [u8; 6]) -> io::Result<usize>
    ensures fits { IfOk result (λ n. n ≤ 6) }
    ensures read { IfOk result (λ n. Consumes (R.remaining input.old) (R.remaining input.new) (take n front.new)) }
    ensures whole { IfOk result (λ n. n < 6 → IsAtEnd (R.remaining input.new)) }
{
    let mut length = 0usize;
    for _ in 0..u64::MAX {
        if length >= 6 {
            return Ok(length);
        }
        match input.read(&mut front[length..]) {
            Ok(0) => return Ok(length),
            Ok(count) => length += count,
            Err(error) => {
                if error.kind() != ErrorKind::Interrupted {
                    return Err(error);
                }
            }
        }
    }
    Err(io::Error::from(ErrorKind::Interrupted))
}
