//! The input of an order.

ghost use Rattle.std.specs.Prelude.{◌≡◌, None};
ghost use Rattle.cap_streams.specs.Wrapped.{reader_of};
ghost use Rattle.cap_program.specs.Doings.{known_bytes};

use cap_log::ReadSource;
use std::io::Read;

/// An input as a source, if it could be opened.
pub fn opened<R: Read + Drop>(input: Option<R>) -> Option<ReadSource<R>>
    ensures known { known_bytes (λ s. R.remaining (reader_of s)) result ≡ known_bytes R.remaining input }
    ensures missing { input ≡ None → result ≡ None }
{
    match input {
        Some(reader) => Some(ReadSource::new(reader)),
        None => None,
    }
}
