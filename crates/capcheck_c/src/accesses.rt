//! The tests of an access to memory.

ghost use Rattle.std.specs.Prelude.{◌≡◌};
ghost use Rattle.cap_ops.specs.Sizes.{size_fits};
ghost use Rattle.cap_ops.specs.declared.kinds.Kind.TheVariants as kind;
ghost use Rattle.cap_halves.specs.Passed.{cap_of};
ghost use Rattle.capcheck_c.specs.Answers.{AnswersAccess};

use crate::values::AccessAnswer;
use cap_halves::halves::from_c;
use cap_halves::values::Capability;
use cap_ops::{Access, Kind, may_access};

/// The refusal of an access whose offset or size no access of its kind has.
const BAD_ARGUMENT: u8 = 255;

/// Whether an access of this kind may have this size.
fn is_size(kind: Kind, size: u64) -> bool
    ensures { result ≡ size_fits kind size }
{
    match kind {
        Kind::LoadData | Kind::StoreData => size == 1 || size == 2 || size == 4 || size == 8,
        Kind::LoadCap | Kind::StoreCap(_) => size == 16,
    }
}

/// The test of an access with an offset and a size that an access of this kind may have.
fn access_through(authority: Capability, access: Access) -> AccessAnswer
    ensures { AnswersAccess (cap_of authority) access.kind access.offset access.size result }
{
    match may_access(from_c(authority), access) {
        Ok(address) => AccessAnswer {
            address,
            refusal: 0,
        },
        Err(fault) => AccessAnswer {
            address: 0,
            refusal: fault.number(),
        },
    }
}

/// The test of an access with any offset and any size.
fn access_from(authority: Capability, kind: Kind, offset: i64, size: u64) -> AccessAnswer
    ensures { AnswersAccess (cap_of authority) kind offset size result }
{
    if offset < -2048 || offset > 2047 || !is_size(kind, size) {
        return AccessAnswer {
            address: 0,
            refusal: BAD_ARGUMENT,
        };
    }
    access_through(
        authority,
        Access {
            kind,
            offset: offset as i16,
            size: size as u8,
        },
    )
}

/// Whether an authority allows to load `size` bytes of data, 1, 2, 4 or 8, at an offset of -2048 to 2047 from its
/// address. Refused with its first failed check, 14 to 17 and 20, and as 255 if there is no such access.
#[unsafe(no_mangle)]
pub extern "C" fn capcheck_may_load(authority: Capability, offset: i64, size: u64) -> AccessAnswer
    ensures answer { AnswersAccess (cap_of authority) kind.LoadData offset size result }
{
    access_from(authority, Kind::LoadData, offset, size)
}

/// Whether an authority allows to store `size` bytes of data, 1, 2, 4 or 8, at an offset of -2048 to 2047 from its
/// address. Refused with its first failed check, 14 to 17 and 20, and as 255 if there is no such access.
#[unsafe(no_mangle)]
pub extern "C" fn capcheck_may_store(authority: Capability, offset: i64, size: u64) -> AccessAnswer
    ensures answer { AnswersAccess (cap_of authority) kind.StoreData offset size result }
{
    access_from(authority, Kind::StoreData, offset, size)
}

/// Whether an authority allows to load a capability at an offset of -2048 to 2047 from its address. Refused
/// with its first failed check, 14 to 17 and 20, and as 255 at any other offset.
#[unsafe(no_mangle)]
pub extern "C" fn capcheck_may_load_cap(authority: Capability, offset: i64) -> AccessAnswer
    ensures answer { AnswersAccess (cap_of authority) kind.LoadCap offset 16 result }
{
    access_from(authority, Kind::LoadCap, offset, 16)
}

/// Whether an authority allows to store this capability at an offset of -2048 to 2047 from its address.
/// Refused with its first failed check, 14 to 17 and 20 to 22, and as 255 at any other offset.
#[unsafe(no_mangle)]
pub extern "C" fn capcheck_may_store_cap(
    authority: Capability,
    offset: i64,
    stored: Capability,
) -> AccessAnswer
    ensures answer { AnswersAccess (cap_of authority) (kind.StoreCap (cap_of stored)) offset 16 result }
{
    access_from(authority, Kind::StoreCap(from_c(stored)), offset, 16)
}
