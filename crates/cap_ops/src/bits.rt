//! Single permissions of a word, and words with another field, by shifts and masks of the 128 bits.

ghost use Rattle.std.specs.Prelude.{◌≡◌, ◌<◌, ◌^◌};
ghost use Rattle.cap_ops.specs.Permissions.{has_permission, with_perms, with_type};

use cap_word::Word;

// The numbers of the permissions that operations check, alike in the architectural view and in the field.

/// The number of the bit that says that a capability is global.
pub const GLOBAL: u32 = 0;

/// The number of the permission that a load needs.
pub const PERMIT_LOAD: u32 = 2;

/// The number of the permission that a store needs.
pub const PERMIT_STORE: u32 = 3;

pub(crate) const PERMIT_LOAD_CAPABILITY: u32 = 4;

/// The number of the permission that storing a capability needs.
pub const PERMIT_STORE_CAPABILITY: u32 = 5;

/// The number of the permission that storing a capability needs that isn't global.
pub const PERMIT_STORE_LOCAL_CAPABILITY: u32 = 6;

/// The number of the permission that sealing needs.
pub const PERMIT_SEAL: u32 = 7;

/// The number of the permission that unsealing needs.
pub const PERMIT_UNSEAL: u32 = 9;

/// All bits of a word below its field of permissions.
pub(crate) const BELOW_PERMISSIONS: u128 = 0xffff_ffff_ffff_ffff_ffff_ffff_ffff;

/// Whether a word has an architectural permission.
#[inline(always)]
pub(crate) fn permits(word: Word, permission: u32) -> bool
    requires { permission < 12 }
    ensures { result ≡ has_permission word.0 permission }
{
    (word.0 >> (112 + permission)) & 1 == 1
}

/// The word with another field of permissions.
#[inline(always)]
pub(crate) fn replace_permissions(word: Word, permissions: u16) -> Word
    ensures { result.0 ≡ with_perms word.0 permissions }
{
    Word((u128::from(permissions) << 112) + (word.0 & BELOW_PERMISSIONS))
}

/// The word with another object type, of 18 bits.
#[inline(always)]
pub(crate) fn replace_type(word: Word, object_type: u32) -> Word
    requires { object_type < 2 ^ 18 }
    ensures { result.0 ≡ with_type word.0 object_type }
{
    let high = (word.0 >> 109) << 109;
    let low = word.0 & 0x7ff_ffff_ffff_ffff_ffff_ffff;
    Word(high + (u128::from(object_type) << 91) + low)
}
