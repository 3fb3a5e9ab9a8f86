//! A word taken apart into its fields, and put together from them.

ghost use Rattle.std.specs.Prelude.{◌≡◌};
ghost use Rattle.cap_word.specs.Fields.{perms_of, reserved_of, flag_of, otype_of, ie_of, e_of, b_of, t_of, address_of};
ghost use Rattle.cap_word.specs.Fields.{joined_word};

use crate::fields::Fields;
use crate::word::Word;

impl Word {
    /// The permissions: bits 0 to 11 architectural, 12 to 15 for users.
    #[inline(always)]
    pub fn permissions(self) -> u16
        ensures value { result ≡ perms_of self.0 }
    {
        (self.0 >> 112) as u16
    }

    /// The object type, 18 bits; `0x3ffff` is unsealed.
    #[inline(always)]
    pub fn object_type(self) -> u32
        ensures value { result ≡ otype_of self.0 }
    {
        ((self.0 >> 91) & 0x3_ffff) as u32
    }

    /// The address.
    #[inline(always)]
    pub fn address(self) -> u64
        ensures value { result ≡ address_of self.0 }
    {
        (self.0 & 0xffff_ffff_ffff_ffff) as u64
    }
}

/// Takes a word apart. Every pattern of 128 bits has fields, and they join to the same pattern.
#[inline(always)]
pub fn split(word: Word) -> Fields
    ensures perms { result.perms ≡ perms_of word.0 }
    ensures reserved { result.reserved ≡ reserved_of word.0 }
    ensures flag { result.flag ≡ flag_of word.0 }
    ensures otype { result.otype ≡ otype_of word.0 }
    ensures ie { result.ie ≡ ie_of word.0 }
    ensures e { result.e ≡ e_of word.0 }
    ensures b { result.b ≡ b_of word.0 }
    ensures t { result.t ≡ t_of word.0 }
    ensures address { result.address ≡ address_of word.0 }
    ensures joins_back { joined_word result.perms result.reserved result.flag result.otype
        result.ie result.e result.b result.t result.address ≡ word.0 }
{
    let w = word.0;
    let ie = (w >> 90) & 1 == 1;
    let t_field = ((w >> 78) & 0xfff) as u16;
    let b_field = ((w >> 64) & 0x3fff) as u16;
    let (e, b, t) = if ie {
        (
            ((t_field & 7) << 3 | (b_field & 7)) as u8,
            b_field & 0x3ff8,
            t_field & 0xff8,
        )
    } else {
        (0, b_field, t_field)
    };
    Fields {
        perms: word.permissions(),
        reserved: ((w >> 110) & 3) as u8,
        flag: (w >> 109) & 1 == 1,
        otype: word.object_type(),
        ie,
        e,
        b,
        t,
        address: word.address(),
    }
}

/// Puts a word together: its fields are the given ones.
pub fn join(fields: &Fields) -> Word
    ensures word { result.0 ≡ joined_word fields.now.perms fields.now.reserved fields.now.flag fields.now.otype
        fields.now.ie fields.now.e fields.now.b fields.now.t fields.now.address }
    ensures perms { perms_of result.0 ≡ fields.now.perms }
    ensures reserved { reserved_of result.0 ≡ fields.now.reserved }
    ensures flag { flag_of result.0 ≡ fields.now.flag }
    ensures otype { otype_of result.0 ≡ fields.now.otype }
    ensures ie { ie_of result.0 ≡ fields.now.ie }
    ensures e { e_of result.0 ≡ fields.now.e }
    ensures b { b_of result.0 ≡ fields.now.b }
    ensures t { t_of result.0 ≡ fields.now.t }
    ensures address { address_of result.0 ≡ fields.now.address }
{
    let high = (u128::from(fields.perms) << 112) + (u128::from(fields.reserved) << 110);
    let middle = (u128::from(fields.flag) << 109) + (u128::from(fields.otype) << 91);
    let ie = u128::from(fields.ie) << 90;
    let t_field = u128::from(fields.t + u16::from(fields.e >> 3)) << 78;
    let b_field = u128::from(fields.b + u16::from(fields.e & 7)) << 64;
    Word(high + middle + ie + t_field + b_field + u128::from(fields.address))
}
