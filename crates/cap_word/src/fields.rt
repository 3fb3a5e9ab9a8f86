//! The fields of a word.

ghost use Rattle.std.specs.Prelude.{◌≡◌, ◌<◌, ◌%◌, ◌^◌, true, false};

/// The fields of a word, each as a number of its own.
///
/// With the internal exponent bit `ie`, the lowest three bits of the B and of the T field hold the
/// exponent: here they stand in `e`, and are zero in `b` and `t` (Sail CHERI-RISC-V: `capBitsToCapability`).
#[derive(Debug, Clone, Copy, PartialEq, Eq)]
pub struct Fields {
    /// The permissions: bits 0 to 11 architectural, 12 to 15 for users.
    pub perms: u16,
    /// The two reserved bits, kept as they are.
    pub reserved: u8,
    /// The capability-mode flag.
    pub flag: bool,
    /// The object type, 18 bits; `0x3ffff` is unsealed.
    pub otype: u32,
    /// Whether the exponent stands in the word.
    pub ie: bool,
    /// The exponent E, six bits; 0 without `ie`.
    pub e: u8,
    /// B, the mantissa of the base, 14 bits.
    pub b: u16,
    /// The low twelve bits of T, the mantissa of the top.
    pub t: u16,
    /// The address.
    pub address: u64,
    pub ghost reserved_fits: { reserved < 2 ^ 2 },
    pub ghost otype_fits: { otype < 2 ^ 18 },
    pub ghost e_fits: { e < 2 ^ 6 },
    pub ghost b_fits: { b < 2 ^ 14 },
    pub ghost t_fits: { t < 2 ^ 12 },
    pub ghost no_exponent: { ie ≡ false → e ≡ 0 },
    pub ghost b_aligned: { ie ≡ true → b % 8 ≡ 0 },
    pub ghost t_aligned: { ie ≡ true → t % 8 ≡ 0 },
}
