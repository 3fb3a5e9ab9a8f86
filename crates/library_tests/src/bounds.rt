//! Bounds and roundings beside the plain programs of their definitions, on words and requests around every edge.

use cap_bounds::{align_mask, bounds, keeps_bounds, least_law, reach, round, round_length, sound};
use cap_word::Word;
use plain::{plain_bounds, plain_keeps, plain_round, plain_sound};

/// The bits 3 to 10 of a B or T field: all 1 where the lowest bit of a number is.
fn middle_bits(choice: u32) -> u32 {
    if choice & 1 == 1 { 0x7f8 } else { 0 }
}

/// A word for each IE, each six bits of E, each of B's three highest bits, each of the three bits of the address that
/// are compared with them, and each bit 11 of T, where the other bits of T, of B and of the address are all 0 or all 1.
/// Of the index, the low six bits are E's.
fn hostile_word(index: u32) -> Word {
    let e = index & 63;
    let b = ((index >> 6) & 7) << 11 | middle_bits(index >> 14) | (e & 7);
    let t = ((index >> 12) & 1) << 11 | middle_bits(index >> 13) | (e >> 3);
    let ie = ((index >> 16) & 1) ^ 1;
    let lowest = if ie == 0 { 11 } else { e.min(52) + 11 };
    let others = if (index >> 15) & 1 == 1 {
        !(7u128 << lowest)
    } else {
        0
    };
    let address = (u128::from((index >> 9) & 7) << lowest | others) & 0xffff_ffff_ffff_ffff;
    Word(u128::from(ie) << 90 | u128::from(t) << 78 | u128::from(b) << 64 | address)
}

// Whether a word has the plain programs' bounds, and keeps them at two addresses where they say so.
fn has_plain_bounds(word: Word, further: [u64; 2]) -> bool {
    bounds(word) == plain_bounds(word)
        && sound(word) == plain_sound(word)
        && further.iter().all(|address| keeps_bounds(word, *address) == plain_keeps(word, *address))
}

// An address high up, and one around 0.
#[test]
fn hostile_words_have_their_plain_bounds(rt: HostRuntime) {
    for index in 0..0x20000u32 {
        let further = [u64::from(index) << 50, 0u64.wrapping_sub(u64::from(index))];
        assert!(rt; has_plain_bounds(hostile_word(index), further), "{index}");
    }
}

// Whether a request has the plain programs' rounding.
fn has_plain_rounding(base: u64, length: u64) -> bool {
    round(base, length) == plain_round(base, length)
}

// Bases and lengths around each pair of powers of two.
#[test]
fn requests_at_edges_have_their_plain_rounding(rt: HostRuntime) {
    for index in 0..0x10000u32 {
        let base = (1u64 << (index & 63)).wrapping_sub(u64::from((index >> 12) & 3));
        let length = (1u64 << ((index >> 6) & 63))
            .wrapping_add(1)
            .wrapping_sub(u64::from(index >> 14));
        assert!(rt; has_plain_rounding(base, length), "{index}");
    }
}

// Long requests that end about the end of the address space.
#[test]
fn requests_at_the_end_have_their_plain_rounding(rt: HostRuntime) {
    for index in 0..0x400u32 {
        let length = (1u64 << (index & 63))
            .wrapping_add(u64::from(index >> 6))
            .wrapping_sub(8);
        let base = u64::from(index >> 8).wrapping_sub(length);
        assert!(rt; has_plain_rounding(base, length), "{index}");
    }
}

// The first address and the size of a word's representable range.
#[test]
fn representable_ranges(rt: HostRuntime) {
    for (word, range) in [
        (
            0xffff_1fff_fbff_c000_0000_0000_0000_0000,
            Some((0xffff_ffff_ffff_f800, 0x4000)),
        ),
        (
            0xffff_1fff_fc01_8001_0000_0000_0000_0000,
            Some((0xf000_0000_0000_0000, 0x8000_0000_0000_0000)),
        ),
        (0xffff_1fff_fc01_8004_0000_0000_0000_0000, None),
        (0xffff_1fff_fc01_8002_0000_0000_0000_0000, None),
    ] {
        assert_eq!(rt; reach(Word(word)), range, "{word:x}");
    }
}

// The least exact length, and the mask for where it may begin.
#[test]
fn exact_lengths(rt: HostRuntime) {
    for (length, exact, mask) in [
        (0xfff, 0xfff, 0xffff_ffff_ffff_ffff),
        (0x1001, 0x1008, 0xffff_ffff_ffff_fff8),
        (0x1fff, 0x2000, 0xffff_ffff_ffff_fff0),
        (0xffff_ffff_ffff_ffff, 1 << 64, 0xff80_0000_0000_0000),
    ] {
        assert_eq!(rt;
            (round_length(length), align_mask(length)),
            (exact, mask),
            "{length:x}"
        );
    }
}

// Requests by base and length, and whether they are inside a word's bounds.
#[test]
fn requests_inside_bounds(rt: HostRuntime) {
    for (word, base, length, is_inside) in [
        (
            0xffff_1fff_fbff_d000_0000_0000_0000_1000,
            0x1000,
            0xfff,
            true,
        ),
        (
            0xffff_1fff_fbff_d000_0000_0000_0000_1000,
            0x1000,
            0x1000,
            false,
        ),
        (
            0xffff_1fff_fc01_c007_0000_0000_0000_0000,
            1,
            0xffff_ffff_ffff_fffe,
            true,
        ),
        (0xffff_1fff_f800_0000_0000_0000_0000_0000, 0, 0, true),
        (0xffff_1fff_f800_0000_0000_0000_0000_0000, 0, 1, false),
    ] {
        let word = Word(word);
        assert!(rt;
            sound(word) && least_law(word, base, length) == is_inside,
            "{base:x} {length:x}"
        );
    }
}
