//! The kinds of lines, as C has them. Those that only run logs have begin at 64.

/// No line.
pub const NO_LINE: u8 = 0;

/// A version line.
pub const VERSION: u8 = 1;

/// A mode line.
pub const MODE: u8 = 2;

/// A root in a register.
pub const ROOT: u8 = 3;

/// A root in memory.
pub const ROOT_AT: u8 = 4;

/// A step `move`.
pub const MOVE: u8 = 5;

/// A step `cleartag`.
pub const CLEARTAG: u8 = 6;

/// A step `setbounds`.
pub const SETBOUNDS: u8 = 7;

/// A step `setboundsexact`.
pub const SETBOUNDSEXACT: u8 = 8;

/// A step `setaddr`.
pub const SETADDR: u8 = 9;

/// A step `andperm`.
pub const ANDPERM: u8 = 10;

/// A step `seal`.
pub const SEAL: u8 = 11;

/// A step `unseal`.
pub const UNSEAL: u8 = 12;

/// A step `lc`.
pub const LC: u8 = 13;

/// A step `sc`.
pub const SC: u8 = 14;

/// A step `load`.
pub const LOAD: u8 = 15;

/// A step `store`.
pub const STORE: u8 = 16;

/// The end line.
pub const END: u8 = 17;

/// The first number of a kind that only run logs have.
pub const FIRST_RUN_KIND: u8 = 64;

/// A step `derive`.
pub const DERIVE: u8 = 64;

/// A step `exchange`.
pub const EXCHANGE: u8 = 65;

/// A step `invoke`.
pub const INVOKE: u8 = 66;

/// A step `drop`.
pub const DROP: u8 = 67;

/// A step `fill`.
pub const FILL: u8 = 68;

/// A step `object`.
pub const OBJECT: u8 = 69;

/// A step `free`.
pub const FREE: u8 = 70;

/// The version line of a run log.
pub const RUN_VERSION: u8 = 71;

/// A root in a special register.
pub const ROOT_SPECIAL: u8 = 72;

/// A hart line.
pub const HART: u8 = 73;
