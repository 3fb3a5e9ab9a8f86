//! The names of all refusals, and a sentence for each, by number: the one table of logs, run logs and allocators' logs.

ghost use Rattle.std.specs.Prelude.{◌≡◌, ◌≤◌, length};
ghost use Rattle.cap_ops.specs.Refusals.{refusal_name_at, refusal_sentence_at};

/// The name of the refusal with a number, 1 to 41, and an empty text of every other number.
pub fn refusal_name_at(number: u8) -> &'static str
    ensures name { result.now ≡ refusal_name_at number }
    ensures short { length result.now ≤ 20 }
{
    match number {
        0 => "",
        1 => "BadHeader",
        2 => "LineTooLong",
        3 => "BadLine",
        4 => "Misplaced",
        5 => "Truncated",
        6 => "WrongCount",
        7 => "PlaceTaken",
        8 => "UnsoundRoot",
        9 => "SourceUntagged",
        10 => "SourceSealed",
        11 => "BoundsEscape",
        12 => "NotExact",
        13 => "NotRepresentable",
        14 => "AuthorityUntagged",
        15 => "AuthoritySealed",
        16 => "AuthorityPermission",
        17 => "AuthorityBounds",
        18 => "TypeOutOfRange",
        19 => "TypeMismatch",
        20 => "Misaligned",
        21 => "StoreCapPermission",
        22 => "StoreLocalPermission",
        23 => "WrongResult",
        24 => "LimitPassed",
        25 => "BadMode",
        26 => "AddressTaken",
        27 => "OutsideHeap",
        28 => "Overlaps",
        29 => "NotLive",
        30 => "UnsoundResult",
        31 => "BeyondSource",
        32 => "SealChanged",
        33 => "NotInvokable",
        34 => "NoCapability",
        35 => "HasOwner",
        36 => "StillHeld",
        37 => "NoOwner",
        38 => "AlreadyFreed",
        39 => "OwnerFreed",
        40 => "NoObject",
        41 => "NotOwned",
        42.. => "",
    }
}

/// Why a line is refused, by the number of the refusal, and an empty text of a number that no refusal has.
pub fn refusal_sentence_at(number: u8) -> &'static str
    ensures sentence { result.now ≡ refusal_sentence_at number }
    ensures short { length result.now ≤ 95 }
{
    match number {
        0 => "",
        1 => "The first line is neither `capcheck 1` nor `capcheck 2`.",
        2 => "The line has more than 95 bytes.",
        3 => "The line has none of the forms of the log's version.",
        4 => "The line may not stand here.",
        5 => "The bytes end before a line feed, or before the end line.",
        6 => "The end line's number isn't the number of steps.",
        7 => "The root's place has a root already.",
        8 => "The root's word isn't sound.",
        9 => "The source is untagged, and the step needs a tagged one.",
        10 => "The source is sealed, and the step needs an unsealed one.",
        11 => "The rounded bounds don't lie inside the source's bounds.",
        12 => "Rounding changes the requested bounds.",
        13 => "The new address doesn't keep the source's bounds.",
        14 => "The authority is untagged.",
        15 => "The authority is sealed.",
        16 => "The authority lacks the permission that the step needs.",
        17 =>
            "The authority's address, or a byte of the access, lies outside the authority's bounds.",
        18 => "The authority's address is above the greatest ordinary object type.",
        19 => "The source's object type isn't the authority's address, or is reserved.",
        20 => "The address of the access is no multiple of its size.",
        21 => "A tagged capability is stored without Store Capability.",
        22 => "A tagged capability that isn't Global is stored without Store Local Capability.",
        23 => "The recorded result or value isn't the machine's.",
        24 => "A limit on roots, granules or steps is passed.",
        25 => "The line after the version line of version 2 is no mode line.",
        26 => "An object lives at this very address.",
        27 => "The rounded bounds don't lie inside the root's.",
        28 => "The extent shares an address with that of a live object.",
        29 => "No object lives at the address that is freed.",
        30 => "The recorded word isn't sound.",
        31 => "The word has bounds or permissions beyond its source's.",
        32 => "The seal isn't kept.",
        33 => "The two registers hold no pair for CInvoke.",
        34 => "The register has no tag, or is sealed where it has to be unsealed.",
        35 => "The register has an owner already.",
        36 => "A capability of a freed object still reaches the memory that is handed out.",
        37 => "No object owns what is freed.",
        38 => "The object was freed before.",
        39 => "The object that owns the authority of the access was freed.",
        40 => "No object with this number was handed out.",
        41 => "The authority of the access has no owner, and a byte of a live object is touched.",
        42.. => "",
    }
}
