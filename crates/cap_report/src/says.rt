//! What a report says of a refused step or root, in a sentence.

ghost use Rattle.std.specs.Prelude.{◌≡◌, ◌+◌, ◌++◌, ◌*◌, ◌<◌, ◌≤◌, codes, length};
ghost use Rattle.cap_word.specs.Digits.{hex_digits};
ghost use Rattle.cap_log.specs.Lines.{place_spelling};
ghost use Rattle.cap_bounds.specs.{Bounds.{base_of, top_of}, Rounding.{rounded_base, rounded_top}};
ghost use Rattle.cap_streams.specs.Written.{Writes};
ghost use Rattle.cap_texts.specs.TextLines.{says_line};
ghost use Rattle.cap_machine.specs.{Helds.state_of, Shown.IsShown};
ghost use Rattle.cap_report.specs.Says.{address_text, asked_text, authority_register, escape_text, failed_text};
ghost use Rattle.cap_report.specs.Says.{given_text, has_bounds_of, is_cleared, lies_inside, misaligned_text};
ghost use Rattle.cap_report.specs.Says.{moved_text, needed_name, giver, needs_of, other_text, range_end, range_start};
ghost use Rattle.cap_report.specs.Says.{outside_text, request_text, rounding_text, sealed_text, seen_by, seen_sentence};
ghost use Rattle.cap_report.specs.Says.{step_sentence, tags_text, types_text, unstored_text, words_text};
ghost use Rattle.cap_report.specs.Sentences.{number_text, range_text};

use crate::operands::held_in;
use crate::sentences::{put_beyond, put_number, put_range};
use cap_bounds::{Interval, bounds, reach, round};
use cap_log::Place;
use cap_log::buffers::{put, put_decimal, put_flag, put_hex, put_place};
use cap_machine::{Given, Machine, Reached, Refusal, Request, Shown};
use cap_ops::perm_view;
use cap_word::{Cap, Word};
use tagmem::TaggedStore;

/// What a step read and asked for, as a sentence about it names it.
#[derive(Clone, Copy)]
pub struct Seen {
    /// The place of its source: c0 if it has none.
    pub place: Place,
    /// What that holds.
    pub source: Cap,
    /// The register of its authority: c0 if it has none.
    pub authority: Place,
    /// What that holds.
    pub held: Cap,
    /// What it asks for.
    pub request: Request,
    /// Its access to memory.
    pub access: Option<Reached>,
}

// The register of an authority.
fn authority_register(request: Request, access: Option<Reached>) -> u8
    ensures value { result ≡ authority_register request access }
    ensures register { result ≤ 31 }
{
    match request {
        Request::Authority(register, _) => register.number(),
        Request::Nothing | Request::Length(_) | Request::Address(_) => match access {
            Some(access) => access.authority.number(),
            None => 0,
        },
    }
}

// What a step read and asked for.
fn seen_by<M: TaggedStore>(machine: &Machine<M>, shown: &Shown) -> Seen
    requires in_range { IsShown shown.now }
    ensures value { result ≡ seen_by (state_of machine.now) shown.now }
{
    let place = match shown.source {
        Some(place) => place,
        None => Place::Register(0),
    };
    let authority = Place::Register(authority_register(shown.request, shown.access));
    let (source, _) = held_in(machine, false, place);
    let (held, _) = held_in(machine, false, authority);
    Seen {
        place,
        source,
        authority,
        held,
        request: shown.request,
        access: shown.access,
    }
}

// Writes that a place's capability is sealed.
fn put_sealed(buffer: &mut [u8], at: usize, place: Place, cap: Cap) -> usize
    requires { at + 64 ≤ length buffer.old }
    ensures written { Writes at (sealed_text place cap) buffer.old buffer.new result }
    ensures fits { result ≤ at + 64 }
{
    let at = put_place(buffer, at, place);
    let at = put(buffer, at, b" is sealed with type ");
    put_number(buffer, at, u128::from(cap.word.object_type()))
}

// Writes that a range goes beyond the bounds of a place's capability.
fn put_escape(
    buffer: &mut [u8],
    at: usize,
    name: &[u8],
    range: Interval,
    place: Place,
    cap: Cap,
) -> usize
    requires name { length name.now ≤ 21 }
    requires room { at + 160 ≤ length buffer.old }
    ensures written { Writes at (escape_text name.now range.base range.top place cap) buffer.old buffer.new result }
    ensures fits { result ≤ at + 160 }
{
    let at = put(buffer, at, name);
    let at = put_beyond(buffer, at, range, bounds(cap.word));
    let at = put_place(buffer, at, place);
    put(buffer, at, b"'s bounds")
}

// The bounds that a request asks for.
fn asked_range(base: u64, size: u64) -> Interval
    ensures base { result.base ≡ base }
    ensures top { result.top ≡ base + size }
{
    Interval {
        base,
        top: u128::from(base) + u128::from(size),
    }
}

// The bounds to which a request is rounded.
fn rounded_range(base: u64, size: u64) -> Interval
    ensures base { result.base ≡ rounded_base base size }
    ensures top { result.top ≡ rounded_top base size }
{
    let rounded = round(base, size);
    Interval {
        base: rounded.base,
        top: rounded.top,
    }
}

// Whether a range lies in the bounds of a capability.
fn lies_inside(range: Interval, cap: Cap) -> bool
    ensures value { result ≡ lies_inside range.base range.top cap }
{
    let within = bounds(cap.word);
    within.base <= range.base && range.top <= within.top
}

// Writes that the bounds asked for, or only those to which they are rounded, go beyond the source's.
fn put_request(buffer: &mut [u8], at: usize, seen: &Seen, size: u64) -> usize
    requires { at + 160 ≤ length buffer.old }
    ensures written { Writes at (request_text seen.now size) buffer.old buffer.new result }
    ensures fits { result ≤ at + 160 }
{
    let base = seen.source.word.address();
    let asked = asked_range(base, size);
    if lies_inside(asked, seen.source) {
        let range = rounded_range(base, size);
        let name = b"rounded, the request ";
        put_escape(buffer, at, name, range, seen.place, seen.source)
    } else {
        put_escape(buffer, at, b"the request ", asked, seen.place, seen.source)
    }
}

// Writes that the bounds asked for are rounded.
fn put_rounding(buffer: &mut [u8], at: usize, seen: &Seen, size: u64) -> usize
    requires { at + 160 ≤ length buffer.old }
    ensures written { Writes at (rounding_text seen.now size) buffer.old buffer.new result }
    ensures fits { result ≤ at + 160 }
{
    let base = seen.source.word.address();
    let at = put(buffer, at, b"rounded, the request ");
    let at = put_beyond(
        buffer,
        at,
        rounded_range(base, size),
        asked_range(base, size),
    );
    put(buffer, at, b"what it asks for")
}

/// The representable range of a word: the address space if each address keeps its bounds.
pub(crate) fn range_of(word: Word) -> Interval
    ensures start { result.base ≡ range_start word.0 }
    ensures end { result.top ≡ range_end word.0 }
{
    match reach(word) {
        Some((start, size)) => Interval {
            base: start,
            top: u128::from(start) + u128::from(size),
        },
        None => Interval {
            base: 0,
            top: 1 << 64,
        },
    }
}

// Writes that an address changes the bounds.
fn put_moved(buffer: &mut [u8], at: usize, seen: &Seen, address: u64) -> usize
    requires { at + 160 ≤ length buffer.old }
    ensures written { Writes at (moved_text seen.now address) buffer.old buffer.new result }
    ensures fits { result ≤ at + 160 }
{
    let at = put_number(buffer, at, u128::from(address));
    let at = put(buffer, at, b" isn't an address that keeps ");
    let at = put_place(buffer, at, seen.place);
    let at = put(buffer, at, b"'s bounds: these are ");
    put_range(buffer, at, range_of(seen.source.word))
}

// Writes why what a request asks for is refused.
fn put_asked(buffer: &mut [u8], at: usize, seen: &Seen, refusal: Refusal) -> usize
    requires { at + 160 ≤ length buffer.old }
    ensures written { Writes at (asked_text seen.now seen.now.request refusal) buffer.old buffer.new result }
    ensures fits { result ≤ at + 160 }
{
    match seen.request {
        Request::Length(length) => match refusal {
            Refusal::NotExact => put_rounding(buffer, at, seen, length),
            _ => put_request(buffer, at, seen, length),
        },
        Request::Address(address) => put_moved(buffer, at, seen, address),
        Request::Authority(_, _) | Request::Nothing => at,
    }
}

// The permission that an authority needs.
fn needed_name(needs: u32) -> &'static [u8]
    ensures name { result.now ≡ needed_name needs }
    ensures short { length result.now ≤ 6 }
{
    if needs == 1 << 7 {
        b"Seal"
    } else if needs == 1 << 9 {
        b"Unseal"
    } else if needs == 1 << 2 {
        b"Load"
    } else {
        b"Store"
    }
}

// The permissions that a request or an access needs.
fn needs_of(request: Request, access: Option<Reached>) -> u32
    ensures { result ≡ needs_of request access }
{
    match request {
        Request::Authority(_, needs) => needs,
        Request::Nothing | Request::Length(_) | Request::Address(_) => match access {
            Some(access) => access.needs,
            None => 0,
        },
    }
}

// Writes the authority's address.
fn put_address(buffer: &mut [u8], at: usize, seen: &Seen) -> usize
    requires { at + 64 ≤ length buffer.old }
    ensures written { Writes at (address_text seen.now) buffer.old buffer.new result }
    ensures fits { result ≤ at + 64 }
{
    let at = put_place(buffer, at, seen.authority);
    let at = put(buffer, at, b"'s address, ");
    put_number(buffer, at, u128::from(seen.held.word.address()))
}

// Writes that an access, or the authority's address, lies outside its bounds.
fn put_outside(buffer: &mut [u8], at: usize, seen: &Seen) -> usize
    requires { at + 160 ≤ length buffer.old }
    ensures written { Writes at (outside_text seen.now seen.now.access) buffer.old buffer.new result }
    ensures fits { result ≤ at + 160 }
{
    match seen.access {
        Some(access) => {
            let range = asked_range(access.address, u64::from(access.size));
            put_escape(buffer, at, b"the access ", range, seen.authority, seen.held)
        }
        None => {
            let at = put_address(buffer, at, seen);
            put(buffer, at, b", is outside its bounds")
        }
    }
}

// Writes an object type and the address that should be it.
fn put_types(buffer: &mut [u8], at: usize, seen: &Seen) -> usize
    requires { at + 160 ≤ length buffer.old }
    ensures written { Writes at (types_text seen.now) buffer.old buffer.new result }
    ensures fits { result ≤ at + 160 }
{
    let at = put_place(buffer, at, seen.place);
    let at = put(buffer, at, b"'s object type is ");
    let at = put_number(buffer, at, u128::from(seen.source.word.object_type()));
    let at = put(buffer, at, b", and ");
    let at = put_place(buffer, at, seen.authority);
    let at = put(buffer, at, b"'s address ");
    put_number(buffer, at, u128::from(seen.held.word.address()))
}

// Writes an address and the size that it should be a multiple of, if there is an access.
#[tactic(auto, using(cap_log::proofs::ElementLemmas::short_decimal))]
fn put_misaligned(buffer: &mut [u8], at: usize, access: Option<Reached>) -> usize
    requires { at + 160 ≤ length buffer.old }
    ensures written { Writes at (misaligned_text access) buffer.old buffer.new result }
    ensures fits { result ≤ at + 160 }
{
    match access {
        Some(access) => {
            let at = put(buffer, at, b"the address ");
            let at = put_number(buffer, at, u128::from(access.address));
            let at = put(buffer, at, b" isn't a multiple of ");
            put_decimal(buffer, at, u64::from(access.size))
        }
        None => at,
    }
}

// Writes that a capability may not be stored through an authority.
fn put_unstored(buffer: &mut [u8], at: usize, seen: &Seen, has: &[u8], lacks: &[u8]) -> usize
    requires texts { length has.now + length lacks.now ≤ 52 }
    requires room { at + 160 ≤ length buffer.old }
    ensures written { Writes at (unstored_text seen.now has.now lacks.now) buffer.old buffer.new result }
    ensures fits { result ≤ at + 160 }
{
    let at = put_place(buffer, at, seen.place);
    let at = put(buffer, at, has);
    let at = put(buffer, at, b", and ");
    let at = put_place(buffer, at, seen.authority);
    let at = put(buffer, at, b" lacks ");
    put(buffer, at, lacks)
}

/// Writes a place, and what is wrong with what it holds.
pub(crate) fn put_of_place(buffer: &mut [u8], at: usize, place: Place, text: &[u8]) -> usize
    requires text { length text.now ≤ 40 }
    requires room { at + 64 ≤ length buffer.old }
    ensures written { Writes at (place_spelling place ++ text.now) buffer.old buffer.new result }
    ensures fits { result ≤ at + 64 }
{
    let at = put_place(buffer, at, place);
    put(buffer, at, text)
}

// Writes why a check of a step fails.
fn put_failed(buffer: &mut [u8], at: usize, seen: &Seen, refusal: Refusal) -> usize
    requires { at + 160 ≤ length buffer.old }
    ensures written { Writes at (failed_text seen.now refusal) buffer.old buffer.new result }
    ensures fits { result ≤ at + 160 }
{
    match refusal {
        Refusal::SourceUntagged => put_of_place(buffer, at, seen.place, b" has no tag"),
        Refusal::AuthorityUntagged => put_of_place(buffer, at, seen.authority, b" has no tag"),
        Refusal::SourceSealed => put_sealed(buffer, at, seen.place, seen.source),
        Refusal::AuthoritySealed => put_sealed(buffer, at, seen.authority, seen.held),
        Refusal::BoundsEscape | Refusal::NotExact | Refusal::NotRepresentable => {
            put_asked(buffer, at, seen, refusal)
        }
        Refusal::AuthorityPermission => {
            let at = put_place(buffer, at, seen.authority);
            let at = put(buffer, at, b" lacks ");
            put(buffer, at, needed_name(needs_of(seen.request, seen.access)))
        }
        Refusal::AuthorityBounds => put_outside(buffer, at, seen),
        Refusal::TypeOutOfRange => {
            let at = put_address(buffer, at, seen);
            put(buffer, at, b", is above the greatest object type")
        }
        Refusal::TypeMismatch => put_types(buffer, at, seen),
        Refusal::Misaligned => put_misaligned(buffer, at, seen.access),
        Refusal::StoreCapPermission => {
            put_unstored(buffer, at, seen, b" has a tag", b"Store Capability")
        }
        Refusal::StoreLocalPermission => put_unstored(
            buffer,
            at,
            seen,
            b" has a tag and lacks Global",
            b"Store Local Capability",
        ),
        _ => at,
    }
}

// If a result comes from that isn't recorded.
fn giver(access: Option<Reached>) -> &'static [u8]
    ensures text { result.now ≡ giver access }
    ensures short { length result.now ≤ 17 }
{
    match access {
        Some(_) => b"; memory holds ",
        None => b"; the rules give ",
    }
}

// Whether the rules clear a recorded tag.
fn is_cleared(seen: &Seen, recorded: bool, fault: Option<Refusal>) -> bool
    ensures value { result ≡ is_cleared seen.now recorded fault }
{
    recorded && (fault.is_some() || (seen.source.tag && seen.access.is_some()))
}

// Writes two tags that differ.
fn put_tags(
    buffer: &mut [u8],
    at: usize,
    seen: &Seen,
    recorded: bool,
    fault: Option<Refusal>,
) -> usize
    requires { at + 200 ≤ length buffer.old }
    ensures written { Writes at (tags_text seen.now recorded fault) buffer.old buffer.new result }
    ensures fits { result ≤ at + 200 }
{
    if is_cleared(seen, recorded, fault) {
        let at = put(buffer, at, b"it records tag 1; the rules clear it: ");
        match fault {
            Some(fault) => put_failed(buffer, at, seen, fault),
            None => {
                let at = put_place(buffer, at, seen.authority);
                put(buffer, at, b" lacks Load Capability")
            }
        }
    } else {
        let at = put(buffer, at, b"it records ");
        let at = put(buffer, at, b"tag ");
        let at = put_flag(buffer, at, recorded);
        let at = put(buffer, at, giver(seen.access));
        let at = put(buffer, at, b"tag ");
        put_flag(buffer, at, !recorded)
    }
}

// Writes two numbers that differ.
fn put_other(
    buffer: &mut [u8],
    at: usize,
    by: &[u8],
    name: &[u8],
    recorded: u128,
    given: u128,
) -> usize
    requires by { length by.now ≤ 17 }
    requires name { length name.now ≤ 20 }
    requires room { at + 200 ≤ length buffer.old }
    ensures written { Writes at (other_text by.now name.now (number_text recorded) (number_text given)) buffer.old buffer.new result }
    ensures fits { result ≤ at + 200 }
{
    let at = put(buffer, at, b"it records ");
    let at = put(buffer, at, name);
    let at = put_number(buffer, at, recorded);
    let at = put(buffer, at, by);
    let at = put(buffer, at, name);
    put_number(buffer, at, given)
}

// Writes two bounds that differ.
fn put_other_bounds(buffer: &mut [u8], at: usize, by: &[u8], recorded: Word, given: Word) -> usize
    requires by { length by.now ≤ 17 }
    requires room { at + 200 ≤ length buffer.old }
    ensures written { Writes at (other_text by.now (codes "bounds ") (range_text (base_of recorded.0) (top_of recorded.0)) (range_text (base_of given.0) (top_of given.0))) buffer.old buffer.new result }
    ensures fits { result ≤ at + 200 }
{
    let at = put(buffer, at, b"it records ");
    let at = put(buffer, at, b"bounds ");
    let at = put_range(buffer, at, bounds(recorded));
    let at = put(buffer, at, by);
    let at = put(buffer, at, b"bounds ");
    put_range(buffer, at, bounds(given))
}

// Whether two words have the same bounds.
fn has_bounds_of(given: Word, recorded: Word) -> bool
    ensures value { result ≡ has_bounds_of given.0 recorded.0 }
{
    let (one, other) = (bounds(given), bounds(recorded));
    one.base == other.base && one.top == other.top
}

/// Writes in what two words differ, at an index of the buffer, and returns the index after it. Nothing else of the buffer
/// changes.
pub fn put_words(buffer: &mut [u8], at: usize, by: &[u8], given: Word, recorded: Word) -> usize
    requires by { length by.now ≤ 17 }
    requires room { at + 200 ≤ length buffer.old }
    ensures written { Writes at (words_text by.now given.0 recorded.0) buffer.old buffer.new result }
    ensures fits { result ≤ at + 200 }
{
    if !has_bounds_of(given, recorded) {
        return put_other_bounds(buffer, at, by, recorded, given);
    }
    let (one, other) = (given.address(), recorded.address());
    if one != other {
        let (one, other) = (u128::from(one), u128::from(other));
        return put_other(buffer, at, by, b"address ", other, one);
    }
    let (one, other) = (perm_view(given), perm_view(recorded));
    if one != other {
        let at = put(buffer, at, b"it records ");
        let at = put(buffer, at, b"permissions 0x");
        let at = put_hex(buffer, at, 8, u128::from(other));
        let at = put(buffer, at, by);
        let at = put(buffer, at, b"permissions 0x");
        return put_hex(buffer, at, 8, u128::from(one));
    }
    let (one, other) = (given.object_type(), recorded.object_type());
    if one != other {
        let (one, other) = (u128::from(one), u128::from(other));
        return put_other(buffer, at, by, b"object type ", other, one);
    }
    put(
        buffer,
        at,
        b"it records a word of the same meaning, but with other bits",
    )
}

// Writes a result that isn't the one the rules give.
fn put_given(buffer: &mut [u8], at: usize, seen: &Seen, given: Given) -> usize
    requires { at + 200 ≤ length buffer.old }
    ensures written { Writes at (given_text seen.now given) buffer.old buffer.new result }
    ensures fits { result ≤ at + 200 }
{
    match given {
        Given::Capability {
            cap,
            fault,
            recorded,
            ..
        } => {
            if cap.tag == recorded.tag {
                put_words(buffer, at, giver(seen.access), cap.word, recorded.word)
            } else {
                put_tags(buffer, at, seen, recorded.tag, fault)
            }
        }
        Given::Number {
            value,
            size,
            recorded,
        } => {
            let digits = 2 * usize::from(size.bytes());
            let at = put(buffer, at, b"it records 0x");
            let at = put_hex(buffer, at, digits, u128::from(recorded));
            let at = put(buffer, at, b"; memory holds 0x");
            put_hex(buffer, at, digits, u128::from(value))
        }
        Given::Nothing => at,
    }
}

// Writes why a step was refused.
fn put_sentence(buffer: &mut [u8], at: usize, seen: &Seen, given: Given, refusal: Refusal) -> usize
    requires { at + 200 ≤ length buffer.old }
    ensures written { Writes at (seen_sentence seen.now given refusal) buffer.old buffer.new result }
    ensures fits { result ≤ at + 200 }
{
    match refusal {
        Refusal::WrongResult => put_given(buffer, at, seen, given),
        _ => put_failed(buffer, at, seen, refusal),
    }
}

/// Writes in a sentence why a step was refused, as a line at an index of the buffer, and returns the index after it.
/// Nothing else of the buffer changes. The machine is as it was before the step.
#[tactic(auto, unfolding(cap_texts::specs::TextLines::says_line))]
pub fn put_step_says<M: TaggedStore>(
    machine: &Machine<M>,
    shown: &Shown,
    refusal: Refusal,
    buffer: &mut [u8],
    at: usize,
) -> usize
    requires in_range { IsShown shown.now }
    requires room { at + 206 ≤ length buffer.old }
    ensures written { Writes at (says_line (step_sentence (state_of machine.now) shown.now refusal)) buffer.old buffer.new result }
    ensures fits { result ≤ at + 206 }
{
    let seen = seen_by(machine, shown);
    let at = put(buffer, at, b"says ");
    let at = put_sentence(buffer, at, &seen, shown.given, refusal);
    put(buffer, at, b"\n")
}
