//! The members of an object.

ghost use Rattle.std.specs.Prelude.{[], ◌≡◌, ◌++◌, OnOk};
ghost use Rattle.cap_json.specs.{declared.rows.Place.TheVariants.Alone, Words.lines_of};
ghost use Rattle.cap_json.specs.Members.{between, closing, continues, filled, members, opening};

use crate::rows::{Place, member_of};
use crate::words::{cut, push_escaped};
use std::alloc::AllocError;

/// Appends a form, filled with values.
#[tactic(auto, unfolding(crate::specs::Members::filled))]
pub(crate) fn push_filled(
    object: &mut Vec<u8>,
    form: &[u8],
    values: &[u8],
) -> Result<(), AllocError>
    ensures ok { OnOk result (object.new.items ≡ object.old.items ++ filled form.now values.now) }
{
    let Some((first, form)) = form.split_first() else {
        return Ok(());
    };
    match *first {
        b'$' => {
            let (word, values) = cut(b' ', values);
            push_escaped(object, word)?;
            push_filled(object, form, values)
        }
        b'*' => {
            push_escaped(object, values)?;
            push_filled(object, form, &[])
        }
        b'\'' => {
            object.push(b'"')?;
            push_filled(object, form, values)
        }
        byte => {
            object.push(byte)?;
            push_filled(object, form, values)
        }
    }
}

// Whether the members of two lines stand in the same object or array within the object.
fn continues(last: Place, group: &[u8], place: Place, name: &[u8]) -> bool
    ensures value { result ≡ continues last group.now place name.now }
{
    match (last, place) {
        (Place::Part, Place::Part) | (Place::Element, Place::Element) => group == name,
        _ => false,
    }
}

// What ends the members of a place.
fn closing(place: Place) -> &'static [u8]
    ensures value { result.now ≡ closing place }
{
    match place {
        Place::Alone => b"",
        Place::Part => b"}",
        Place::Element => b"]",
    }
}

// Appends what begins the members of a place.
#[tactic(auto, unfolding(crate::specs::Members::opening))]
fn push_opening(object: &mut Vec<u8>, place: Place, name: &[u8]) -> Result<(), AllocError>
    ensures ok { OnOk result (object.new.items ≡ object.old.items ++ opening place name.now) }
{
    let opening = match place {
        Place::Alone => return Ok(()),
        Place::Part => b"\":{",
        Place::Element => b"\":[",
    };
    object.push(b'"')?;
    push_escaped(object, name)?;
    object.extend_from_slice(opening)
}

// Appends what stands between the members of two lines.
#[tactic(auto, unfolding(crate::specs::Members::between))]
fn push_between(
    object: &mut Vec<u8>,
    last: Place,
    group: &[u8],
    place: Place,
    name: &[u8],
) -> Result<(), AllocError>
    ensures ok { OnOk result (object.new.items ≡ object.old.items ++ between last group.now place name.now) }
{
    if continues(last, group, place, name) {
        object.push(b',')?;
        return Ok(());
    }
    object.extend_from_slice(closing(last))?;
    object.push(b',')?;
    push_opening(object, place, name)
}

/// Appends the members that the lines after a verdict are.
pub(crate) fn push_members(object: &mut Vec<u8>, lines: &[u8]) -> Result<(), AllocError>
    ensures ok { OnOk result (object.new.items ≡ object.old.items ++ members Alone [] (lines_of lines.now)) }
{
    let mut last = Place::Alone;
    let mut group: &[u8] = &[];
    let mut rest = lines;
    while !rest.is_empty() {
        let (line, more) = cut(b'\n', rest);
        let (name, _) = cut(b' ', line);
        let member = member_of(line);
        push_between(object, last, group, member.place, name)?;
        push_filled(object, member.form.as_bytes(), member.values)?;
        last = member.place;
        group = name;
        rest = more;
    }
    object.extend_from_slice(closing(last))
}
