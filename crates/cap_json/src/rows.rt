//! The lines of reports, by their names, and the members that they are.

ghost use Rattle.std.specs.Prelude.{◌≡◌, map, option_map};
ghost use Rattle.cap_json.specs.Rows.{lone_rows, part_rows, verdict_rows};
ghost use Rattle.cap_json.specs.Members.{described, form_by_words, member_in, member_of, verdict_of};
ghost use Rattle.cap_json.specs.Readings.{member_parts, row_parts};

use crate::rows::Place::{Alone, Element, Part};
use crate::words::{begins, cut};

/// The log that a report is of.
#[derive(Clone, Copy)]
pub enum LogKind {
    /// A log of version 1 or 2.
    Machine,
    /// The log of an allocator.
    Heap,
    /// A run log.
    Run,
}

/// Where the member of a line stands.
#[derive(Clone, Copy)]
pub(crate) enum Place {
    /// In the object itself.
    Alone,
    /// In the object that the line's first word names.
    Part,
    /// In the array that the line's first word names.
    Element,
}

/// How a line that begins so is shown: where it stands, and the form that its values fill.
#[derive(Clone, Copy)]
pub(crate) struct Row(&'static str, Place, &'static str);

/// The member that a line is.
#[derive(Clone, Copy)]
pub(crate) struct Member<'a> {
    /// Where it stands.
    pub(crate) place: Place,
    /// Its form.
    pub(crate) form: &'static str,
    /// The values that fill the form.
    pub(crate) values: &'a [u8],
}

// The line of a `no`.
const NO: Row = Row(
    "no ",
    Alone,
    "'verdict':'no','line':$,'number':$,'name':'$'",
);

// The line in place of a verdict if the log can't be opened.
const UNOPENED: Row = Row("unopened ", Alone, "'unopened':'*'");

// The lines of verdicts.
#[tactic(auto, unfolding(crate::specs::Rows::verdict_rows))]
fn verdict_rows(kind: LogKind) -> &'static [Row]
    ensures value { map row_parts result.now ≡ verdict_rows kind }
{
    match kind {
        LogKind::Machine => &[
            Row("yes ", Alone, "'verdict':'yes','steps':$,'roots':$"),
            NO,
            UNOPENED,
        ],
        LogKind::Heap => &[
            Row("yes ", Alone, "'verdict':'yes','events':$,'live':$"),
            NO,
            UNOPENED,
        ],
        LogKind::Run => &[
            Row(
                "yes ",
                Alone,
                "'verdict':'yes','steps':$,'roots':$,'objects':$",
            ),
            NO,
            UNOPENED,
        ],
    }
}

// The lines that describe no capability.
#[tactic(auto, unfolding(crate::specs::Rows::lone_rows))]
fn lone_rows() -> &'static [Row]
    ensures value { map row_parts result.now ≡ lone_rows }
{
    &[
        Row("file ", Alone, "'file':'*'"),
        Row("asked ", Alone, "'asked':'*'"),
        Row("line ", Alone, "'text':'*'"),
        Row("found ", Alone, "'found':'*'"),
        Row("expected ", Alone, "'expected':'*'"),
        Row("hint ", Alone, "'hint':'*'"),
        Row("says ", Alone, "'says':'*'"),
        Row("differs ", Alone, "'differs':'*'"),
        Row("column ", Alone, "'column':$"),
        Row("roots ", Alone, "'roots':$"),
        Row("steps ", Alone, "'steps':$"),
        Row("granules ", Alone, "'granules':$"),
        Row("events ", Alone, "'events':$"),
        Row("objects ", Alone, "'objects':$"),
        Row("most ", Alone, "'most':$"),
        Row("inexact ", Alone, "'inexact':$"),
        Row("excess ", Alone, "'excess':$"),
        Row("padding ", Alone, "'padding':$"),
        Row("gaps ", Alone, "'gaps':$"),
        Row("freed ", Alone, "'freed':$"),
        Row("gone ", Alone, "'gone':$"),
        Row("needs ", Alone, "'needs':'$'"),
        Row("length ", Alone, "'length':'$'"),
        Row("alignment ", Alone, "'alignment':'$'"),
        Row("live length ", Alone, "'live_length':'$'"),
        Row("live alignment ", Alone, "'live_alignment':'$'"),
        Row("request ", Alone, "'request':['$','$']"),
        Row("rounded ", Alone, "'rounded':['$','$']"),
        Row("live request ", Alone, "'live_request':['$','$']"),
        Row("live rounded ", Alone, "'live_rounded':['$','$']"),
        Row("moved ", Alone, "'moved':['$','$']"),
        Row("representable ", Alone, "'representable':['$','$']"),
        Row("access ", Alone, "'access':['$','$']"),
        Row("extent ", Alone, "'extent':['$','$']"),
        Row("cleared ", Alone, "'cleared':{'number':$,'name':'$'}"),
        Row("before ", Element, "{'line':$,'text':'*'}"),
        Row("wrote ", Element, "{'place':'$','line':$,'text':'*'}"),
        Row("origin ", Element, "{'place':'$','root':'$'}"),
        Row("owner ", Element, "{'place':'$','object':$}"),
        Row(
            "object ",
            Element,
            "{'number':$,'line':$,'extent':['$','$'],'state':'$','held':$}",
        ),
    ]
}

// The lines that describe a capability, by what follows its name.
#[tactic(auto, unfolding(crate::specs::Rows::part_rows))]
fn part_rows() -> &'static [Row]
    ensures value { map row_parts result.now ≡ part_rows }
{
    &[
        Row("perms ", Part, "'perms':'$'"),
        Row("otype ", Part, "'otype':'$','kind':'$'"),
        Row("bounds ", Part, "'bounds':['$','$']"),
        Row("origin ", Part, "'origin':'$'"),
        Row("owner ", Part, "'owner':$"),
    ]
}

// The member that a line is by the first row whose name it begins with.
#[tactic(auto, unfolding(crate::specs::Members::member_in))]
fn member_in<'a>(rows: &[Row], line: &'a [u8]) -> Option<Member<'a>>
    ensures value { option_map member_parts result ≡ member_in (map row_parts rows.now) line.now }
{
    let (row, rows) = rows.split_first()?;
    let Row(name, place, form) = *row;
    let name = name.as_bytes();
    if begins(name, line) {
        return Some(Member {
            place,
            form,
            values: &line[name.len()..],
        });
    }
    member_in(rows, line)
}

// The form of a capability's first line by how many words follow its name.
#[tactic(auto, unfolding(crate::specs::Members::form_by_words))]
fn form_by_words(values: &[u8]) -> &'static str
    ensures value { result.now ≡ form_by_words values.now }
{
    let (_, second) = cut(b' ', values);
    let (_, third) = cut(b' ', second);
    if second.is_empty() {
        "'value':'$'"
    } else if third.is_empty() {
        "'bounds':['$','$']"
    } else {
        "'place':'$','tag':$,'word':'$'"
    }
}

// The member that a line is by what follows its first word.
#[tactic(auto, unfolding(crate::specs::Members::described))]
fn described(values: &[u8]) -> Member<'_>
    ensures value { member_parts result ≡ described values.now }
{
    match member_in(part_rows(), values) {
        Some(member) => member,
        None => Member {
            place: Part,
            form: form_by_words(values),
            values,
        },
    }
}

/// The member that a line is.
#[tactic(auto, unfolding(crate::specs::Members::member_of))]
pub(crate) fn member_of(line: &[u8]) -> Member<'_>
    ensures value { member_parts result ≡ member_of line.now }
{
    match member_in(lone_rows(), line) {
        Some(member) => member,
        None => described(cut(b' ', line).1),
    }
}

/// The members that the line of a verdict is.
#[tactic(auto, unfolding(crate::specs::Members::verdict_of))]
pub(crate) fn verdict_of(kind: LogKind, line: &[u8]) -> Member<'_>
    ensures value { member_parts result ≡ verdict_of kind line.now }
{
    match member_in(verdict_rows(kind), line) {
        Some(member) => member,
        None => described(line),
    }
}
