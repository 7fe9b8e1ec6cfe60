// Entries, environments and data by value: when one covers another, what stands where, and their numbers in tables.
#![tactic(auto)]

ghost use Rattle.std.specs.Prelude.{◌≡◌, get_or};
ghost use Rattle.rules.specs.When.{need};
ghost use Rattle.rules.specs.Program.{entry, no_entry, zero_i, is_zero};
ghost use Rattle.rules.specs.View.{boxed_code, offset_code, tag_code};
ghost use Rattle.rules.specs.Typing.{int_entry, imm_entry};
ghost use Rattle.rules.specs.Environments.{with_entry, with_boxed, with_tag, covers_boxed, covers_offset, covers_tag, covers_entry};
ghost use Rattle.rules.specs.Machine.Tables.{datum_code, code_of};
ghost use Rattle.entry.specs.Codes.{boxed_to, offset_to, tag_to, codes_of, writable};

use rules::{Boxed, Datum, Entry, Env, Given, Num, Offset, Tag};

// ---- covering: each part equal to the label's, or the label's is `any`

#[tactic(auto, unfolding(rules::specs::Environments::covers_boxed))]
fn covers_boxed(label: Boxed, here: Boxed) -> bool
    ensures { result ≡ covers_boxed label here }
{
    label == Boxed::Either || label == here
}

// Kept as it is: the same of an offset and of a tag. They are two types, so that neither is taken for the other, and one function over both would be told what `any` is.
#[tactic(auto, unfolding(rules::specs::Environments::covers_offset))]
fn covers_offset(label: Offset, here: Offset) -> bool
    ensures { result ≡ covers_offset label here }
{
    label == Offset::Unknown || label == here
}

#[tactic(auto, unfolding(rules::specs::Environments::covers_tag))]
fn covers_tag(label: Tag, here: Tag) -> bool
    ensures { result ≡ covers_tag label here }
{
    label == Tag::Unknown || label == here
}

#[tactic(auto, unfolding(rules::specs::Environments::covers_entry))]
pub fn covers_entry(label: Entry, here: Entry) -> bool
    ensures { result ≡ covers_entry label here }
{
    covers_boxed(label.boxed, here.boxed)
        && covers_offset(label.offset, here.offset)
        && covers_tag(label.tag, here.tag)
}

// ---- environments

pub fn entry_at(env: Env, v: usize) -> Entry
    ensures { result ≡ get_or env.entries v no_entry }
{
    env.entries.get(v).copied().unwrap_or(Entry {
        boxed: Boxed::Either,
        offset: Offset::Unknown,
        tag: Tag::Unknown,
    })
}

#[tactic(auto, unfolding(rules::specs::Environments::with_entry))]
pub fn with_entry(env: Env, v: usize, e: Entry) -> Env
    ensures { result ≡ with_entry env v e }
{
    let mut r = env;
    if v < 32 {
        r.entries[v] = e;
    }
    r
}

// ---- entries

pub fn with_boxed(e: Entry, b: Boxed) -> Entry
    ensures { result ≡ with_boxed e b }
{
    Entry { boxed: b, ..e }
}

pub fn with_tag(e: Entry, n: Num) -> Entry
    ensures { result ≡ with_tag e n }
{
    Entry {
        tag: Tag::Known(n),
        ..e
    }
}

// `B,0,T`
fn at_zero(boxed: Boxed, tag: Tag) -> Entry
    ensures { result ≡ entry boxed zero_i tag }
{
    Entry {
        boxed,
        offset: Offset::Known(Num { n: 0 }),
        tag,
    }
}

// `any,0,T`
pub fn int_entry(t: Tag) -> Entry
    ensures { result ≡ int_entry t }
{
    at_zero(Boxed::Either, t)
}

// `imm,0,T`
pub fn imm_entry(t: Tag) -> Entry
    ensures { result ≡ imm_entry t }
{
    at_zero(Boxed::Imm, t)
}

pub fn zero_offset(i: Offset) -> bool
    ensures { result ≡ is_zero i }
{
    i == Offset::Known(Num { n: 0 })
}

// ---- entries as numbers of a table

// Kept as it is: a code is a number of a table. It is no conversion of the type, which other numbers could stand for, and offset and tag are two types.
#[tactic(auto, unfolding(rules::specs::View::boxed_code))]
fn boxed_from(c: u64) -> Boxed
    ensures { result ≡ boxed_code c }
{
    match c {
        1 => Boxed::Block,
        2 => Boxed::Imm,
        _ => Boxed::Either,
    }
}

#[tactic(auto, unfolding(rules::specs::View::offset_code))]
fn offset_from(c: u64) -> Offset
    ensures { result ≡ offset_code c }
{
    match c {
        0 => Offset::Unknown,
        _ => Offset::Known(number::number_of(c - 1)),
    }
}

#[tactic(auto, unfolding(rules::specs::View::tag_code))]
fn tag_from(c: u64) -> Tag
    ensures { result ≡ tag_code c }
{
    match c {
        0 => Tag::Unknown,
        _ => Tag::Known(number::number_of(c - 1)),
    }
}

pub fn entry_of(b: u64, i: u64, t: u64) -> Entry
    ensures { result ≡ entry (boxed_code b) (offset_code i) (tag_code t) }
{
    Entry {
        boxed: boxed_from(b),
        offset: offset_from(i),
        tag: tag_from(t),
    }
}

#[derive(Clone, Copy)]
pub struct Codes {
    pub boxed: u64,
    pub offset: u64,
    pub tag: u64,
}

fn boxed_to(b: Boxed) -> u64
    ensures { result ≡ boxed_to b }
{
    match b {
        Boxed::Either => 0,
        Boxed::Block => 1,
        Boxed::Imm => 2,
    }
}

fn offset_to(i: Offset) -> u64
    ensures { result ≡ offset_to i }
{
    match i {
        Offset::Unknown => 0,
        Offset::Known(n) => u64::from(number::word(n)) + 1,
    }
}

fn tag_to(t: Tag) -> u64
    ensures { result ≡ tag_to t }
{
    match t {
        Tag::Unknown => 0,
        Tag::Known(n) => u64::from(number::word(n)) + 1,
    }
}

#[tactic(auto, unfolding(crate::specs::Codes::codes_of))]
pub fn codes_of(e: Entry) -> Codes
    ensures { result ≡ codes_of e }
{
    Codes {
        boxed: boxed_to(e.boxed),
        offset: offset_to(e.offset),
        tag: tag_to(e.tag),
    }
}

// ---- data as one number of a table: its high half 0 nothing, 1 C int, 2 immediate, k + 3 a place in block k

#[tactic(auto, unfolding(rules::specs::Machine::Tables::datum_code))]
pub fn datum_of(c: u64) -> Given
    ensures { result ≡ datum_code c }
{
    let low = c % 4294967296;
    match c / 4294967296 {
        0 => None,
        1 => Some(Datum::Int(number::number_of(low))),
        2 => Some(Datum::Imm(number::number_of(low))),
        high => Some(Datum::Place((high - 3) as usize, low as usize)),
    }
}

#[tactic(auto, unfolding(crate::specs::Codes::writable, rules::specs::Machine::Tables::code_of))]
fn place_code(b: usize, o: usize) -> u64
    ensures { result ≡ need 0 (writable (Datum.Place b o)) (code_of (Datum.Place b o)) }
{
    if b < 4294967293 && o < 4294967296 {
        (b as u64 + 3) * 4294967296 + o as u64
    } else {
        0
    }
}

// 0 for a place that no number of a table holds.
#[tactic(auto, unfolding(crate::specs::Codes::writable, rules::specs::Machine::Tables::code_of))]
pub fn code_of(d: Datum) -> u64
    ensures { result ≡ need 0 (writable d) (code_of d) }
{
    match d {
        Datum::Int(n) => 4294967296 + u64::from(number::word(n)),
        Datum::Imm(n) => 2 * 4294967296 + u64::from(number::word(n)),
        Datum::Place(b, o) => place_code(b, o),
    }
}
