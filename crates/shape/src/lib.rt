// The shape of each line of a glue text, however much it holds. Nothing is written. Each function takes the whole text and a place in it, and answers at every place.
#![tactic(auto)]

ghost use Rattle.std.specs.Prelude.{◌≡◌, ◌||◌, ◌≤◌, max, eqb, length};
ghost use Rattle.rules.specs.Text.Words as words;
ghost use Rattle.rules.specs.Text.Shape as shapes;

use rules::{Head, Key, Next, Reading};
use text::{arity, byte_at, byte_is, head_at, number_at, or_word, plain_at, var_at};

// Where a reading ends.
fn ended(r: Reading) -> Next
    ensures { result ≡ shapes.end r }
{
    let (_, n) = r?;
    Ok(n)
}

// ---- expressions

// One turn a word; `need` counts the expressions that are still to come.
#[tactic(auto, using(crate::proofs::Ways::arity_most, crate::proofs::Ways::no_words, crate::proofs::Ways::word_bad, crate::proofs::Ways::word_ends, crate::proofs::Ways::word_not, crate::proofs::Ways::word_on), unfolding(rules::specs::Text::Shape::expr_shape))]
fn expr_shape(s: &[u8], at: usize) -> Next
    ensures { result ≡ shapes.expr_shape s.now at }
{
    let mut need = 1;
    let mut i = at;
    for _ in 0..s.len() {
        let (op, _, n) = head_at(s, i)?;
        need = need + arity(op) - 1;
        if need == 0 {
            return Ok(n);
        }
        i = byte_is(s, n, b' ')?;
    }
    Err(i)
}

// ---- the forms of the lines, after their key

// `int` is 0, `value ` 1.
#[tactic(auto, unfolding(rules::specs::Text::Shape::kind_word))]
pub fn kind_word(s: &[u8], at: usize) -> Reading
    ensures { result ≡ shapes.kind_word s.now at }
{
    let r = or_word(s, at, b"int", 0, Err(at));
    or_word(s, at, b"value ", 1, r)
}

#[tactic(auto, unfolding(rules::specs::Text::Shape::kind_shape))]
fn kind_shape(s: &[u8], at: usize) -> Next
    ensures { result ≡ shapes.kind_shape s.now at }
{
    let (k, n) = kind_word(s, at)?;
    if k == 0 {
        return Ok(n);
    }
    ended(plain_at(s, n))
}

#[tactic(auto, unfolding(rules::specs::Text::Shape::local_shape))]
fn local_shape(s: &[u8], at: usize) -> Next
    ensures { result ≡ shapes.local_shape s.now at }
{
    let at = kind_shape(s, at)?;
    let at = byte_is(s, at, b' ')?;
    ended(number_at(s, at))
}

// The word found before, else the number and `more`.
fn or_number(found: Reading, number: Reading, more: u64) -> Reading
    requires { (words.value_of number ≤ 4294967295) × (more ≤ 2) }
    ensures { result ≡ shapes.or_raised more found number }
{
    let Err(p) = found else {
        return found;
    };
    let (v, n) = number.map_err(|q| p.max(q))?;
    Ok((v + more, n))
}

// `inf` is 1, a number n is n + 2.
#[tactic(auto, using(crate::proofs::Ways::plain_small), unfolding(rules::specs::Text::Shape::psi_at, rules::specs::Text::Shape::inf_word))]
pub fn psi_at(s: &[u8], at: usize) -> Reading
    ensures { result ≡ shapes.psi_at s.now at }
{
    let w = or_word(s, at, b"inf", 1, Err(at));
    or_number(w, plain_at(s, at), 2)
}

// Whether a byte stands between two field rows.
pub fn between(b: u64) -> bool
    ensures { result ≡ (eqb b 44 || eqb b 124) }
{
    b == 44 || b == 124
}

// One turn a field row.
#[tactic(auto, using(crate::proofs::Ways::between_byte, crate::proofs::Ways::field_ends, crate::proofs::Ways::field_not, crate::proofs::Ways::field_on, crate::proofs::Ways::no_fields, text::proofs::Laws::inside))]
fn fields_shape(s: &[u8], at: usize) -> Next
    ensures { result ≡ shapes.fields_shape s.now (length s.now) at }
{
    let mut i = at;
    for _ in 0..s.len() {
        let (_, n) = plain_at(s, i)?;
        if !between(byte_at(s, n)) {
            return Ok(n);
        }
        i = n + 1;
    }
    Err(i)
}

#[tactic(auto, unfolding(rules::specs::Text::Shape::products_shape))]
fn products_shape(s: &[u8], at: usize) -> Next
    ensures { result ≡ shapes.products_shape s.now at }
{
    if byte_at(s, at) == 10 {
        Ok(at)
    } else {
        fields_shape(s, at)
    }
}

#[tactic(auto, unfolding(rules::specs::Text::Shape::type_shape))]
fn type_shape(s: &[u8], at: usize) -> Next
    ensures { result ≡ shapes.type_shape s.now at }
{
    let (_, at) = psi_at(s, at)?;
    let at = byte_is(s, at, b':')?;
    products_shape(s, at)
}

// `any` is 0, `box` 1, `imm` 2.
#[tactic(auto, unfolding(rules::specs::Text::Shape::boxed_at))]
pub fn boxed_at(s: &[u8], at: usize) -> Reading
    ensures { result ≡ shapes.boxed_at s.now at }
{
    let r = or_word(s, at, b"any", 0, Err(at));
    let r = or_word(s, at, b"box", 1, r);
    or_word(s, at, b"imm", 2, r)
}

// `any` is 0, a number n is n + 1.
#[tactic(auto, using(crate::proofs::Ways::plain_small), unfolding(rules::specs::Text::Shape::offset_at, rules::specs::Text::Shape::any_word))]
pub fn offset_at(s: &[u8], at: usize) -> Reading
    ensures { result ≡ shapes.offset_at s.now at }
{
    let w = or_word(s, at, b"any", 0, Err(at));
    or_number(w, plain_at(s, at), 1)
}

// `any` is 0, a number whose 32 bits are w is w + 1.
#[tactic(auto, using(crate::proofs::Ways::number_small), unfolding(rules::specs::Text::Shape::tag_at, rules::specs::Text::Shape::any_word))]
pub fn tag_at(s: &[u8], at: usize) -> Reading
    ensures { result ≡ shapes.tag_at s.now at }
{
    let w = or_word(s, at, b"any", 0, Err(at));
    or_number(w, number_at(s, at), 1)
}

#[tactic(auto, unfolding(rules::specs::Text::Shape::entry_shape))]
fn entry_shape(s: &[u8], at: usize) -> Next
    ensures { result ≡ shapes.entry_shape s.now at }
{
    let (_, at) = boxed_at(s, at)?;
    let at = byte_is(s, at, b',')?;
    let (_, at) = offset_at(s, at)?;
    let at = byte_is(s, at, b',')?;
    ended(tag_at(s, at))
}

// One turn an entry.
#[tactic(auto, using(crate::proofs::Ways::entry_bad, crate::proofs::Ways::entry_last, crate::proofs::Ways::entry_not, crate::proofs::Ways::entry_on, crate::proofs::Ways::no_entries))]
fn label_shape(s: &[u8], vars: usize, at: usize) -> Next
    ensures { result ≡ shapes.label_shape s.now vars at }
{
    let mut i = at;
    for v in 0..vars {
        let n = entry_shape(s, i)?;
        if v + 1 == vars {
            return Ok(n);
        }
        i = byte_is(s, n, b' ')?;
    }
    Ok(i)
}

// A space and an expression after a reading.
fn then_expr(s: &[u8], r: Reading) -> Next
    ensures { result ≡ shapes.after r (shapes.space s.now (shapes.expr_shape s.now)) }
{
    let (_, at) = r?;
    let at = byte_is(s, at, b' ')?;
    expr_shape(s, at)
}

// `put=E N E`
#[tactic(auto, unfolding(rules::specs::Text::Shape::line_shape))]
fn put_shape(s: &[u8], at: usize) -> Next
    ensures { result ≡ shapes.line_shape s.now 0 Key.Put at }
{
    let at = expr_shape(s, at)?;
    let at = byte_is(s, at, b' ')?;
    then_expr(s, number_at(s, at))
}

// `ifimm=L V`
#[tactic(auto, unfolding(rules::specs::Text::Shape::line_shape))]
fn ifimm_shape(s: &[u8], at: usize) -> Next
    ensures { result ≡ shapes.line_shape s.now 0 Key.IfImm at }
{
    let (_, at) = plain_at(s, at)?;
    let at = byte_is(s, at, b' ')?;
    ended(var_at(s, at))
}

// `iftag=L V N`, and `ifint=L V N`
#[tactic(auto, unfolding(rules::specs::Text::Shape::line_shape))]
fn iftag_shape(s: &[u8], at: usize) -> Next
    ensures { result ≡ shapes.line_shape s.now 0 Key.IfTag at }
{
    let at = ifimm_shape(s, at)?;
    let at = byte_is(s, at, b' ')?;
    ended(number_at(s, at))
}

// ---- a line by its key

// The key's number, from 1 to 13. Only the keys that begin with the byte at `at` are tried.
#[tactic(auto, using(crate::proofs::Ways::key_none))]
pub fn key_at(s: &[u8], at: usize) -> Reading
    ensures { result ≡ shapes.key_at s.now at }
{
    match s.get(at) {
        Some(b'g') => or_word(s, at, b"goto=", 7, Err(at)),
        Some(b'i') => {
            let r = or_word(s, at, b"if=", 8, Err(at));
            let r = or_word(s, at, b"ifimm=", 9, r);
            let r = or_word(s, at, b"iftag=", 10, r);
            or_word(s, at, b"ifint=", 11, r)
        }
        Some(b'l') => {
            let r = or_word(s, at, b"local=", 4, Err(at));
            or_word(s, at, b"label=", 13, r)
        }
        Some(b'p') => {
            let r = or_word(s, at, b"param=", 3, Err(at));
            or_word(s, at, b"put=", 6, r)
        }
        Some(b'r') => {
            let r = or_word(s, at, b"ret=", 1, Err(at));
            or_word(s, at, b"return=", 12, r)
        }
        Some(b's') => or_word(s, at, b"set=", 5, Err(at)),
        Some(b't') => or_word(s, at, b"type=", 2, Err(at)),
        _ => Err(at),
    }
}

// The key of a number; no other number is one.
#[tactic(auto, using(crate::proofs::Ways::no_key_lem), unfolding(rules::specs::Text::Shape::key_of))]
pub fn key_of(k: u64) -> Key
    ensures { result ≡ shapes.key_of k }
{
    match k {
        1 => Key::Ret,
        2 => Key::Type,
        3 => Key::Param,
        4 => Key::Local,
        5 => Key::Set,
        6 => Key::Put,
        7 => Key::Goto,
        8 => Key::If,
        9 => Key::IfImm,
        10 => Key::IfTag,
        11 => Key::IfInt,
        12 => Key::Return,
        13 => Key::Label,
        _ => Key::Absent,
    }
}

// Rows are part 1, variables 2, the body 3.
#[tactic(auto, unfolding(rules::specs::Text::Shape::part_of))]
pub fn part_of(k: u64) -> u32
    ensures { result ≡ shapes.part_of k }
{
    match k {
        0..=2 => 1,
        3..=4 => 2,
        _ => 3,
    }
}

// Whether a line with the key k may come after the part.
#[tactic(auto, unfolding(rules::specs::Text::Shape::in_order))]
pub fn in_order(part: u32, k: u64) -> bool
    ensures { result ≡ shapes.in_order part k }
{
    if k == 1 {
        return part == 0;
    }
    0 < part && part <= part_of(k)
}

// What stands after the key of number k, where there are `vars` variables.
#[tactic(auto, unfolding(rules::specs::Text::Shape::line_shape))]
pub fn line_shape(s: &[u8], vars: usize, k: u64, at: usize) -> Next
    ensures { result ≡ shapes.line_shape s.now vars (shapes.key_of k) at }
{
    match key_of(k) {
        Key::Absent => Err(at),
        Key::Ret | Key::Param => kind_shape(s, at),
        Key::Type => type_shape(s, at),
        Key::Local => local_shape(s, at),
        Key::Set => then_expr(s, var_at(s, at)),
        Key::Put => put_shape(s, at),
        Key::Goto => ended(plain_at(s, at)),
        Key::If => then_expr(s, plain_at(s, at)),
        Key::IfImm => ifimm_shape(s, at),
        Key::IfTag | Key::IfInt => iftag_shape(s, at),
        Key::Return => expr_shape(s, at),
        Key::Label => label_shape(s, vars, at),
    }
}
