// The bytes, numbers and words of a text. Each function takes the whole text and a place in it, and answers at every place.
#![tactic(auto)]

ghost use Rattle.std.specs.Prelude.{◌≡◌, ℕ, ◌+◌, ◌≤◌, ◌<◌, max, ◌&&◌, not, eqb, drop};
ghost use Rattle.rules.specs.Text.Words as words;

use rules::{Head, Next, Reading};

// The byte at i, and 256 past the end.
// Kept as it is: the definition of the rules (`Text.Words.byte_at`) and this contract say 256 and no Option.
pub fn byte_at(s: &[u8], i: usize) -> u64
    ensures { result ≡ words.byte_at s.now i }
{
    s.get(i).map_or(256, |b| u64::from(*b))
}

// ---- a reading

// What was read, 0 where nothing was.
// Kept as it is: the rules read on over what was not read too (`Text.Words.value_of`, `next_of`), and both contracts hold for it.
pub fn value_of(r: Reading) -> u64
    ensures { result ≡ words.value_of r }
{
    match r {
        Ok((v, _)) => v,
        Err(_) => 0,
    }
}

// The byte after it, or the wrong byte.
pub fn next_of(r: Reading) -> usize
    ensures { result ≡ words.next_of r }
{
    match r {
        Ok((_, n)) => n,
        Err(p) => p,
    }
}

// ---- numbers

// After a leading zero no digit may stand.
#[tactic(auto, using(crate::proofs::Ways::zero_digit, crate::proofs::Ways::zero_high, crate::proofs::Ways::zero_low))]
fn after_zero(s: &[u8], at: usize) -> Reading
    ensures { (most : ℕ) → result ≡ words.more_digits (drop at s.now) at 0 most }
{
    match byte_at(s, at) {
        48..=57 => Err(at),
        _ => Ok((0, at)),
    }
}

// The digits after the number `first`, which is not 0 and may grow to `most`.
#[tactic(auto, using(crate::proofs::Ways::at_end, crate::proofs::Ways::at_low, crate::proofs::Ways::at_high, crate::proofs::Ways::at_over, crate::proofs::Ways::at_more))]
fn more_digits(s: &[u8], from: usize, first: u64, most: u64) -> Reading
    requires { (most ≤ 2147483648) × ((1 ≤ first) × (first ≤ most)) }
    ensures { result ≡ words.more_digits (drop from s.now) from first most }
{
    let mut v = first;
    for i in from..s.len() {
        let b = u64::from(s[i]);
        if b < 48 || 57 < b {
            return Ok((v, i));
        }
        v = v * 10 + (b - 48);
        if most < v {
            return Err(i);
        }
    }
    Ok((v, from.max(s.len())))
}

// Digits whose first is from `low` to `9`.
#[tactic(auto, using(crate::proofs::Laws::inside, crate::proofs::Ways::digit, crate::proofs::Ways::digit_zero, crate::proofs::Ways::too_high, crate::proofs::Ways::too_low))]
fn magnitude_at(s: &[u8], at: usize, low: u64, most: u64) -> Reading
    requires { (48 ≤ low) × ((9 ≤ most) × (most ≤ 2147483648)) }
    ensures { result ≡ words.magnitude_at s.now at low most }
{
    let b = byte_at(s, at);
    if b < low || 57 < b {
        return Err(at);
    }
    if b == 48 {
        return after_zero(s, at + 1);
    }
    more_digits(s, at + 1, b - 48, most)
}

// A number without a minus.
#[tactic(auto, unfolding(rules::specs::Text::Words::plain_at))]
pub fn plain_at(s: &[u8], at: usize) -> Reading
    ensures { result ≡ words.plain_at s.now at }
{
    magnitude_at(s, at, 48, 2147483647)
}

// A number as its 32 bits, or the first byte at which the text can no longer become one.
#[tactic(auto, using(crate::proofs::Laws::inside, crate::proofs::Laws::magnitude_most, crate::proofs::Ways::after_minus, crate::proofs::Ways::no_minus))]
pub fn number_at(s: &[u8], at: usize) -> Reading
    ensures { result ≡ words.number_at s.now at }
{
    if byte_at(s, at) != 45 {
        return plain_at(s, at);
    }
    let (v, n) = magnitude_at(s, at + 1, 49, 2147483648)?;
    Ok((4294967296 - v, n))
}

// ---- fixed words

// How many bytes of the word w stand at `at`.
#[tactic(auto, using(crate::proofs::Ways::word_ends, crate::proofs::Ways::text_ends, crate::proofs::Ways::differs, crate::proofs::Ways::goes_on))]
fn agree(s: &[u8], at: usize, w: &[u8]) -> usize
    ensures { result ≡ words.agreed w.now (drop at s.now) }
{
    for (k, b) in w.iter().enumerate() {
        let i = at + k;
        if s.len() <= i || s[i] != *b {
            return k;
        }
    }
    w.len()
}

// The word found before; else k if the word w stands at `at`; else the farther of the two wrong bytes.
#[tactic(auto, using(crate::proofs::Laws::agreed_in, crate::proofs::Ways::or_hit, crate::proofs::Ways::or_miss), unfolding(rules::specs::Text::Words::or_word))]
pub fn or_word(s: &[u8], at: usize, w: &[u8], k: u64, found: Reading) -> Reading
    ensures { result ≡ words.or_word s.now at w.now k found }
{
    let Err(p) = found else {
        return found;
    };
    let n = agree(s, at, w);
    if n == w.len() {
        Ok((k, at + n))
    } else {
        Err(p.max(at + n))
    }
}

// The place after the byte b, if it stands at `at`. No byte is 256, so b stands inside the text and the next place fits.
#[tactic(auto, using(crate::proofs::Laws::inside, crate::proofs::Ways::byte_not, crate::proofs::Ways::byte_there))]
pub fn byte_is(s: &[u8], at: usize, b: u8) -> Next
    ensures { result ≡ words.byte_is s.now at b }
{
    if byte_at(s, at) == u64::from(b) {
        Ok(at + 1)
    } else {
        Err(at)
    }
}

// A variable: `v` and its number.
#[tactic(auto, using(crate::proofs::Ways::var_not, crate::proofs::Ways::var_there_lem))]
pub fn var_at(s: &[u8], at: usize) -> Reading
    ensures { result ≡ words.var_at s.now at }
{
    plain_at(s, byte_is(s, at, b'v')?)
}

// ---- what an expression begins with

// An operator, by its number. The words that begin with another byte than the one at `at` cannot stand there, nor can their wrong byte lie farther.
#[tactic(auto, using(crate::proofs::Chain::operator_by, crate::proofs::Chain::operator_none))]
fn operator_at(s: &[u8], at: usize) -> Reading
    ensures { result ≡ words.operator_at s.now at }
{
    match s.get(at) {
        Some(b'a') => or_word(s, at, b"add", 7, Err(at)),
        Some(b'e') => or_word(s, at, b"eq", 10, Err(at)),
        Some(b'f') => or_word(s, at, b"fetch", 3, Err(at)),
        Some(b'i') => or_word(s, at, b"int", 4, Err(at)),
        Some(b'l') => or_word(s, at, b"lt", 11, Err(at)),
        Some(b'm') => or_word(s, at, b"mul", 9, Err(at)),
        Some(b's') => {
            let r = or_word(s, at, b"step", 6, Err(at));
            or_word(s, at, b"sub", 8, r)
        }
        Some(b'v') => or_word(s, at, b"val", 5, Err(at)),
        _ => Err(at),
    }
}

// How many expressions follow an operation.
#[tactic(auto, unfolding(rules::specs::Text::Words::arity))]
pub fn arity(op: u32) -> usize
    ensures { result ≡ words.arity op }
{
    match op {
        0..=2 => 0,
        3..=5 => 1,
        _ => 2,
    }
}

// A head of what was read, which fits 32 bits.
fn head_of(op: u32, r: Reading) -> Head
    requires { words.value_of r < 4294967296 }
    ensures { result ≡ words.head_of op r }
{
    let (v, n) = r?;
    Ok((op, v as u32, n))
}

// An operator, and R after `val`.
#[tactic(auto, using(crate::proofs::Laws::got, crate::proofs::Laws::operator_reads, crate::proofs::Laws::plain_reads, crate::proofs::Laws::value_most, crate::proofs::Ways::no_val, crate::proofs::Ways::val_row, crate::proofs::Ways::val_short))]
fn operator_head(s: &[u8], at: usize) -> Head
    ensures { result ≡ words.operator_head s.now (words.operator_at s.now at) }
{
    let (op, n) = operator_at(s, at)?;
    if op != 5 {
        return Ok((op as u32, 0, n));
    }
    head_of(5, plain_at(s, byte_is(s, n, b' ')?))
}

// Whether a variable begins: at `v`, but not at the `va` of `val`.
fn begins_variable(s: &[u8], at: usize) -> bool
    ensures { result ≡ (eqb (words.byte_at s.now at) 118 && not (eqb (words.byte_at s.now (at + 1)) 97)) }
{
    byte_at(s, at) == 118 && byte_at(s, at + 1) != 97
}

// The first word of an expression. An operator is read at one place only: so it is compiled in place, and no head is copied.
#[tactic(auto, using(crate::proofs::Laws::number_reads, crate::proofs::Laws::value_most, crate::proofs::Laws::var_reads, crate::proofs::Ways::head_number, crate::proofs::Ways::head_operator, crate::proofs::Ways::head_variable))]
pub fn head_at(s: &[u8], at: usize) -> Head
    ensures { result ≡ words.head_at s.now at }
{
    if byte_at(s, at) < 58 {
        return head_of(1, number_at(s, at));
    }
    if begins_variable(s, at) {
        return head_of(2, var_at(s, at));
    }
    operator_head(s, at)
}
