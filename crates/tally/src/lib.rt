// Answers 21 to 23 to a store text, with how much it holds. Nothing is written. Each reader takes the whole text and a place in it, and answers at every place.
#![tactic(auto)]

ghost use Rattle.std.specs.Prelude.{◌≡◌, ◌+◌, ◌≤◌, ◌<◌, ℕ, length};
ghost use Rattle.rules.specs.Limits.{limits};
ghost use Rattle.rules.specs.Text.Words as words;
ghost use Rattle.rules.specs.Store.Text as texts;
ghost use Rattle.tally.specs.Counts.{Few, key_number, keyed, lined, passed, tallied};

use rules::{Answer, Limits, Reading, StoreCount};
use text::{byte_at, byte_is, number_at, or_word, plain_at};

// One `run=`, the blocks, the arguments, and the line that is one too many.
const LINES: usize = 290;

// The answer to a store text, and the counts up to the line that was refused.
#[derive(Drop)]
pub struct Tally {
    pub answer: Answer,
    pub count: StoreCount,
}

// What a line of a store text begins with.
#[derive(Clone, Copy)]
enum StoreKey {
    Run,
    Block,
    Arg,
}

// The byte after a line, and the counts; or its answer, and the counts up to it.
type Lined = Result<(usize, StoreCount), (u32, StoreCount)>;

// ---- data, as they stand in a table

// A number's 32 bits under a high half.
fn datum_of(base: u64, r: Reading) -> Reading
    requires { (base ≤ 8589934592) × (words.value_of r ≤ 4294967295) }
    ensures { result ≡ texts.datum_of base r }
{
    let (w, n) = r?;
    Ok((base + w, n))
}

// The place of a block's first cell.
fn place_of(r: Reading) -> Reading
    requires { words.value_of r ≤ 2147483647 }
    ensures { result ≡ texts.place_of r }
{
    let (k, n) = r?;
    Ok(((k + 3) * 4294967296, n))
}

// A cell: `iN` or `bK`.
#[tactic(auto, using(crate::proofs::Laws::number_most, crate::proofs::Laws::plain_most, text::proofs::Laws::inside), unfolding(rules::specs::Store::Text::cell_word))]
pub fn cell_word(s: &[u8], at: usize) -> Reading
    ensures { result ≡ texts.cell_word s.now at }
{
    match byte_at(s, at) {
        105 => datum_of(8589934592, number_at(s, at + 1)),
        98 => place_of(plain_at(s, at + 1)),
        _ => Err(at),
    }
}

// An argument: `cN`, or as a cell.
#[tactic(auto, using(crate::proofs::Laws::number_most, text::proofs::Laws::inside), unfolding(rules::specs::Store::Text::arg_word))]
pub fn arg_word(s: &[u8], at: usize) -> Reading
    ensures { result ≡ texts.arg_word s.now at }
{
    if byte_at(s, at) == 99 {
        datum_of(4294967296, number_at(s, at + 1))
    } else {
        cell_word(s, at)
    }
}

// ---- block lines

// How many cells: one turn a cell.
#[tactic(auto, using(crate::proofs::Ways::cells_end, crate::proofs::Ways::cells_go, crate::proofs::Ways::cells_not, crate::proofs::Ways::no_cells, text::proofs::Laws::inside))]
fn cells_from(s: &[u8], at: usize) -> Reading
    ensures { result ≡ texts.cells_from s.now (length s.now) 0 at }
{
    let mut i = at;
    for count in 0..s.len() {
        let (_, n) = cell_word(s, i)?;
        if byte_at(s, n) != 32 {
            return Ok((count as u64 + 1, n));
        }
        i = n + 1;
    }
    Err(i)
}

// A block line after its key: how many cells it has, after a row, a tag, and a space after each.
#[tactic(auto, unfolding(rules::specs::Store::Text::block_words, rules::specs::Text::Words::byte_is))]
pub fn block_words(s: &[u8], at: usize) -> Reading
    ensures { result ≡ texts.block_words s.now at }
{
    let (_, n) = plain_at(s, at)?;
    let (_, n) = number_at(s, byte_is(s, n, b' ')?)?;
    cells_from(s, byte_is(s, n, b' ')?)
}

// ---- a line by its key

// `run=`, `block=` or `arg=`, and the byte after it; or the first wrong byte.
#[tactic(auto, unfolding(rules::specs::Store::Text::store_key))]
fn store_key(s: &[u8], at: usize) -> Result<(StoreKey, usize), usize>
    ensures { keyed result ≡ texts.store_key s.now at }
{
    let r = or_word(s, at, b"run=", 1, Err(at));
    let r = or_word(s, at, b"block=", 2, r);
    let (k, n) = or_word(s, at, b"arg=", 3, r)?;
    let key = match k {
        1 => StoreKey::Run,
        2 => StoreKey::Block,
        _ => StoreKey::Arg,
    };
    Ok((key, n))
}

// Whether a line with such a key may come after what was counted.
#[tactic(auto, unfolding(rules::specs::Store::Text::store_order))]
fn store_order(params: usize, c: StoreCount, key: StoreKey) -> bool
    ensures { result ≡ texts.store_order params c (key_number key) }
{
    match key {
        StoreKey::Run => c.part == 0,
        StoreKey::Block => c.part == 1,
        StoreKey::Arg => 0 < c.part && c.args < params,
    }
}

// What stands after such a key.
#[tactic(auto, unfolding(rules::specs::Store::Text::store_words))]
fn store_words(s: &[u8], key: StoreKey, at: usize) -> Reading
    ensures { result ≡ texts.store_words s.now (key_number key) at }
{
    match key {
        StoreKey::Run => plain_at(s, at),
        StoreKey::Block => block_words(s, at),
        StoreKey::Arg => arg_word(s, at),
    }
}

// The counts after a line with such a key and the value v. An argument's datum is not counted, so it may be of any size.
#[tactic(auto, unfolding(rules::specs::Store::Text::counted))]
fn counted(c: StoreCount, key: StoreKey, v: u64) -> StoreCount
    requires { Few 290 c × ((key_number key < 3 → v ≤ 4294967295)) }
    ensures { result ≡ texts.counted c (key_number key) v }
{
    match key {
        StoreKey::Run => StoreCount {
            part: 1,
            budget: v as u32,
            blocks: 0,
            cells: 0,
            args: 0,
        },
        StoreKey::Block => StoreCount {
            blocks: c.blocks + 1,
            cells: c.cells + v as usize,
            part: 1,
            args: 0,
            ..c
        },
        StoreKey::Arg => StoreCount {
            part: 2,
            args: c.args + 1,
            ..c
        },
    }
}

#[tactic(auto, unfolding(rules::specs::Store::Text::within))]
fn within(c: StoreCount) -> bool
    ensures { result ≡ texts.within c }
{
    c.budget <= Limits::BUDGET && c.blocks <= Limits::BLOCKS && c.cells <= Limits::CELLS
}

// ---- a line, whole

fn limited(next: usize, c: StoreCount) -> Lined
    ensures { result ≡ lined (texts.store_limits next c) }
{
    if within(c) {
        Ok((next, c))
    } else {
        Err((23, c))
    }
}

// A line from the place after its key on.
#[tactic(auto, using(crate::proofs::Laws::words_most), unfolding(rules::specs::Text::Words::byte_is))]
fn keyed_line(s: &[u8], params: usize, c: StoreCount, key: StoreKey, at: usize) -> Lined
    requires { (length s.now ≤ limits.store) × Few 290 c }
    ensures { (start : ℕ) → result ≡ lined (texts.store_keyed s.now params start c (Ok (key_number key, at))) }
{
    if !store_order(params, c, key) {
        return Err((22, c));
    }
    let Ok((v, n)) = store_words(s, key, at) else {
        return Err((22, c));
    };
    let Ok(next) = byte_is(s, n, b'\n') else {
        return Err((22, c));
    };
    limited(next, counted(c, key, v))
}

#[tactic(auto, unfolding(rules::specs::Store::Text::store_line_at))]
fn line_at(s: &[u8], params: usize, at: usize, c: StoreCount) -> Lined
    requires { (length s.now ≤ limits.store) × Few 290 c }
    ensures { result ≡ lined (texts.store_line_at s.now params at c) }
{
    let Ok((key, n)) = store_key(s, at) else {
        return Err((22, c));
    };
    keyed_line(s, params, c, key, n)
}

// ---- the text, whole

fn told(number: u32, line: usize, count: StoreCount) -> Tally
    ensures { result ≡ record { answer = record { number = number; line = line }; count = count } }
{
    Tally {
        answer: Answer { number, line },
        count,
    }
}

// After the last line there are as many arguments as parameters, or too few.
fn ended(params: usize, line: usize, c: StoreCount) -> Result<StoreCount, Tally>
    ensures { result ≡ passed (texts.store_end params line c) }
{
    if c.part == 0 || c.args < params {
        return Err(told(22, line, c));
    }
    Ok(c)
}

fn no_store() -> StoreCount
    ensures { result ≡ texts.no_store }
{
    StoreCount {
        part: 0,
        budget: 0,
        blocks: 0,
        cells: 0,
        args: 0,
    }
}

// One turn a line.
#[tactic(auto, using(crate::proofs::Laws::few_more, crate::proofs::Laws::few_line, crate::proofs::Laws::no_store_few, crate::proofs::Ways::line_goes, crate::proofs::Ways::line_stops, crate::proofs::Ways::lines_end, crate::proofs::Ways::lines_over))]
fn lines(s: &[u8], params: usize) -> Result<StoreCount, Tally>
    requires { length s.now ≤ limits.store }
    ensures { result ≡ passed (texts.store_lines s.now params (texts.most_store_lines + 1) 1 0 texts.no_store) }
{
    let mut at = 0;
    let mut c = no_store();
    for line in 1..LINES + 1 {
        if s.len() <= at {
            return ended(params, line, c);
        }
        (at, c) = line_at(s, params, at, c).map_err(|(number, count)| told(number, line, count))?;
    }
    Err(told(23, LINES + 1, c))
}

// The counts of a text, or its answer, of 21 to 23, for a program that has so many parameters.
#[tactic(auto, unfolding(crate::specs::Counts::tallied))]
pub fn tallied(s: &[u8], params: usize) -> Result<StoreCount, Tally>
    ensures { result ≡ passed (tallied params s.now) }
{
    if Limits::STORE < s.len() {
        return Err(told(21, 0, no_store()));
    }
    lines(s, params)
}
