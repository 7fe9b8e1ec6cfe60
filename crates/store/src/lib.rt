// A store text into the tables of a store, beside the tables of a program, whatever these hold: answers 21 to 27, the earliest stage first.
// Each stage is a pass over the text. A function that needs few of the tables says what holds for all the others.
#![tactic(auto)]

ghost use Rattle.std.specs.Prelude.{◌≡◌, List, ℕ, ◌+◌, ◌≤◌, ◌==◌, length, get_or, position};
ghost use Rattle.rules.specs.Answers.{answer, first, outcome};
ghost use Rattle.rules.specs.Environments.{no_var};
ghost use Rattle.rules.specs.View.{rows_from, vars_from, program};
ghost use Rattle.rules.specs.Machine.Tables.{code_of};
ghost use Rattle.rules.specs.Store.Fill as fills;
ghost use Rattle.rules.specs.Store.{params_of, read_store};
ghost use Rattle.program.specs.Lines.{tables_of};
ghost use Rattle.rules.specs.Program.{Var};
ghost use Rattle.rules.specs.declared.StoreCount.{StoreCount as Counts};
ghost use Rattle.tally.specs.Counts.{Few};
ghost use Rattle.store.specs.Lines.{Inside, Near, block_line, taken};
ghost use Rattle.store.specs.Says.{Filled, Says};

use rules::{Answer, Datum, Kind, Num, StoreCount, StoreTables};
use tally::{arg_word, block_words, cell_word};
use text::{next_of, number_at, plain_at, value_of};

// How many cells a block keeps.
const KEPT: usize = 17;

// A block line after its key: R, TAG, how many cells it has, and where they begin.
#[derive(Drop)]
struct BlockLine {
    row: u32,
    tag: u32,
    count: usize,
    start: usize,
}

// What a variable starts as, and the place of the next argument line.
#[derive(Drop)]
struct Taken {
    code: u64,
    next: usize,
}

// ---- places in the text

// Where the first line feed stands.
fn first_feed(s: &[u8]) -> Option<usize>
    ensures { result ≡ position (λ b. b == 10) s.now }
{
    s.iter().position(|b| *b == b'\n')
}

// The place after the next line feed.
#[tactic(auto, using(crate::proofs::Ways::line_found, crate::proofs::Ways::line_none, crate::proofs::Ways::line_past), unfolding(rules::specs::Store::Fill::next_line))]
fn next_line(s: &[u8], at: usize) -> usize
    ensures { result ≡ fills.next_line s.now at }
{
    if s.len() <= at {
        return at;
    }
    match first_feed(&s[at..]) {
        Some(k) => at + k + 1,
        None => s.len(),
    }
}

fn block_line(s: &[u8], at: usize) -> BlockLine
    requires { Near 32768 s.now at }
    ensures { result ≡ block_line s.now at }
{
    let row = plain_at(s, at);
    let tag = number_at(s, next_of(row) + 1);
    let count = block_words(s, at);
    BlockLine {
        row: value_of(row) as u32,
        tag: value_of(tag) as u32,
        count: value_of(count) as usize,
        start: next_of(tag) + 1,
    }
}

// ---- 24: row or block absent

// Whether a place names a block that is there.
#[tactic(auto, unfolding(rules::specs::Store::Fill::datum_there))]
fn datum_there(blocks: usize, w: u64) -> bool
    requires { blocks ≤ 256 }
    ensures { result ≡ fills.datum_there blocks w }
{
    w < (blocks as u64 + 3) * 4294967296
}

// One turn a cell.
#[tactic(auto, using(crate::proofs::Ways::cells_done, crate::proofs::Ways::cells_not))]
fn cells_there(s: &[u8], blocks: usize, n: usize, at: usize) -> bool
    requires { (blocks ≤ 256) × ((n ≤ 16384) × Near 65536 s.now at) }
    ensures { result ≡ fills.cells_there s.now blocks n at }
{
    let mut i = at;
    for _ in 0..n {
        let r = cell_word(s, i);
        if !datum_there(blocks, value_of(r)) {
            return false;
        }
        i = next_of(r) + 1;
    }
    true
}

// A block line, by the place after its key.
#[tactic(auto, using(crate::proofs::Ways::line_count, crate::proofs::Ways::line_start), unfolding(rules::specs::Store::Fill::block_there))]
fn block_there(s: &[u8], size: &[u32; 6], blocks: usize, at: usize) -> bool
    requires { (blocks ≤ 256) × Near 32768 s.now at }
    ensures { (R : List ℕ) → result ≡ fills.block_there s.now (rows_from size.now R) blocks at }
{
    let b = block_line(s, at);
    program::row_there(size, b.row as usize) && cells_there(s, blocks, b.count, b.start)
}

// Answer 24, at a line.
fn absent(line: usize) -> Answer
    ensures { result ≡ answer 24 line }
{
    Answer { number: 24, line }
}

// One turn an argument line, the first of them at `at`.
#[tactic(auto, using(crate::proofs::Ways::args_done, crate::proofs::Ways::args_go, crate::proofs::Ways::args_not, crate::proofs::Ways::next_near))]
fn arg_names(s: &[u8], blocks: usize, args: usize, at: usize, line: usize) -> Result<(), Answer>
    requires { (blocks ≤ 256) × ((args ≤ 291) × ((line ≤ 258) × Inside s.now at)) }
    ensures { result ≡ outcome (first line (fills.arg_names s.now blocks args at)) }
{
    let mut i = at;
    for here in line..line + args {
        let w = value_of(arg_word(s, i + 4));
        if !datum_there(blocks, w) {
            return Err(absent(here));
        }
        i = next_line(s, i);
    }
    Ok(())
}

// One turn a block line, the first of them at `at`; then the arguments. `run=` is line 1.
#[tactic(auto, using(crate::proofs::Ways::blocks_done, crate::proofs::Ways::blocks_go, crate::proofs::Ways::blocks_not, crate::proofs::Ways::next_near))]
fn block_names(
    s: &[u8],
    size: &[u32; 6],
    blocks: usize,
    args: usize,
    at: usize,
) -> Result<(), Answer>
    requires { (blocks ≤ 256) × ((args ≤ 291) × Inside s.now at) }
    ensures { (R : List ℕ) → result ≡ outcome (first 2 (fills.block_names s.now (rows_from size.now R) blocks args blocks at)) }
{
    let mut i = at;
    for here in 2..2 + blocks {
        if !block_there(s, size, blocks, i + 6) {
            return Err(absent(here));
        }
        i = next_line(s, i);
    }
    arg_names(s, blocks, args, i, 2 + blocks)
}

#[tactic(auto, using(crate::proofs::Ways::next_near, crate::proofs::Ways::start_near), unfolding(rules::specs::Store::Fill::store_names))]
fn store_names(s: &[u8], size: &[u32; 6], c: StoreCount) -> Result<(), Answer>
    requires { (length s.now ≤ 16384) × Few 291 c }
    ensures { (R : List ℕ) → result ≡ outcome (fills.store_names s.now (rows_from size.now R) c) }
{
    let at = next_line(s, 0);
    block_names(s, size, c.blocks, c.args, at)
}

// ---- what is written

#[tactic(auto, unfolding(rules::specs::Store::Fill::kept_cells))]
fn kept_cells(n: usize) -> usize
    ensures { result ≡ fills.kept_cells n }
{
    n.min(KEPT)
}

// One turn a cell of block k.
#[tactic(auto, using(crate::proofs::Ways::no_fill))]
fn fill_cells(s: &[u8], k: usize, n: usize, at: usize, cells: &mut [u64; 4352])
    requires { (n ≤ 16384) × Near 65536 s.now at }
    ensures { cells.new ≡ fills.fill_cells s.now k n 0 at cells.old }
{
    let mut i = at;
    for o in 0..n {
        let r = cell_word(s, i);
        storage::put_cell(cells, k, o, value_of(r));
        i = next_of(r) + 1;
    }
}

// Block k, by the place after its line's key.
#[tactic(auto, using(crate::proofs::Ways::cells_are, crate::proofs::Ways::head_is, crate::proofs::Ways::kept_most, crate::proofs::Ways::line_row, crate::proofs::Ways::line_start))]
fn fill_block(s: &[u8], k: usize, at: usize, heads: &mut [u32; 768], cells: &mut [u64; 4352])
    requires { Near 32768 s.now at }
    ensures head { heads.new ≡ fills.put_head heads.old k (fills.row_of s.now at) (block_line s.now at).tag (fills.kept_cells (fills.cell_count s.now at)) }
    ensures cells { cells.new ≡ fills.fill_cells s.now k (fills.kept_cells (fills.cell_count s.now at)) 0 (fills.cells_start s.now at) cells.old }
{
    let b = block_line(s, at);
    let n = kept_cells(b.count);
    storage::put_head(heads, k, b.row + 1, b.tag, n as u32);
    fill_cells(s, k, n, b.start, cells);
}

// One turn a block; the place of the first argument line. What is left to fill from there gives what there was to fill.
#[tactic(auto, using(crate::proofs::Ways::blocks_over, crate::proofs::Ways::next_near, crate::proofs::Ways::one_block))]
fn fill_blocks(
    s: &[u8],
    blocks: usize,
    at: usize,
    heads: &mut [u32; 768],
    cells: &mut [u64; 4352],
) -> usize
    requires { (blocks ≤ 256) × Inside s.now at }
    ensures near { Inside s.now result }
    ensures fills { (D : List Var) (c : Counts) → fills.fill_blocks s.now D c 0 blocks result heads.new cells.new ≡ fills.fill_blocks s.now D c blocks 0 at heads.old cells.old }
{
    let mut i = at;
    for k in 0..blocks {
        fill_block(s, k, i + 6, heads, cells);
        i = next_line(s, i);
    }
    i
}

// The datum of a local.
#[tactic(auto, unfolding(entry::specs::Codes::writable))]
fn local_code(k: Kind, n: Num) -> u64
    ensures { result ≡ code_of (fills.local_datum k n) }
{
    match k {
        Kind::Cint => entry::code_of(Datum::Int(n)),
        Kind::Value(_) => entry::code_of(Datum::Imm(n)),
    }
}

// A local has a number of its own; a parameter takes the argument at `at`.
#[tactic(auto, unfolding(rules::specs::Program::kind_at))]
fn val_of(s: &[u8], size: &[u32; 6], vars: &[u32; 96], v: usize, at: usize) -> Taken
    requires { Inside s.now at }
    ensures { result ≡ taken s.now (get_or (vars_from size.now vars.now) v no_var) at }
{
    if program::is_local(size, vars, v) {
        let k = program::kind_of(size, vars, v);
        let n = program::local_number(size, vars, v);
        Taken {
            code: local_code(k, n),
            next: at,
        }
    } else {
        Taken {
            code: value_of(arg_word(s, at + 4)),
            next: next_line(s, at),
        }
    }
}

// One turn a variable, the first argument line at `at`.
#[tactic(auto, using(crate::proofs::Ways::vals_done))]
fn fill_vals(s: &[u8], size: &[u32; 6], vars: &[u32; 96], at: usize, vals: &mut [u64; 32])
    requires { Inside s.now at }
    ensures { vals.new ≡ fills.fill_vals s.now (vars_from size.now vars.now) 0 at vals.old }
{
    let mut i = at;
    for v in 0..program::var_count(size) {
        let t = val_of(s, size, vars, v, i);
        storage::put_val(vals, v, t.code);
        i = t.next;
    }
}

// A text of a right shape, with its counts, into the tables, whatever they held.
#[tactic(auto, using(crate::proofs::Ways::next_near, crate::proofs::Ways::start_near))]
fn fill(s: &[u8], size: &[u32; 6], vars: &[u32; 96], c: StoreCount, t: &mut StoreTables)
    requires { (length s.now ≤ 16384) × Few 291 c }
    ensures { t.new ≡ fills.fill_store s.now (vars_from size.now vars.now) c }
{
    storage::clear(t);
    let at = next_line(s, 0);
    let after = fill_blocks(s, c.blocks, at, &mut t.heads, &mut t.cells);
    fill_vals(s, size, vars, after, &mut t.vals);
    storage::put_sizes(&mut t.size, c.budget, c.blocks as u32);
}

// ---- the text, whole

// How many variables take an argument.
#[tactic(auto, using(crate::proofs::Ways::params_done, crate::proofs::Ways::params_local, crate::proofs::Ways::params_one))]
fn params_of(size: &[u32; 6], vars: &[u32; 96]) -> usize
    ensures { result ≡ params_of (vars_from size.now vars.now) }
{
    let mut params = 0;
    for v in 0..program::var_count(size) {
        if !program::is_local(size, vars, v) {
            params += 1;
        }
    }
    params
}

// Stage after stage: on a refusal the tables are as the stage before left them.
#[tactic(auto, using(crate::proofs::Ways::counts_few, crate::proofs::Ways::text_short))]
fn stages(
    s: &[u8],
    size: &[u32; 6],
    rows: &[u32; 17536],
    vars: &[u32; 96],
    t: &mut StoreTables,
) -> Result<(), Answer>
    ensures { (N L B : List ℕ) → Filled (read_store (program (tables_of size.now N rows.now vars.now L B)) s.now) result t.new }
{
    let c = tally::tallied(s, params_of(size, vars)).map_err(|refused| refused.answer)?;
    store_names(s, size, c)?;
    fill(s, size, vars, c, t);
    fits::fitted(size, rows, vars, t)
}

// The store in the tables, or one of the answers 21 to 27. Whatever they held before, they are all 0 on a refusal.
pub fn read(
    s: &[u8],
    size: &[u32; 6],
    rows: &[u32; 17536],
    vars: &[u32; 96],
    t: &mut StoreTables,
) -> Result<(), Answer>
    ensures { (N L B : List ℕ) → Says (read_store (program (tables_of size.now N rows.now vars.now L B)) s.now) result t.new }
{
    let r = stages(s, size, rows, vars, t);
    if r.is_err() {
        storage::clear(t);
    }
    r
}
