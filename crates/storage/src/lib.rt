// The tables of a store, read and written. Each function is for every argument: past a table is nothing, and a place past it writes nothing.
#![tactic(auto)]

ghost use Rattle.std.specs.Prelude.{◌≡◌, List, [], ◌∷◌, ℕ, ◌+◌, ◌*◌, ◌<◌, length, get_or, set, replicate};
ghost use Rattle.rules.specs.Text.Layout.{cell};
ghost use Rattle.rules.specs.Machine.{row_in, tag_in, cells_in, inside, cell_at, ev_var};
ghost use Rattle.rules.specs.Machine.Tables.{datum_code, head_width, block_width, store_of, vals_of};
ghost use Rattle.rules.specs.Store.Fill.{no_store_tables};
ghost use Rattle.storage.specs.Heads.{head_put};

use rules::{Given, Limits, StoreTables};

// How many numbers a block has in each table.
const HEAD_WIDTH: usize = 3;

const BLOCK_WIDTH: usize = 17;

// ---- blocks

pub fn budget(size: &[u32; 2]) -> u32
    ensures { result ≡ get_or size.now 0 0 }
{
    table::at(size, 0, 0)
}

#[tactic(auto, using(crate::proofs::Laws::block_count))]
pub fn block_count(size: &[u32; 2]) -> usize
    ensures { (H C : List ℕ) → result ≡ length (store_of size.now H C) }
{
    table::up_to(Limits::BLOCKS, table::at(size, 1, 0))
}

#[tactic(auto, using(crate::proofs::Laws::row_in_lem, crate::proofs::Laws::row_out, table::proofs::Laws::above, table::proofs::Laws::below))]
pub fn block_row(size: &[u32; 2], heads: &[u32; 768], b: usize) -> usize
    ensures { (C : List ℕ) → result ≡ row_in (store_of size.now heads.now C) b }
{
    let n = block_count(size);
    if b < n {
        (table::cell(heads, HEAD_WIDTH, b, 0, 0) as usize).saturating_sub(1)
    } else {
        0
    }
}

#[tactic(auto, using(crate::proofs::Laws::tag_in_lem, crate::proofs::Laws::tag_out, table::proofs::Laws::above, table::proofs::Laws::below))]
pub fn block_tag(size: &[u32; 2], heads: &[u32; 768], b: usize) -> u32
    ensures { (C : List ℕ) → result ≡ tag_in (store_of size.now heads.now C) b }
{
    let n = block_count(size);
    if n <= b {
        return 0;
    }
    table::cell(heads, HEAD_WIDTH, b, 1, 0)
}

#[tactic(auto, using(crate::proofs::Laws::cells_in_lem, crate::proofs::Laws::cells_out, table::proofs::Laws::above, table::proofs::Laws::below))]
pub fn cell_count(size: &[u32; 2], heads: &[u32; 768], b: usize) -> usize
    ensures { (C : List ℕ) → result ≡ cells_in (store_of size.now heads.now C) b }
{
    let n = block_count(size);
    if b < n {
        table::up_to(BLOCK_WIDTH, table::cell(heads, HEAD_WIDTH, b, 2, 0))
    } else {
        0
    }
}

#[tactic(auto, using(crate::proofs::Laws::cells_in_lem))]
pub fn is_inside(size: &[u32; 2], heads: &[u32; 768], b: usize, o: usize) -> bool
    ensures { (C : List ℕ) → result ≡ inside (store_of size.now heads.now C) b o }
{
    b < block_count(size) && o < cell_count(size, heads, b)
}

// ---- data

#[tactic(auto, using(crate::proofs::Laws::cell_in, crate::proofs::Laws::cell_out, crate::proofs::Laws::cells_small, table::proofs::Laws::above, table::proofs::Laws::below))]
pub fn cell_at(
    size: &[u32; 2],
    heads: &[u32; 768],
    cells: &[u64; 4352],
    b: usize,
    o: usize,
) -> Given
    ensures { result ≡ cell_at (store_of size.now heads.now cells.now) b o }
{
    let n = cell_count(size, heads, b);
    if o < n {
        entry::datum_of(table::cell(cells, BLOCK_WIDTH, b, o, 0))
    } else {
        None
    }
}

// Variable v of a program that has n.
#[tactic(auto, using(crate::proofs::Laws::val_in, crate::proofs::Laws::val_out))]
pub fn val_at(n: usize, vals: &[u64; 32], v: usize) -> Given
    ensures { result ≡ ev_var (vals_of n vals.now) v }
{
    if v < n {
        entry::datum_of(table::at(vals, v, 0))
    } else {
        None
    }
}

// ---- writing

// The row is given as it stands, plus 1.
#[tactic(auto, using(crate::proofs::Laws::head_past, table::proofs::Laws::clamped), unfolding(crate::specs::Heads::head_put))]
pub fn put_head(heads: &mut [u32; 768], b: usize, row: u32, tag: u32, n: u32)
    ensures { heads.new ≡ head_put heads.old b row tag n }
{
    table::put_cell(heads, HEAD_WIDTH, b, 0, row);
    table::put_cell(heads, HEAD_WIDTH, b, 1, tag);
    table::put_cell(heads, HEAD_WIDTH, b, 2, n);
}

// Past the block's own cells this writes as the definition does, further on in the table.
pub fn put_cell(cells: &mut [u64; 4352], b: usize, o: usize, code: u64)
    ensures { cells.new ≡ set cells.old (b * block_width + o) code }
{
    table::put_cell(cells, BLOCK_WIDTH, b, o, code);
}

pub fn put_val(vals: &mut [u64; 32], v: usize, code: u64)
    ensures { vals.new ≡ set vals.old v code }
{
    table::put(vals, v, code);
}

pub fn put_sizes(size: &mut [u32; 2], budget: u32, blocks: u32)
    ensures { size.new ≡ budget ∷ blocks ∷ [] }
{
    *size = [budget, blocks];
}

// ---- clearing

pub fn clear_size(size: &mut [u32; 2])
    ensures { size.new ≡ replicate 2 0 }
{
    *size = [0; 2];
}

pub fn clear_heads(heads: &mut [u32; 768])
    ensures { heads.new ≡ replicate 768 0 }
{
    *heads = [0; 768];
}

pub fn clear_cells(cells: &mut [u64; 4352])
    ensures { cells.new ≡ replicate 4352 0 }
{
    *cells = [0; 4352];
}

pub fn clear_vals(vals: &mut [u64; 32])
    ensures { vals.new ≡ replicate 32 0 }
{
    *vals = [0; 32];
}

// All tables of a store.
pub fn clear(t: &mut StoreTables)
    ensures { t.new ≡ no_store_tables }
{
    clear_size(&mut t.size);
    clear_heads(&mut t.heads);
    clear_cells(&mut t.cells);
    clear_vals(&mut t.vals);
}
