// Answers 25 to 27 over the tables of a program and of a store, whatever they hold: a block with a tag or a number of cells that its row does not have,
// a cell or an argument that does not fit.
// Cells and arguments are held to `any,0,any` alone. A function that needs few of the tables says what holds for all the others.
#![tactic(auto)]

ghost use Rattle.std.specs.Prelude.{◌≡◌, List, map, ℕ, ◌<◌, length};
ghost use Rattle.rules.specs.Answers.{first, outcome};
ghost use Rattle.rules.specs.Program.{loosest, kind_at};
ghost use Rattle.rules.specs.View.{rows_from, vars_from, program};
ghost use Rattle.rules.specs.Machine.{block_at, ev_var};
ghost use Rattle.rules.specs.Machine.Tables.{store_of, vals_of};
ghost use Rattle.rules.specs.Fits.{fits_imm, fits_place, fits, right_shape, block_number, arg_numbers};
ghost use Rattle.rules.specs.Store.{store_fits};
ghost use Rattle.program.specs.Lines.{tables_of};
ghost use Rattle.fits.specs.Blocks.{block_fits, numbered, store_in};

use rules::{Answer, Datum, Given, Kind, Num, StoreTables};

// ---- data

// An immediate, held to the constants of row r.
#[tactic(auto, unfolding(rules::specs::Fits::fits_imm))]
fn fits_imm(size: &[u32; 6], rows: &[u32; 17536], r: usize, n: Num) -> bool
    ensures { result ≡ fits_imm (rows_from size.now rows.now) r loosest n }
{
    let psi = program::psi_of(size, rows, r);
    number::suits(psi, n)
}

// Offset o of block b, where a value of row r is asked for.
#[tactic(auto, unfolding(rules::specs::Fits::fits_place))]
fn fits_place(store: &[u32; 2], heads: &[u32; 768], r: usize, b: usize, o: usize) -> bool
    ensures { (C : List ℕ) → result ≡ fits_place (store_of store.now heads.now C) r loosest b o }
{
    let row = storage::block_row(store, heads, b);
    row == r && o == 0 && storage::is_inside(store, heads, b, o)
}

#[tactic(auto, unfolding(rules::specs::Fits::fits))]
fn given_fits(
    size: &[u32; 6],
    rows: &[u32; 17536],
    store: &[u32; 2],
    heads: &[u32; 768],
    k: Kind,
    g: Given,
) -> bool
    ensures { (C : List ℕ) → result ≡ fits (rows_from size.now rows.now) (store_of store.now heads.now C) k loosest g }
{
    match (k, g) {
        (Kind::Cint, Some(Datum::Int(_))) => true,
        (Kind::Value(r), Some(Datum::Imm(n))) => fits_imm(size, rows, r, n),
        (Kind::Value(r), Some(Datum::Place(b, o))) => fits_place(store, heads, r, b, o),
        _ => false,
    }
}

// ---- blocks

// Block k has a tag of its row, and as many cells as that product has fields.
#[tactic(auto, unfolding(rules::specs::Machine::row_in, rules::specs::Machine::tag_in, rules::specs::Machine::cells_in))]
fn right_shape(
    size: &[u32; 6],
    rows: &[u32; 17536],
    store: &[u32; 2],
    heads: &[u32; 768],
    k: usize,
) -> bool
    ensures { (C : List ℕ) → result ≡ right_shape (rows_from size.now rows.now) (block_at (store_of store.now heads.now C) k) }
{
    let r = storage::block_row(store, heads, k);
    let t = storage::block_tag(store, heads, k) as usize;
    t < program::prods_of(size, rows, r)
        && storage::cell_count(store, heads, k) == program::fields_of(size, rows, r, t)
}

// Every cell of block k fits the row of its field.
#[tactic(auto, using(crate::proofs::Laws::cells_done, crate::proofs::Laws::cells_no, crate::proofs::Laws::cells_on_lem))]
fn cells_fit(size: &[u32; 6], rows: &[u32; 17536], t: &StoreTables, k: usize) -> bool
    ensures { result ≡ block_fits (rows_from size.now rows.now) (store_in t.now) k }
{
    let row = storage::block_row(&t.size, &t.heads, k);
    let tag = storage::block_tag(&t.size, &t.heads, k) as usize;
    for o in 0..storage::cell_count(&t.size, &t.heads, k) {
        let q = program::field_of(size, rows, row, tag, o);
        let g = storage::cell_at(&t.size, &t.heads, &t.cells, k, o);
        if !given_fits(size, rows, &t.size, &t.heads, Kind::Value(q), g) {
            return false;
        }
    }
    true
}

// Block k fits its row, or the number of its answer.
#[tactic(auto, unfolding(rules::specs::Fits::block_number))]
fn fit_block(size: &[u32; 6], rows: &[u32; 17536], t: &StoreTables, k: usize) -> Result<(), u32>
    ensures { result ≡ numbered (block_number (rows_from size.now rows.now) (store_in t.now) (block_at (store_in t.now) k)) }
{
    if !right_shape(size, rows, &t.size, &t.heads, k) {
        return Err(25);
    }
    if !cells_fit(size, rows, t, k) {
        return Err(26);
    }
    Ok(())
}

// The block lines follow line 1.
#[tactic(auto, using(storage::proofs::Laws::blocks_small, table::proofs::Passes::lines_done, table::proofs::Passes::lines_no, table::proofs::Passes::lines_on))]
fn fit_blocks(size: &[u32; 6], rows: &[u32; 17536], t: &StoreTables) -> Result<(), Answer>
    ensures { result ≡ outcome (first 2 (map (block_number (rows_from size.now rows.now) (store_in t.now)) (store_in t.now))) }
{
    for i in 0..storage::block_count(&t.size) {
        fit_block(size, rows, t, i).map_err(|number| Answer {
            number,
            line: 2 + i,
        })?;
    }
    Ok(())
}

// ---- arguments

// What variable v holds, as an argument for its kind.
fn arg_fits(
    size: &[u32; 6],
    rows: &[u32; 17536],
    vars: &[u32; 96],
    t: &StoreTables,
    v: usize,
) -> bool
    ensures { result ≡ fits (rows_from size.now rows.now) (store_in t.now) (kind_at (vars_from size.now vars.now) v) loosest (ev_var (vals_of (length (vars_from size.now vars.now)) t.now.vals) v) }
{
    let n = program::var_count(size);
    let k = program::kind_of(size, vars, v);
    let g = storage::val_at(n, &t.vals, v);
    given_fits(size, rows, &t.size, &t.heads, k, g)
}

// Each parameter has a line, the first of them `line`; a local has none.
#[tactic(auto, using(crate::proofs::Laws::args_done, crate::proofs::Laws::args_local, crate::proofs::Laws::args_no, crate::proofs::Laws::args_on, program::proofs::Laws::vars_small))]
fn fit_args(
    size: &[u32; 6],
    rows: &[u32; 17536],
    vars: &[u32; 96],
    t: &StoreTables,
    line: usize,
) -> Result<(), Answer>
    requires { line < 1000 }
    ensures { result ≡ outcome (first line (arg_numbers (rows_from size.now rows.now) (store_in t.now) (vars_from size.now vars.now) (vals_of (length (vars_from size.now vars.now)) t.now.vals))) }
{
    let mut at = line;
    for v in 0..program::var_count(size) {
        if program::is_local(size, vars, v) {
            continue;
        }
        if !arg_fits(size, rows, vars, t, v) {
            return Err(Answer {
                number: 27,
                line: at,
            });
        }
        at += 1;
    }
    Ok(())
}

// The first block line or argument line that is refused, `run=` being line 1.
#[tactic(auto, using(crate::proofs::Laws::fits_args, crate::proofs::Laws::fits_blocks, storage::proofs::Laws::blocks_small), unfolding(rules::specs::View::program))]
pub fn fitted(
    size: &[u32; 6],
    rows: &[u32; 17536],
    vars: &[u32; 96],
    t: &StoreTables,
) -> Result<(), Answer>
    ensures { (N L B : List ℕ) → result ≡ outcome (store_fits (program (tables_of size.now N rows.now vars.now L B)) t.now) }
{
    fit_blocks(size, rows, t)?;
    let line = 2 + storage::block_count(&t.size);
    fit_args(size, rows, vars, t, line)
}
