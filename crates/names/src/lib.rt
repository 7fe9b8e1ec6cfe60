// Answers 4 and 5 over the tables of a program, whatever they hold: a row, variable or label named that does not exist, and an int variable's entry that is not `any,0,T`.
// A function that needs few of the tables says what holds of the program for all the others.
#![tactic(auto)]

ghost use Rattle.std.specs.Prelude.{◌≡◌, ◌&&◌, List, [], map, ℕ, ◌<◌, get_or};
ghost use Rattle.rules.specs.Answers.{first, outcome};
ghost use Rattle.rules.specs.Program.{row_at, label_at};
ghost use Rattle.rules.specs.View.{tree_of, tree_at, way_of, stmt_of, stmt_from, rows_from, vars_from, labels_from, body_from, program};
ghost use Rattle.rules.specs.Names.{kind_there, fields_there, products_there, entry_suits, entries_suit, label_suits, name_kind, name_row, name_var};
ghost use Rattle.program.specs.Lines.{tables_of};
ghost use Rattle.program.specs.Nodes.{after_of};
ghost use Rattle.names.specs.Passed.{on_line, passed};
ghost use Rattle.names.specs.Walk.{there_at};
ghost use Rattle.names.specs.Trees.{tree_named, stmt_named, line_named, names_in};

use program::Stored;
use rules::{Answer, Boxed, Entry, Form, Kind, Limits, Tables, Way};

// ---- kinds and rows

#[tactic(auto, unfolding(rules::specs::Names::kind_there, rules::specs::View::program))]
fn kind_there(size: &[u32; 6], k: Kind) -> bool
    ensures { (N R D L B : List ℕ) → result ≡ kind_there (program (tables_of size.now N R D L B)) k }
{
    match k {
        Kind::Cint => true,
        Kind::Value(r) => program::row_there(size, r),
    }
}

#[tactic(auto, unfolding(rules::specs::Names::name_kind))]
fn name_kind(size: &[u32; 6], k: Kind) -> Result<(), u32>
    ensures { (N R D L B : List ℕ) → result ≡ passed (name_kind (program (tables_of size.now N R D L B)) k) }
{
    if kind_there(size, k) { Ok(()) } else { Err(4) }
}

// Every field of product t of row r names a row, an earlier or a later one.
#[tactic(auto, using(crate::proofs::Laws::fields_done, crate::proofs::Laws::fields_left, table::proofs::Passes::all_no, table::proofs::Passes::all_on), unfolding(rules::specs::Program::fields_of, rules::specs::Program::field_of, rules::specs::View::program))]
fn fields_there(size: &[u32; 6], rows: &[u32; 17536], r: usize, t: usize) -> bool
    ensures { (N D L B : List ℕ) → result ≡ fields_there (program (tables_of size.now N rows.now D L B)) (get_or (row_at (rows_from size.now rows.now) r).products t []) }
{
    let n = program::fields_of(size, rows, r, t);
    for o in 0..n {
        let q = program::field_of(size, rows, r, t, o);
        if !program::row_there(size, q) {
            return false;
        }
    }
    true
}

#[tactic(auto, using(crate::proofs::Laws::products_done, crate::proofs::Laws::products_left, table::proofs::Passes::all_no, table::proofs::Passes::all_on), unfolding(rules::specs::Program::prods_of))]
fn products_there(size: &[u32; 6], rows: &[u32; 17536], r: usize) -> bool
    ensures { (N D L B : List ℕ) → result ≡ products_there (program (tables_of size.now N rows.now D L B)) (row_at (rows_from size.now rows.now) r).products }
{
    let n = program::prods_of(size, rows, r);
    for t in 0..n {
        if !fields_there(size, rows, r, t) {
            return false;
        }
    }
    true
}

// ---- labels

#[tactic(auto, unfolding(rules::specs::Names::entry_suits))]
fn entry_suits(k: Kind, e: Entry) -> bool
    ensures { result ≡ entry_suits k e }
{
    match k {
        Kind::Cint => matches!(e.boxed, Boxed::Either) && entry::zero_offset(e.offset),
        Kind::Value(_) => true,
    }
}

// A label that is absent has no entries.
#[tactic(auto, using(crate::proofs::Laws::suits_absent, crate::proofs::Laws::suits_done, crate::proofs::Laws::suits_left, table::proofs::Passes::all_no, table::proofs::Passes::all_on))]
fn entries_suit(t: &Tables, l: usize) -> bool
    ensures { result ≡ entries_suit (vars_from t.now.size t.now.vars) (label_at (labels_from t.now.size t.now.labels) l).entries }
{
    let count = program::label_count(&t.size);
    if count <= l {
        return true;
    }
    let n = program::var_count(&t.size);
    for v in 0..n {
        let k = program::kind_of(&t.size, &t.vars, v);
        let e = program::label_entry(&t.size, &t.labels, l, v);
        if !entry_suits(k, e) {
            return false;
        }
    }
    true
}

// ---- expressions

// The node after a tree that names only what exists; nothing for any other.
#[tactic(auto, using(crate::proofs::Laws::at_past, crate::proofs::Laws::at_zero))]
fn there_at(size: &[u32; 6], nodes: &[u64; 4096], depth: usize, at: usize) -> Option<usize>
    ensures { (R D L B : List ℕ) → result ≡ there_at (program (tables_of size.now nodes.now R D L B)) nodes.now depth at }
{
    if depth == 0 || Limits::NODES <= at {
        return None;
    }
    let a = program::argument(nodes, at) as usize;
    let first = at + 1;
    match program::form_of(program::operation(nodes, at)) {
        Form::Absent => None,
        Form::Lit => Some(first),
        Form::Var => program::var_there(size, a).then_some(first),
        Form::Fetch | Form::Int => there_at(size, nodes, depth - 1, first),
        Form::Val => {
            if program::row_there(size, a) {
                there_at(size, nodes, depth - 1, first)
            } else {
                None
            }
        }
        Form::Step | Form::Calc(_) => {
            let second = there_at(size, nodes, depth - 1, first)?;
            there_at(size, nodes, depth - 1, second)
        }
    }
}

#[tactic(auto, using(crate::proofs::Laws::tree_test))]
fn tree_there(size: &[u32; 6], nodes: &[u64; 4096], trees: bool, k: usize) -> bool
    ensures { (R D L B : List ℕ) → result ≡ tree_named trees (program (tables_of size.now nodes.now R D L B)) (tree_of (tree_at nodes.now 16 k)) }
{
    !trees || there_at(size, nodes, Limits::DEPTH, k).is_some()
}

// The two trees of a `put`: the second begins after the first.
#[tactic(auto, using(crate::proofs::Laws::tree_not, crate::proofs::Laws::tree_is))]
fn trees_there(size: &[u32; 6], nodes: &[u64; 4096], trees: bool, k: usize) -> bool
    ensures { (R D L B : List ℕ) → result ≡ (tree_named trees (program (tables_of size.now nodes.now R D L B)) (tree_of (tree_at nodes.now 16 k)) && tree_named trees (program (tables_of size.now nodes.now R D L B)) (tree_of (tree_at nodes.now 16 (after_of (tree_at nodes.now 16 k))))) }
{
    if !trees {
        return true;
    }
    let Some(next) = there_at(size, nodes, Limits::DEPTH, k) else {
        return false;
    };
    tree_there(size, nodes, true, next)
}

// ---- lines

// The label and the variable are read whether the line's kind has a use for them or not: they are something in every table. A tree is walked only where the line has one and trees are looked at.
#[tactic(auto, using(program::proofs::Walk::with_one_lem, program::proofs::Walk::with_two_lem), unfolding(rules::specs::View::way_of, rules::specs::View::stmt_of, crate::specs::Trees::stmt_named, rules::specs::View::program))]
fn stmt_there(t: &Tables, trees: bool, s: Stored) -> bool
    ensures { result ≡ stmt_named trees (program t.now) (stmt_of t.now.nodes (way_of s.kind) s.label s.variable s.word s.node) }
{
    let k = s.node as usize;
    let label = program::label_there(&t.size, &t.labels, &t.body, s.label as usize);
    let var = program::var_there(&t.size, s.variable as usize);
    match program::way_of(s.kind) {
        Way::Absent => false,
        Way::Set => var && tree_there(&t.size, &t.nodes, trees, k),
        Way::Put => trees_there(&t.size, &t.nodes, trees, k),
        Way::Goto | Way::Label => label,
        Way::If => label && tree_there(&t.size, &t.nodes, trees, k),
        Way::IfImm | Way::IfTag | Way::IfInt => label && var,
        Way::Return => tree_there(&t.size, &t.nodes, trees, k),
    }
}

#[tactic(auto, using(crate::proofs::Laws::other_line), unfolding(rules::specs::View::way_of, rules::specs::View::stmt_of, rules::specs::View::program))]
fn line_suits(t: &Tables, s: Stored) -> bool
    ensures { result ≡ label_suits (program t.now) (stmt_of t.now.nodes (way_of s.kind) s.label s.variable s.word s.node) }
{
    match program::way_of(s.kind) {
        Way::Label => entries_suit(t, s.label as usize),
        _ => true,
    }
}

#[tactic(auto, using(crate::proofs::Laws::stored_line), unfolding(crate::specs::Trees::line_named))]
fn name_line(t: &Tables, trees: bool, i: usize) -> Result<(), u32>
    ensures { result ≡ passed (line_named trees (program t.now) (stmt_from t.now.nodes t.now.body i)) }
{
    let s = program::line_at(&t.body, i);
    if !stmt_there(t, trees, s) {
        return Err(4);
    }
    if !line_suits(t, s) {
        return Err(5);
    }
    Ok(())
}

// ---- one loop for each part of the file; `line` is the part's first line
// Kept as it is: three loops that are alike in form; what a turn does and what its contract says is of another table in each.

// What was said of a line, as an answer that names it.
fn on_line(said: Result<(), u32>, line: usize) -> Result<(), Answer>
    ensures { result ≡ on_line line said }
{
    said.map_err(|number| Answer { number, line })
}

#[tactic(auto, using(crate::proofs::Laws::lines_end, program::proofs::Laws::rows_small))]
fn name_rows(size: &[u32; 6], rows: &[u32; 17536], line: usize) -> Result<(), Answer>
    requires { line < 1000 }
    ensures { (N D L B : List ℕ) → result ≡ outcome (first line (map (name_row (program (tables_of size.now N rows.now D L B))) (rows_from size.now rows.now))) }
{
    let n = program::row_count(size);
    for i in 0..n {
        if !products_there(size, rows, i) {
            return Err(Answer {
                number: 4,
                line: line + i,
            });
        }
    }
    Ok(())
}

#[tactic(auto, using(crate::proofs::Laws::lines_end, program::proofs::Laws::vars_small))]
fn name_vars(size: &[u32; 6], vars: &[u32; 96], line: usize) -> Result<(), Answer>
    requires { line < 1000 }
    ensures { (N R L B : List ℕ) → result ≡ outcome (first line (map (name_var (program (tables_of size.now N R vars.now L B))) (vars_from size.now vars.now))) }
{
    let n = program::var_count(size);
    for i in 0..n {
        let k = program::kind_of(size, vars, i);
        on_line(name_kind(size, k), line + i)?;
    }
    Ok(())
}

#[tactic(auto, using(crate::proofs::Laws::lines_end, program::proofs::Laws::lines_small))]
fn name_body(t: &Tables, trees: bool, line: usize) -> Result<(), Answer>
    requires { line < 1000 }
    ensures { result ≡ outcome (first line (map (line_named trees (program t.now)) (body_from t.now.size t.now.nodes t.now.body))) }
{
    let n = program::line_count(&t.size);
    for i in 0..n {
        let said = name_line(t, trees, i);
        on_line(said, line + i)?;
    }
    Ok(())
}

// The first line that is refused, `ret` being line 1. Without `trees` what expressions name is not looked at: for a caller who knows that it exists.
#[tactic(auto, using(program::proofs::Laws::rows_small, program::proofs::Laws::vars_small))]
pub fn named(t: &Tables, trees: bool) -> Result<(), Answer>
    ensures { result ≡ outcome (names_in trees (program t.now)) }
{
    on_line(name_kind(&t.size, program::ret_kind(&t.size)), 1)?;
    name_rows(&t.size, &t.rows, 2)?;
    let from_vars = 2 + program::row_count(&t.size);
    name_vars(&t.size, &t.vars, from_vars)?;
    let from_body = from_vars + program::var_count(&t.size);
    name_body(t, trees, from_body)
}
