// What an expression gives in the machine, over the tables of a program and of a store.
// Operands are evaluated left to right, each with the node after it; then the form itself. Any numbers in the tables are answered.
#![tactic(auto)]

ghost use Rattle.std.specs.Prelude.{◌≡◌, true, List, ℕ, ◌/◌, ◌%◌, ◌<◌, pos, ◌+ℤ◌, length, get_or};
ghost use Rattle.rules.specs.Program.{Rows};
ghost use Rattle.rules.specs.View.{rows_from, vars_from, form_of};
ghost use Rattle.rules.specs.Machine.{Given, Store, ev_var, ev_arith, ev_val, ev_int, ev_fetch, moved, ev_step, need_int};
ghost use Rattle.rules.specs.Machine.Tables.{store_of, vals_of};
ghost use Rattle.program.specs.Nodes.{arity};
ghost use Rattle.eval.specs.Walk.{form, gave, gave_at};

use rules::{Datum, Form, Given, Limits, Num, Op};

// What a node's expression gives, and the node after it.
// Kept as it is: typing has the same of a judgement (`typing::Found`). One type over both would stand below two crates that share nothing else, and name neither field.
#[derive(Drop)]
pub struct Gave {
    pub given: Given,
    pub next: usize,
}

// ---- arithmetic, `val` and `int`

// The int that an operand is; nothing of any other.
fn int(x: Given) -> Option<Num>
    ensures { result ≡ need_int None x (λ n. Some n) }
{
    match x? {
        Datum::Int(n) => Some(n),
        _ => None,
    }
}

// Both operands must be C ints; of the first the int alone comes here.
#[tactic(auto, using(crate::proofs::Laws::int_there, crate::proofs::Laws::int_none), unfolding(rules::specs::Machine::ev_arith))]
fn ev_arith(op: Op, x: Option<Num>, y: Given) -> Given
    ensures { (v : Given) → x ≡ need_int None v (λ n. Some n) → result ≡ ev_arith op v y }
{
    Some(Datum::Int(number::arith(op, x?, int(y)?)))
}

// The row of `val` must be there; what stands in it plays no part.
#[tactic(auto, unfolding(rules::specs::Machine::ev_val))]
fn ev_val(size: &[u32; 6], r: usize, x: Given) -> Given
    ensures { (R : List ℕ) → result ≡ ev_val (rows_from size.now R) r x }
{
    match x? {
        Datum::Int(n) if program::row_there(size, r) => Some(Datum::Imm(n)),
        _ => None,
    }
}

#[tactic(auto, unfolding(rules::specs::Machine::ev_int))]
fn ev_int(x: Given) -> Given
    ensures { result ≡ ev_int x }
{
    match x? {
        Datum::Imm(n) => Some(Datum::Int(n)),
        _ => None,
    }
}

// ---- `fetch` and `step`

// Outside the block there is no cell, and nothing is given.
#[tactic(auto, using(crate::proofs::Laws::fetch_is), unfolding(rules::specs::Machine::ev_fetch))]
fn ev_fetch(store: &[u32; 2], heads: &[u32; 768], cells: &[u64; 4352], x: Given) -> Given
    ensures { result ≡ ev_fetch (store_of store.now heads.now cells.now) x }
{
    match x? {
        Datum::Place(b, o) => storage::cell_at(store, heads, cells, b, o),
        _ => None,
    }
}

// The place at offset o of block b, moved by m over whole numbers. Here alone an amount is added to an offset.
#[tactic(auto, using(crate::proofs::Laws::lands, crate::proofs::Laws::leaves))]
pub fn moved(store: &[u32; 2], heads: &[u32; 768], b: usize, o: usize, m: Num) -> Given
    ensures { (C : List ℕ) → result ≡ moved (store_of store.now heads.now C) b (pos o +ℤ m.n) }
{
    let k = number::place_in(o, m, storage::cell_count(store, heads, b))?;
    Some(Datum::Place(b, k))
}

// The first operand is a place; the amount must be a C int.
#[tactic(auto, unfolding(rules::specs::Machine::ev_step))]
fn ev_step(store: &[u32; 2], heads: &[u32; 768], x: Given, y: Given) -> Given
    ensures { (C : List ℕ) → result ≡ ev_step (store_of store.now heads.now C) x y }
{
    match (x?, y?) {
        (Datum::Place(b, o), Datum::Int(m)) => moved(store, heads, b, o, m),
        _ => None,
    }
}

// ---- the walk

// What variable v holds.
pub fn var_given(size: &[u32; 6], vals: &[u64; 32], v: usize) -> Given
    ensures { (D : List ℕ) → result ≡ ev_var (vals_of (length (vars_from size.now D)) vals.now) v }
{
    storage::val_at(program::var_count(size), vals, v)
}

// The forms by how many operands they have, with what the operands give.

// A number or a variable; no other form that has no operands gives anything.
#[tactic(auto, unfolding(crate::specs::Walk::form))]
fn leaf(size: &[u32; 6], vals: &[u64; 32], node: Form, a: u32) -> Given
    requires { arity node ≡ 0 }
    ensures { (ρ : Rows) (σ : Store) (D : List ℕ) → result ≡ form ρ σ (vals_of (length (vars_from size.now D)) vals.now) node a None None }
{
    match node {
        Form::Lit => Some(Datum::Int(number::number(a))),
        Form::Var => var_given(size, vals, a as usize),
        _ => None,
    }
}

#[tactic(auto, unfolding(crate::specs::Walk::form))]
fn one_operand(
    size: &[u32; 6],
    store: &[u32; 2],
    heads: &[u32; 768],
    cells: &[u64; 4352],
    node: Form,
    a: u32,
    x: Given,
) -> Given
    requires { arity node ≡ 1 }
    ensures { (R W : List ℕ) (n : ℕ) → result ≡ form (rows_from size.now R) (store_of store.now heads.now cells.now) (vals_of n W) node a x None }
{
    match node {
        Form::Fetch => ev_fetch(store, heads, cells, x),
        Form::Int => ev_int(x),
        Form::Val => ev_val(size, a as usize, x),
        _ => None,
    }
}

fn gives(g: Given, n: usize) -> Gave
    ensures { result ≡ gave g n }
{
    Gave { given: g, next: n }
}

// What a node without operands gives.
fn leaf_at(size: &[u32; 6], nodes: &[u64; 4096], vals: &[u64; 32], at: usize) -> Given
    requires { arity (form_of (get_or nodes.now at 0 / 4294967296)) ≡ 0 }
    ensures { (ρ : Rows) (σ : Store) (D : List ℕ) → result ≡ form ρ σ (vals_of (length (vars_from size.now D)) vals.now) (form_of (get_or nodes.now at 0 / 4294967296)) (get_or nodes.now at 0 % 4294967296) None None }
{
    let node = program::form_of(program::operation(nodes, at));
    leaf(size, vals, node, program::argument(nodes, at))
}

// What an operand gives. Most operands are numbers and variables: these are answered in place, without a call that goes deeper.
#[cycle(operand_walk)]
#[tactic(auto, using(program::proofs::Walk::is_within, program::proofs::Walk::leaf_there))]
fn operand(
    size: &[u32; 6],
    nodes: &[u64; 4096],
    vals: &[u64; 32],
    depth: usize,
    at: usize,
    store: &[u32; 2],
    heads: &[u32; 768],
    cells: &[u64; 4352],
) -> Gave
    ensures { (R D : List ℕ) → result ≡ gave_at (rows_from size.now R) (store_of store.now heads.now cells.now) (vals_of (length (vars_from size.now D)) vals.now) nodes.now depth at }
{
    if program::is_leaf(nodes, depth, at) {
        return gives(leaf_at(size, nodes, vals, at), at + 1);
    }
    walk(size, nodes, vals, depth, at, store, heads, cells)
}

// What the expression at a node gives. Past the depth and past the last node nothing is there, and it is stuck. Arithmetic keeps no more than the int of its first operand while the second is evaluated.
// What every expression needs comes first among the parameters, and is handed on in registers.
#[cycle(operand_walk)]
#[tactic(auto, using(program::proofs::Walk::is_within, program::proofs::Walk::leaf_there))]
fn walk(
    size: &[u32; 6],
    nodes: &[u64; 4096],
    vals: &[u64; 32],
    depth: usize,
    at: usize,
    store: &[u32; 2],
    heads: &[u32; 768],
    cells: &[u64; 4352],
) -> Gave
    ensures { (R D : List ℕ) → result ≡ gave_at (rows_from size.now R) (store_of store.now heads.now cells.now) (vals_of (length (vars_from size.now D)) vals.now) nodes.now depth at }
{
    if !program::is_within(depth, at) {
        return gives(None, at);
    }
    let node = program::form_of(program::operation(nodes, at));
    let a = program::argument(nodes, at);
    match node {
        Form::Absent | Form::Lit | Form::Var => gives(leaf(size, vals, node, a), at + 1),
        Form::Fetch | Form::Int | Form::Val => {
            let x = operand(size, nodes, vals, depth - 1, at + 1, store, heads, cells);
            let g = one_operand(size, store, heads, cells, node, a, x.given);
            gives(g, x.next)
        }
        Form::Step => {
            let x = operand(size, nodes, vals, depth - 1, at + 1, store, heads, cells);
            let y = operand(size, nodes, vals, depth - 1, x.next, store, heads, cells);
            gives(ev_step(store, heads, x.given, y.given), y.next)
        }
        Form::Calc(op) => {
            let x = operand(size, nodes, vals, depth - 1, at + 1, store, heads, cells);
            let n = int(x.given);
            let y = operand(size, nodes, vals, depth - 1, x.next, store, heads, cells);
            gives(ev_arith(op, n, y.given), y.next)
        }
    }
}

// What the expression of a line gives, at any node of the table, and the node after it: a number or a variable in place too, any other by the walk.
#[tactic(auto, using(program::proofs::Walk::leaf_there), unfolding(crate::specs::Walk::gave_at))]
pub fn given_at(
    size: &[u32; 6],
    nodes: &[u64; 4096],
    store: &[u32; 2],
    heads: &[u32; 768],
    cells: &[u64; 4352],
    vals: &[u64; 32],
    k: usize,
) -> Gave
    ensures { (R D : List ℕ) → result ≡ gave_at (rows_from size.now R) (store_of store.now heads.now cells.now) (vals_of (length (vars_from size.now D)) vals.now) nodes.now 16 k }
{
    if program::is_leaf(nodes, Limits::DEPTH, k) {
        return gives(leaf_at(size, nodes, vals, k), k + 1);
    }
    walk(size, nodes, vals, Limits::DEPTH, k, store, heads, cells)
}
