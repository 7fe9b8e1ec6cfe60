// What the line at a place of the body does in the machine, over the tables of a program and of a store: a function for each statement, and the line by its kind.
// Nothing is written here. Any numbers in the tables are answered: what has no meaning is stuck.
#![tactic(auto)]

ghost use Rattle.std.specs.Prelude.{◌≡◌, List, ℕ, pos, length};
ghost use Rattle.rules.specs.Numbers.{eq_z};
ghost use Rattle.rules.specs.View.{rows_from, vars_from, tree_of, tree_at, stmt_from, program};
ghost use Rattle.rules.specs.Machine.{need_place, store_at, jump_on, act_set, act_put, act_if, act_ifimm, act_iftag, act_ifint, act_return, eval, act, decide};
ghost use Rattle.rules.specs.Machine.Tables.{store_of, vals_of};
ghost use Rattle.program.specs.Lines.{tables_of};
ghost use Rattle.program.specs.Nodes.{after_of};

use number::Sign;
use rules::{Act, Datum, Given, Num, Way};

// ---- jumps

// To label l if `on`, else to the next line; stuck where that label is absent.
#[tactic(auto, unfolding(rules::specs::Machine::jump_on, rules::specs::View::program))]
fn jump_on(size: &[u32; 6], labels: &[u64; 6208], body: &[u32; 2560], l: usize, on: bool) -> Act
    ensures { (N R D : List ℕ) → result ≡ jump_on (program (tables_of size.now N R D labels.now body.now)) l on }
{
    if !program::label_there(size, labels, body, l) {
        Act::Stuck
    } else if on {
        Act::Jump(program::label_line(size, labels, l))
    } else {
        Act::Fall
    }
}

// On any number but 0.
#[tactic(auto, unfolding(rules::specs::Machine::act_if))]
fn act_if(size: &[u32; 6], labels: &[u64; 6208], body: &[u32; 2560], l: usize, x: Given) -> Act
    ensures { (N R D : List ℕ) → result ≡ act_if (program (tables_of size.now N R D labels.now body.now)) l x }
{
    match x {
        Some(Datum::Int(n)) => jump_on(size, labels, body, l, !number::is_zero(n)),
        _ => Act::Stuck,
    }
}

#[tactic(auto, unfolding(rules::specs::Machine::act_ifimm))]
fn act_ifimm(size: &[u32; 6], labels: &[u64; 6208], body: &[u32; 2560], l: usize, x: Given) -> Act
    ensures { (N R D : List ℕ) → result ≡ act_ifimm (program (tables_of size.now N R D labels.now body.now)) l x }
{
    match x {
        Some(Datum::Imm(_)) => jump_on(size, labels, body, l, true),
        Some(Datum::Place(_, _)) => jump_on(size, labels, body, l, false),
        _ => Act::Stuck,
    }
}

// Whether n is the tag t. A tag of a table may be larger than any number.
#[tactic(auto, using(number::proofs::Laws::plus_is, number::proofs::Laws::minus_is))]
fn is_tag(t: u32, n: Num) -> bool
    ensures { result ≡ eq_z (pos t) n.n }
{
    matches!(number::sign_of(n), Sign::Plus(k) if k == t)
}

// The place must be the first of a block that is there.
#[tactic(auto, unfolding(rules::specs::Machine::act_iftag))]
fn act_iftag(
    size: &[u32; 6],
    labels: &[u64; 6208],
    body: &[u32; 2560],
    store: &[u32; 2],
    heads: &[u32; 768],
    l: usize,
    n: Num,
    x: Given,
) -> Act
    ensures { (N R D C : List ℕ) → result ≡ act_iftag (program (tables_of size.now N R D labels.now body.now)) (store_of store.now heads.now C) l n x }
{
    match x {
        Some(Datum::Place(b, o)) if o == 0 && b < storage::block_count(store) => {
            let t = storage::block_tag(store, heads, b);
            jump_on(size, labels, body, l, is_tag(t, n))
        }
        _ => Act::Stuck,
    }
}

#[tactic(auto, unfolding(rules::specs::Machine::act_ifint))]
fn act_ifint(
    size: &[u32; 6],
    labels: &[u64; 6208],
    body: &[u32; 2560],
    l: usize,
    n: Num,
    x: Given,
) -> Act
    ensures { (N R D : List ℕ) → result ≡ act_ifint (program (tables_of size.now N R D labels.now body.now)) l n x }
{
    match x {
        Some(Datum::Imm(m)) => jump_on(size, labels, body, l, number::same(m, n)),
        _ => Act::Stuck,
    }
}

// ---- `set`, `put` and `return`

#[tactic(auto, using(rules::proofs::Sound::StepTables::vals_length), unfolding(rules::specs::Machine::act_set))]
fn act_set(size: &[u32; 6], v: usize, x: Given) -> Act
    ensures { (D W : List ℕ) → result ≡ act_set (vals_of (length (vars_from size.now D)) W) v x }
{
    match x {
        Some(d) if program::var_there(size, v) => Act::SetVar(v, d),
        _ => Act::Stuck,
    }
}

// A C int is never stored.
fn store_at(b: usize, o: usize, y: Given) -> Act
    ensures { result ≡ store_at b o y }
{
    match y {
        None | Some(Datum::Int(_)) => Act::Stuck,
        Some(d) => Act::SetCell(b, o, d),
    }
}

// To the place to, after it was moved.
fn put_to(to: Given, y: Given) -> Act
    ensures { result ≡ need_place Act.Stuck to (λ c i. store_at c i y) }
{
    match to {
        Some(Datum::Place(c, i)) => store_at(c, i, y),
        _ => Act::Stuck,
    }
}

#[tactic(auto, unfolding(rules::specs::Machine::act_put))]
fn act_put(store: &[u32; 2], heads: &[u32; 768], m: Num, x: Given, y: Given) -> Act
    ensures { (C : List ℕ) → result ≡ act_put (store_of store.now heads.now C) m x y }
{
    match x {
        Some(Datum::Place(b, o)) => put_to(eval::moved(store, heads, b, o, m), y),
        _ => Act::Stuck,
    }
}

fn act_return(x: Given) -> Act
    ensures { result ≡ act_return x }
{
    match x {
        None => Act::Stuck,
        Some(d) => Act::Give(d),
    }
}

// ---- the lines

// What the expression at node k gives.
#[tactic(auto, using(eval::proofs::Laws::tree_of_lem))]
fn given(
    size: &[u32; 6],
    nodes: &[u64; 4096],
    store: &[u32; 2],
    heads: &[u32; 768],
    cells: &[u64; 4352],
    vals: &[u64; 32],
    k: usize,
) -> Given
    ensures { (R D : List ℕ) → result ≡ eval (rows_from size.now R) (store_of store.now heads.now cells.now) (vals_of (length (vars_from size.now D)) vals.now) (tree_of (tree_at nodes.now 16 k)) }
{
    eval::given_at(size, nodes, store, heads, cells, vals, k).given
}

// A and E of a `put`: E begins at the node after A.
#[tactic(auto, using(crate::proofs::Laws::put_both))]
fn put_line(
    size: &[u32; 6],
    nodes: &[u64; 4096],
    store: &[u32; 2],
    heads: &[u32; 768],
    cells: &[u64; 4352],
    vals: &[u64; 32],
    m: Num,
    k: usize,
) -> Act
    ensures { (R D : List ℕ) → result ≡ act_put (store_of store.now heads.now cells.now) m (eval (rows_from size.now R) (store_of store.now heads.now cells.now) (vals_of (length (vars_from size.now D)) vals.now) (tree_of (tree_at nodes.now 16 k))) (eval (rows_from size.now R) (store_of store.now heads.now cells.now) (vals_of (length (vars_from size.now D)) vals.now) (tree_of (tree_at nodes.now 16 (after_of (tree_at nodes.now 16 k))))) }
{
    let to = eval::given_at(size, nodes, store, heads, cells, vals, k);
    let y = given(size, nodes, store, heads, cells, vals, to.next);
    act_put(store, heads, m, to.given, y)
}

// What stands at a place of the body's table, by its kind.
#[tactic(auto, using(crate::proofs::Laws::by_way, program::proofs::Walk::with_one_lem, program::proofs::Walk::with_two_lem), unfolding(rules::specs::View::stmt_of, rules::specs::View::program, rules::specs::Machine::act))]
fn line_act(
    size: &[u32; 6],
    nodes: &[u64; 4096],
    labels: &[u64; 6208],
    body: &[u32; 2560],
    store: &[u32; 2],
    heads: &[u32; 768],
    cells: &[u64; 4352],
    vals: &[u64; 32],
    at: usize,
) -> Act
    ensures { (R D : List ℕ) → result ≡ act (program (tables_of size.now nodes.now R D labels.now body.now)) (store_of store.now heads.now cells.now) (vals_of (length (vars_from size.now D)) vals.now) (stmt_from nodes.now body.now at) }
{
    let s = program::line_at(body, at);
    let l = s.label as usize;
    let v = s.variable as usize;
    let n = number::number(s.word);
    let k = s.node as usize;
    match program::way_of(s.kind) {
        Way::Set => act_set(size, v, given(size, nodes, store, heads, cells, vals, k)),
        Way::Put => put_line(size, nodes, store, heads, cells, vals, n, k),
        Way::Goto => jump_on(size, labels, body, l, true),
        Way::If => {
            let x = given(size, nodes, store, heads, cells, vals, k);
            act_if(size, labels, body, l, x)
        }
        Way::IfImm => act_ifimm(size, labels, body, l, eval::var_given(size, vals, v)),
        Way::IfTag => {
            let x = eval::var_given(size, vals, v);
            act_iftag(size, labels, body, store, heads, l, n, x)
        }
        Way::IfInt => act_ifint(size, labels, body, l, n, eval::var_given(size, vals, v)),
        Way::Return => act_return(given(size, nodes, store, heads, cells, vals, k)),
        Way::Label => jump_on(size, labels, body, l, false),
        Way::Absent => Act::Stuck,
    }
}

// What the line at a place of the body does; stuck where the lines run out.
#[tactic(auto, using(crate::proofs::Laws::line_past, crate::proofs::Laws::line_there))]
pub fn decide_at(
    size: &[u32; 6],
    nodes: &[u64; 4096],
    labels: &[u64; 6208],
    body: &[u32; 2560],
    store: &[u32; 2],
    heads: &[u32; 768],
    cells: &[u64; 4352],
    vals: &[u64; 32],
    at: usize,
) -> Act
    ensures { (R D : List ℕ) → result ≡ decide (program (tables_of size.now nodes.now R D labels.now body.now)) (store_of store.now heads.now cells.now) (vals_of (length (vars_from size.now D)) vals.now) at }
{
    if at < program::line_count(size) {
        line_act(size, nodes, labels, body, store, heads, cells, vals, at)
    } else {
        Act::Stuck
    }
}
