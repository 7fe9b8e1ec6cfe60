// The judgement of an expression over a program's tables: nodes in preorder, the rows, the variables, and the environment as numbers, which are lent.
// Operands are judged left to right, each with the node after it; then the form itself.
#![tactic(auto)]

ghost use Rattle.std.specs.Prelude.{◌≡◌, List, ◌/◌, ◌%◌, ◌<◌, pos, get_or};
ghost use Rattle.rules.specs.Numbers.{num};
ghost use Rattle.rules.specs.Program.{Rows, Var, entry};
ghost use Rattle.rules.specs.View.{rows_from, vars_from, form_of};
ghost use Rattle.rules.specs.Typing.{arith_tag, suits_tag, val_of, immediate, int_of, lone, spot, addr_at, addr_spot, address_of, ty_var, ty_arith, ty_val, ty_int, ty_fetch, ty_step};
ghost use Rattle.program.specs.Nodes.{arity};
ghost use Rattle.coded.specs.Coded.{env_of};
ghost use Rattle.typing.specs.Walk.{tag_only, form, found, found_at};
ghost use Rattle.rules.specs.declared.Env.{Env};

use rules::{Addr, Boxed, Entry, Env, Form, Judged, Kind, Limits, Num, Offset, Op, Psi, Tag};

// What a node's expression is judged as, and the node after it.
#[derive(Drop)]
pub struct Found {
    pub judged: Judged,
    pub next: usize,
}

// ---- variables and arithmetic

// Variable v in the environment that the codes stand for.
#[tactic(auto, unfolding(rules::specs::Typing::ty_var, coded::specs::Coded::env_of))]
fn var_coded(size: &[u32; 6], vars: &[u32; 96], codes: &[u64; 96], count: usize, v: usize) -> Judged
    ensures { result ≡ ty_var (vars_from size.now vars.now) (env_of codes.now count) v }
{
    if v < count {
        Ok((program::kind_of(size, vars, v), coded::entry_in(codes, v)))
    } else {
        Err(4)
    }
}

#[tactic(auto, unfolding(rules::specs::Typing::ty_var))]
pub fn var_judged(size: &[u32; 6], vars: &[u32; 96], env: Env, v: usize) -> Judged
    ensures { result ≡ ty_var (vars_from size.now vars.now) env v }
{
    if v < env.count {
        Ok((program::kind_of(size, vars, v), entry::entry_at(env, v)))
    } else {
        Err(4)
    }
}

fn arith_tag(op: Op, a: Tag, b: Tag) -> Tag
    ensures { result ≡ arith_tag op a b }
{
    match (a, b) {
        (Tag::Known(n), Tag::Known(m)) => Tag::Known(number::arith(op, n, m)),
        _ => Tag::Unknown,
    }
}

#[tactic(auto, unfolding(rules::specs::Typing::ty_arith))]
fn ty_arith(op: Op, x: Judged, y: Judged) -> Judged
    ensures { result ≡ ty_arith op x y }
{
    let (k, e) = x?;
    let (l, d) = y?;
    match (k, l) {
        (Kind::Cint, Kind::Cint) => Ok((Kind::Cint, entry::int_entry(arith_tag(op, e.tag, d.tag)))),
        _ => Err(6),
    }
}

// ---- `val` and `int`

fn suits_tag(psi: Psi, t: Tag) -> bool
    ensures { result ≡ suits_tag psi t }
{
    match t {
        Tag::Known(n) => number::suits(psi, n),
        Tag::Unknown => matches!(psi, Psi::Inf),
    }
}

fn val_of(psi: Psi, r: usize, t: Tag) -> Judged
    ensures { result ≡ val_of psi r t }
{
    if suits_tag(psi, t) {
        Ok((Kind::Value(r), entry::imm_entry(t)))
    } else {
        Err(9)
    }
}

#[tactic(auto, unfolding(rules::specs::Typing::ty_val))]
fn ty_val(size: &[u32; 6], rows: &[u32; 17536], r: usize, x: Judged) -> Judged
    ensures { result ≡ ty_val (rows_from size.now rows.now) r x }
{
    let (Kind::Cint, e) = x? else {
        return Err(6);
    };
    val_of(program::psi_of(size, rows, r), r, e.tag)
}

fn is_immediate(b: Boxed, p: usize) -> bool
    ensures { result ≡ immediate b p }
{
    match b {
        Boxed::Either => p == 0,
        Boxed::Block => false,
        Boxed::Imm => true,
    }
}

fn int_of(p: usize, e: Entry) -> Judged
    ensures { result ≡ int_of p e }
{
    if !is_immediate(e.boxed, p) {
        return Err(7);
    }
    if !entry::zero_offset(e.offset) {
        return Err(10);
    }
    Ok((Kind::Cint, entry::int_entry(e.tag)))
}

#[tactic(auto, unfolding(rules::specs::Typing::ty_int))]
fn ty_int(size: &[u32; 6], rows: &[u32; 17536], x: Judged) -> Judged
    ensures { result ≡ ty_int (rows_from size.now rows.now) x }
{
    let (Kind::Value(r), e) = x? else {
        return Err(6);
    };
    int_of(program::prods_of(size, rows, r), e)
}

// ---- addresses

// PSI 0 and exactly one product.
fn is_lone(psi: Psi, p: usize) -> bool
    ensures { result ≡ lone psi p }
{
    matches!(psi, Psi::Upto(0)) && p == 1
}

#[tactic(auto, using(number::specs::Places::index_at, number::specs::Places::index_out))]
fn addr_at(size: &[u32; 6], rows: &[u32; 17536], r: usize, o: Num, t: Num, m: Num) -> Addr
    ensures { result ≡ addr_at (rows_from size.now rows.now) r o t m }
{
    let tag = number::index_in(t, program::prods_of(size, rows, r)).ok_or(8u32)?;
    // Over whole numbers. Here alone an amount is added to an offset.
    let k = number::sum_in(o, m, program::fields_of(size, rows, r, tag)).ok_or(8u32)?;
    Ok((tag, k))
}

// The spot is found: then the amount must be known.
fn spot_addr(size: &[u32; 6], rows: &[u32; 17536], r: usize, o: Num, t: Num, m: Tag) -> Addr
    ensures { result ≡ addr_spot (rows_from size.now rows.now) r (spot o t) m }
{
    let Tag::Known(n) = m else {
        return Err(7);
    };
    addr_at(size, rows, r, o, t, n)
}

// The tag and the offset that the entry e of row r addresses, m added to the offset.
// B is `box`, with both known, and then it plays no part whether the row is a lone one; or B is `any` in a lone row, taken as offset 0, tag 0.
pub fn address_of(size: &[u32; 6], rows: &[u32; 17536], r: usize, e: Entry, m: Tag) -> Addr
    ensures { result ≡ address_of (rows_from size.now rows.now) r e m }
{
    let only = is_lone(
        program::psi_of(size, rows, r),
        program::prods_of(size, rows, r),
    );
    match (e.boxed, e.offset, e.tag) {
        (Boxed::Block, Offset::Known(o), Tag::Known(t)) => spot_addr(size, rows, r, o, t, m),
        (Boxed::Either, o, Tag::Unknown) if entry::zero_offset(o) && only => {
            spot_addr(size, rows, r, Num { n: 0 }, Num { n: 0 }, m)
        }
        _ => Err(7),
    }
}

// ---- `fetch` and `step`

#[tactic(auto, unfolding(rules::specs::Typing::ty_fetch))]
fn ty_fetch(size: &[u32; 6], rows: &[u32; 17536], x: Judged) -> Judged
    ensures { result ≡ ty_fetch (rows_from size.now rows.now) x }
{
    let (Kind::Value(r), e) = x? else {
        return Err(6);
    };
    let (t, o) = address_of(size, rows, r, e, Tag::Known(Num { n: 0 }))?;
    Ok((
        Kind::Value(program::field_of(size, rows, r, t, o)),
        Entry::LOOSEST,
    ))
}

// `box` at offset o of a block with tag t.
fn block_entry(t: usize, o: usize) -> Entry
    requires { (t < 16) × (o < 16) }
    ensures { result ≡ entry (Boxed.Block) (Offset.Known (num (pos o))) (Tag.Known (num (pos t))) }
{
    Entry {
        boxed: Boxed::Block,
        offset: Offset::Known(Num { n: o as i32 }),
        tag: Tag::Known(Num { n: t as i32 }),
    }
}

#[tactic(auto, using(crate::proofs::Laws::near), unfolding(rules::specs::Typing::ty_step))]
fn ty_step(size: &[u32; 6], rows: &[u32; 17536], x: Judged, y: Judged) -> Judged
    ensures { result ≡ ty_step (rows_from size.now rows.now) x y }
{
    let (k, e) = x?;
    let (l, d) = y?;
    let (Kind::Value(r), Kind::Cint) = (k, l) else {
        return Err(6);
    };
    let (t, o) = address_of(size, rows, r, e, d.tag)?;
    Ok((Kind::Value(r), block_entry(t, o)))
}

// ---- the walk

// The forms by how many operands they have. Those with operands are judged by functions that the walk alone calls, so that no judgement is copied on its way out.

// A number or a variable; no other operation that has no operands is anything (4).
// Kept as it is: tried with a match over the form, misses speed: it is then not compiled in place, and typing takes 302,000 instructions of the 30 KB text, not 276,000.
#[tactic(auto, using(program::proofs::Walk::leaf_rest), unfolding(rules::specs::View::form_of, crate::specs::Walk::form))]
fn leaf(
    size: &[u32; 6],
    vars: &[u32; 96],
    codes: &[u64; 96],
    count: usize,
    op: u32,
    a: u32,
) -> Judged
    requires { arity (form_of op) ≡ 0 }
    ensures { (ρ : Rows) → result ≡ form ρ (vars_from size.now vars.now) (env_of codes.now count) (form_of op) a (Err 4) (Err 4) }
{
    match op {
        1 => Ok((Kind::Cint, entry::int_entry(Tag::Known(number::number(a))))),
        2 => var_coded(size, vars, codes, count, a as usize),
        _ => Err(4),
    }
}

#[tactic(auto, unfolding(crate::specs::Walk::form))]
fn one_operand(size: &[u32; 6], rows: &[u32; 17536], what: Form, a: u32, x: Judged) -> Judged
    requires { arity what ≡ 1 }
    ensures { (D : List Var) (Γ : Env) → result ≡ form (rows_from size.now rows.now) D Γ what a x (Err 4) }
{
    match what {
        Form::Fetch => ty_fetch(size, rows, x),
        Form::Int => ty_int(size, rows, x),
        Form::Val => ty_val(size, rows, a as usize, x),
        _ => Err(4),
    }
}

// Of an operand of arithmetic: whether it is an int, and its tag. Nothing else of it plays a part.
fn tag_only(x: Judged) -> Judged
    ensures { result ≡ tag_only x }
{
    let (k, e) = x?;
    match k {
        Kind::Value(_) => Ok((Kind::Value(0), entry::int_entry(e.tag))),
        Kind::Cint => Ok((Kind::Cint, entry::int_entry(e.tag))),
    }
}

fn gives(judged: Judged, next: usize) -> Found
    ensures { result ≡ found judged next }
{
    Found { judged, next }
}

// What a node without operands is judged as.
fn leaf_at(
    size: &[u32; 6],
    vars: &[u32; 96],
    nodes: &[u64; 4096],
    codes: &[u64; 96],
    count: usize,
    at: usize,
) -> Judged
    requires { arity (form_of (get_or nodes.now at 0 / 4294967296)) ≡ 0 }
    ensures { (ρ : Rows) → result ≡ form ρ (vars_from size.now vars.now) (env_of codes.now count) (form_of (get_or nodes.now at 0 / 4294967296)) (get_or nodes.now at 0 % 4294967296) (Err 4) (Err 4) }
{
    let op = program::operation(nodes, at);
    leaf(size, vars, codes, count, op, program::argument(nodes, at))
}

// What an operand is judged as. Most operands are numbers and variables: these are judged in place, without a call that goes deeper.
#[cycle(operand_walk)]
fn operand(
    size: &[u32; 6],
    rows: &[u32; 17536],
    vars: &[u32; 96],
    nodes: &[u64; 4096],
    codes: &[u64; 96],
    count: usize,
    depth: usize,
    at: usize,
) -> Found
    ensures { result ≡ found_at (rows_from size.now rows.now) (vars_from size.now vars.now) (env_of codes.now count) nodes.now depth at }
{
    if program::is_leaf(nodes, depth, at) {
        let j = leaf_at(size, vars, nodes, codes, count, at);
        return gives(j, at + 1);
    }
    walk(size, rows, vars, nodes, codes, count, depth, at)
}

// What the expression at a node is judged as. Past the depth and past the last node nothing is there (4). Arithmetic is told from `step` before the second operand is judged: of the first no more than its tag is then kept.
#[cycle(operand_walk)]
fn walk(
    size: &[u32; 6],
    rows: &[u32; 17536],
    vars: &[u32; 96],
    nodes: &[u64; 4096],
    codes: &[u64; 96],
    count: usize,
    depth: usize,
    at: usize,
) -> Found
    ensures { result ≡ found_at (rows_from size.now rows.now) (vars_from size.now vars.now) (env_of codes.now count) nodes.now depth at }
{
    if !program::is_within(depth, at) {
        return gives(Err(4), at);
    }
    let op = program::operation(nodes, at);
    if program::operands(op) == 0 {
        return gives(leaf_at(size, vars, nodes, codes, count, at), at + 1);
    }
    let what = program::form_of(op);
    let x = operand(size, rows, vars, nodes, codes, count, depth - 1, at + 1);
    match what {
        Form::Calc(op) => {
            let t = tag_only(x.judged);
            let y = operand(size, rows, vars, nodes, codes, count, depth - 1, x.next);
            gives(ty_arith(op, t, y.judged), y.next)
        }
        Form::Step => {
            let y = operand(size, rows, vars, nodes, codes, count, depth - 1, x.next);
            gives(ty_step(size, rows, x.judged, y.judged), y.next)
        }
        _ => {
            let a = program::argument(nodes, at);
            gives(one_operand(size, rows, what, a, x.judged), x.next)
        }
    }
}

// What the expression at a node is judged as, in the environment that the codes stand for, and the node after it.
pub fn judge_at(
    size: &[u32; 6],
    rows: &[u32; 17536],
    vars: &[u32; 96],
    nodes: &[u64; 4096],
    codes: &[u64; 96],
    count: usize,
    depth: usize,
    at: usize,
) -> Found
    ensures { result ≡ found_at (rows_from size.now rows.now) (vars_from size.now vars.now) (env_of codes.now count) nodes.now depth at }
{
    walk(size, rows, vars, nodes, codes, count, depth, at)
}
