// A body line with expressions, read once: its shape and its limits are tested while its nodes are written.
// If any test fails, the line is refused, and whether by its shape (2) or by a limit (3) is for the caller to find out.
#![tactic(auto)]

ghost use Rattle.std.specs.Prelude.{◌≡◌};
ghost use Rattle.rules.specs.Text.Fill as fills;
ghost use Rattle.once.specs.Once.{operands_once, expr_once, once, last_once, set_once, if_once, rest_once, put_once, line_once};

use program::{put_line, put_node};
use rules::{Filling, Key, Limits};
use shape::key_of;
use text::{arity, byte_at, head_at, number_at, plain_at, var_at};

// ---- expressions: each node before its operands. A node without operands, and the last operand, end without a further call

#[cycle(expression_operands)]
#[tactic(auto, using(crate::proofs::Exprs::by_head, crate::proofs::Exprs::no_head), unfolding(crate::specs::Once::expr_once, crate::specs::Once::operands_once))]
fn expression(s: &[u8], depth: usize, at: usize, free: usize, nodes: &mut [u64; 4096]) -> Filling
    ensures { fills.out result nodes.new ≡ expr_once s.now depth at free nodes.old }
{
    if depth == 0 {
        return None;
    }
    let (op, a, n) = head_at(s, at).ok()?;
    if Limits::NODES <= free {
        return None;
    }
    put_node(nodes, free, op, a);
    let after = free + 1;
    let m = arity(op);
    if m == 0 {
        return Some((n, after));
    }
    operands(s, depth - 1, m, n, after, nodes)
}

// n operands, each after a space.
#[cycle(expression_operands)]
#[tactic(auto, using(crate::proofs::Exprs::an_operand), unfolding(crate::specs::Once::operands_once))]
fn operands(
    s: &[u8],
    depth: usize,
    n: usize,
    at: usize,
    free: usize,
    nodes: &mut [u64; 4096],
) -> Filling
    ensures { fills.out result nodes.new ≡ operands_once s.now (expr_once s.now depth) n at free nodes.old }
{
    if n == 0 {
        return Some((at, free));
    }
    if byte_at(s, at) != 32 {
        return None;
    }
    let (next, f) = expression(s, depth, at + 1, free, nodes)?;
    if n == 1 {
        return Some((next, f));
    }
    operands(s, depth, n - 1, next, f, nodes)
}

// ---- lines. The line's first node is `node`; a line feed stands after its last expression

// The last expression stands at `at`.
#[tactic(auto, unfolding(crate::specs::Once::last_once))]
fn last_once(
    s: &[u8],
    line: usize,
    node: u32,
    kind: u32,
    l: u32,
    v: u32,
    w: u32,
    at: usize,
    free: usize,
    nodes: &mut [u64; 4096],
    body: &mut [u32; 2560],
) -> Filling
    ensures { once result nodes.new body.new ≡ last_once s.now line node kind l v w body.old (expr_once s.now 16 at free nodes.old) }
{
    let (n, f) = expression(s, Limits::DEPTH, at, free, nodes)?;
    if byte_at(s, n) != 10 {
        return None;
    }
    put_line(body, line, kind, l, v, w, node);
    Some((n, f))
}

// `set=V E`
#[tactic(auto, unfolding(crate::specs::Once::set_once, crate::specs::Once::after_mark))]
fn set_once(
    s: &[u8],
    line: usize,
    node: u32,
    at: usize,
    nodes: &mut [u64; 4096],
    body: &mut [u32; 2560],
) -> Filling
    ensures { once result nodes.new body.new ≡ set_once s.now line node at nodes.old body.old }
{
    let (v, n) = var_at(s, at).ok()?;
    if byte_at(s, n) != 32 {
        return None;
    }
    last_once(
        s,
        line,
        node,
        1,
        0,
        v as u32,
        0,
        n + 1,
        node as usize,
        nodes,
        body,
    )
}

// `if=L E`
// Kept as it is: like `set_once` but for what reads the first word and for where its number goes; one function over both would take these as two more parameters.
#[tactic(auto, unfolding(crate::specs::Once::if_once, crate::specs::Once::after_mark))]
fn if_once(
    s: &[u8],
    line: usize,
    node: u32,
    at: usize,
    nodes: &mut [u64; 4096],
    body: &mut [u32; 2560],
) -> Filling
    ensures { once result nodes.new body.new ≡ if_once s.now line node at nodes.old body.old }
{
    let (l, n) = plain_at(s, at).ok()?;
    if byte_at(s, n) != 32 {
        return None;
    }
    last_once(
        s,
        line,
        node,
        4,
        l as u32,
        0,
        0,
        n + 1,
        node as usize,
        nodes,
        body,
    )
}

// N, which stands at n, and the second E of `put=E N E`.
#[tactic(auto, unfolding(crate::specs::Once::rest_once, crate::specs::Once::after_mark))]
fn put_rest(
    s: &[u8],
    line: usize,
    node: u32,
    n: usize,
    free: usize,
    nodes: &mut [u64; 4096],
    body: &mut [u32; 2560],
) -> Filling
    ensures { once result nodes.new body.new ≡ rest_once s.now line node n free nodes.old body.old }
{
    let (w, m) = number_at(s, n).ok()?;
    if byte_at(s, m) != 32 {
        return None;
    }
    last_once(s, line, node, 2, 0, 0, w as u32, m + 1, free, nodes, body)
}

// `put=E N E`
#[tactic(auto, unfolding(crate::specs::Once::put_once, crate::specs::Once::two_once))]
fn put_once(
    s: &[u8],
    line: usize,
    node: u32,
    at: usize,
    nodes: &mut [u64; 4096],
    body: &mut [u32; 2560],
) -> Filling
    ensures { once result nodes.new body.new ≡ put_once s.now line node at nodes.old body.old }
{
    let (n, f) = expression(s, Limits::DEPTH, at, node as usize, nodes)?;
    if byte_at(s, n) != 32 {
        return None;
    }
    put_rest(s, line, node, n + 1, f, nodes, body)
}

// A line from the place after the key of number k on: the place of its line feed, and the next free node.
#[tactic(auto, unfolding(crate::specs::Once::line_once, crate::specs::Once::key_once))]
pub fn line_once(
    s: &[u8],
    k: u64,
    at: usize,
    line: usize,
    free: usize,
    nodes: &mut [u64; 4096],
    body: &mut [u32; 2560],
) -> Filling
    ensures { once result nodes.new body.new ≡ line_once s.now k at line free nodes.old body.old }
{
    if Limits::LINES <= line || Limits::NODES <= free {
        return None;
    }
    let node = free as u32;
    match key_of(k) {
        Key::Set => set_once(s, line, node, at, nodes, body),
        Key::Put => put_once(s, line, node, at, nodes, body),
        Key::If => if_once(s, line, node, at, nodes, body),
        Key::Return => last_once(s, line, node, 8, 0, 0, 0, at, free, nodes, body),
        _ => None,
    }
}
