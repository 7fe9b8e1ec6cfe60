// The tables of a program, read and written. Each function is for every argument: past a table is nothing, and a place past it writes nothing.
// Kept as it is: nodes stand in one table and name one another by their places, and what a thing is stands in it by number. The tables are of fixed length, and there is no heap.
#![tactic(auto)]

ghost use Rattle.std.specs.Prelude.{◌≡◌, List, [], ◌∷◌, ℕ, ◌+◌, ◌-◌, ◌*◌, ◌/◌, ◌%◌, ◌<◌, length, get_or, set, replicate};
ghost use Rattle.rules.specs.Program.{psi_of, prods_of, fields_of, field_of, kind_at, label_at, row_there, var_there, label_there, no_entry};
ghost use Rattle.rules.specs.Environments.{no_var, covers_env};
ghost use Rattle.rules.specs.Text.Layout.{cell, row_width, var_width, label_width, zeros};
ghost use Rattle.rules.specs.Text.Fill.{put_var, put_field, put_line, put_entry};
ghost use Rattle.rules.specs.View.{tab, psi_code, kind_code, entry_from, form_of, way_of, rows_from, vars_from, labels_from, body_from, program};
ghost use Rattle.program.specs.Lines.{stored_at, is_label_line, tables_of};
ghost use Rattle.program.specs.Labels.{Whole, env_from, codes_from};
ghost use Rattle.program.specs.Nodes.{arity, within, leaf_at};

use rules::{Boxed, Entry, Env, Form, Kind, Limits, Num, Offset, Op, Psi, Tables, Tag, Way};

// How many numbers each thing has in its table.
const ROW_WIDTH: usize = 274;

const VAR_WIDTH: usize = 3;

const LABEL_WIDTH: usize = 97;

const LINE_WIDTH: usize = 5;

// A body line as it stands: what its kind has no use for is 0.
#[derive(Clone, Copy)]
pub struct Stored {
    pub kind: u32,
    pub label: u32,
    pub variable: u32,
    pub word: u32,
    pub node: u32,
}

// ---- how many there are

#[tactic(auto, using(crate::proofs::Laws::row_count))]
pub fn row_count(size: &[u32; 6]) -> usize
    ensures { (R : List ℕ) → result ≡ length (rows_from size.now R) }
{
    table::up_to(Limits::ROWS, table::at(size, 1, 0))
}

#[tactic(auto, using(crate::proofs::Laws::var_count))]
pub fn var_count(size: &[u32; 6]) -> usize
    ensures { (D : List ℕ) → result ≡ length (vars_from size.now D) }
{
    table::up_to(Limits::VARIABLES, table::at(size, 2, 0))
}

#[tactic(auto, using(crate::proofs::Laws::label_count))]
pub fn label_count(size: &[u32; 6]) -> usize
    ensures { (L : List ℕ) → result ≡ length (labels_from size.now L) }
{
    table::up_to(Limits::LABELS, table::at(size, 3, 0))
}

#[tactic(auto, using(crate::proofs::Laws::line_count))]
pub fn line_count(size: &[u32; 6]) -> usize
    ensures { (N B : List ℕ) → result ≡ length (body_from size.now N B) }
{
    table::up_to(Limits::LINES, table::at(size, 4, 0))
}

pub fn row_there(size: &[u32; 6], r: usize) -> bool
    ensures { (R : List ℕ) → result ≡ row_there (rows_from size.now R) r }
{
    r < row_count(size)
}

pub fn var_there(size: &[u32; 6], v: usize) -> bool
    ensures { (D : List ℕ) → result ≡ var_there (vars_from size.now D) v }
{
    v < var_count(size)
}

// ---- rows

// Kept as it is: a code is a number of a table (`View.psi_code`, `kind_code`), and no conversion of the type, which other numbers could stand for.
#[tactic(auto, unfolding(rules::specs::View::psi_code))]
fn psi_code(c: u32) -> Psi
    ensures { result ≡ psi_code c }
{
    match c {
        0 => Psi::Upto(0),
        1 => Psi::Inf,
        _ => Psi::Upto(c - 2),
    }
}

#[tactic(auto, using(rules::proofs::Sound::Expr::psi_absent, crate::proofs::Laws::psi_in, table::proofs::Laws::above, table::proofs::Laws::below, crate::proofs::Laws::rows_small))]
pub fn psi_of(size: &[u32; 6], rows: &[u32; 17536], r: usize) -> Psi
    ensures { result ≡ psi_of (rows_from size.now rows.now) r }
{
    let n = row_count(size);
    if r < n {
        psi_code(table::cell(rows, ROW_WIDTH, r, 0, 0))
    } else {
        Psi::Upto(0)
    }
}

#[tactic(auto, using(crate::proofs::Laws::prods_in, crate::proofs::Laws::prods_out, table::proofs::Laws::above, table::proofs::Laws::below, crate::proofs::Laws::rows_small))]
pub fn prods_of(size: &[u32; 6], rows: &[u32; 17536], r: usize) -> usize
    ensures { result ≡ prods_of (rows_from size.now rows.now) r }
{
    let n = row_count(size);
    if r < n {
        table::up_to(Limits::PRODUCTS, table::cell(rows, ROW_WIDTH, r, 1, 0))
    } else {
        0
    }
}

#[tactic(auto, using(crate::proofs::Laws::fields_in, crate::proofs::Laws::fields_out, crate::proofs::Laws::prods_small, table::proofs::Laws::above, table::proofs::Laws::below, crate::proofs::Laws::prods_beyond))]
pub fn fields_of(size: &[u32; 6], rows: &[u32; 17536], r: usize, t: usize) -> usize
    ensures { result ≡ fields_of (rows_from size.now rows.now) r t }
{
    let n = prods_of(size, rows, r);
    if t < n {
        table::up_to(Limits::WIDTH, table::cell(rows, ROW_WIDTH, r, 2 + t, 0))
    } else {
        0
    }
}

#[tactic(auto, using(crate::proofs::Laws::field_in, crate::proofs::Laws::field_out, crate::proofs::Laws::field_small, table::proofs::Laws::above, table::proofs::Laws::below, crate::proofs::Laws::fields_beyond))]
pub fn field_of(size: &[u32; 6], rows: &[u32; 17536], r: usize, t: usize, o: usize) -> usize
    ensures { result ≡ field_of (rows_from size.now rows.now) r t o }
{
    let n = fields_of(size, rows, r, t);
    if o < n {
        table::cell(rows, ROW_WIDTH, r, 18 + t * 16 + o, 0) as usize
    } else {
        0
    }
}

// ---- variables

#[tactic(auto, unfolding(rules::specs::View::kind_code))]
fn kind_code(c: u32) -> Kind
    ensures { result ≡ kind_code c }
{
    if c < 2 {
        Kind::Cint
    } else {
        Kind::Value((c - 2) as usize)
    }
}

#[tactic(auto, using(crate::proofs::Laws::kind_in, crate::proofs::Laws::kind_out, table::proofs::Laws::above, table::proofs::Laws::below, crate::proofs::Laws::vars_small))]
pub fn kind_of(size: &[u32; 6], vars: &[u32; 96], v: usize) -> Kind
    ensures { result ≡ kind_at (vars_from size.now vars.now) v }
{
    let n = var_count(size);
    if v < n {
        kind_code(table::cell(vars, VAR_WIDTH, v, 0, 0))
    } else {
        Kind::Cint
    }
}

#[tactic(auto, using(crate::proofs::Laws::var_in, crate::proofs::Laws::var_out, table::proofs::Laws::above, table::proofs::Laws::below, crate::proofs::Laws::vars_small), unfolding(rules::specs::View::var_from))]
pub fn is_local(size: &[u32; 6], vars: &[u32; 96], v: usize) -> bool
    ensures { result ≡ (get_or (vars_from size.now vars.now) v no_var).is_local }
{
    let n = var_count(size);
    if v < n {
        table::cell(vars, VAR_WIDTH, v, 1, 0) == 2
    } else {
        false
    }
}

#[tactic(auto, using(crate::proofs::Laws::var_in, crate::proofs::Laws::var_out, table::proofs::Laws::above, table::proofs::Laws::below, crate::proofs::Laws::vars_small), unfolding(rules::specs::View::var_from))]
pub fn local_number(size: &[u32; 6], vars: &[u32; 96], v: usize) -> Num
    ensures { result ≡ (get_or (vars_from size.now vars.now) v no_var).number }
{
    let n = var_count(size);
    if v < n {
        number::number(table::cell(vars, VAR_WIDTH, v, 2, 0))
    } else {
        Num { n: 0 }
    }
}

pub fn ret_kind(size: &[u32; 6]) -> Kind
    ensures { result ≡ kind_code (get_or size.now 0 0) }
{
    kind_code(table::at(size, 0, 0))
}

// ---- labels

// What stands for variable v in label l's place, whether that label is there or not.
#[tactic(auto, unfolding(rules::specs::View::entry_from))]
fn entry_at(labels: &[u64; 6208], l: usize, v: usize) -> Entry
    requires { v < 32 }
    ensures { result ≡ entry_from labels.now l v }
{
    let b = table::cell(labels, LABEL_WIDTH, l, v * 3 + 1, 0);
    let i = table::cell(labels, LABEL_WIDTH, l, v * 3 + 2, 0);
    let g = table::cell(labels, LABEL_WIDTH, l, v * 3 + 3, 0);
    entry::entry_of(b, i, g)
}

fn no_entry() -> Entry
    ensures { result ≡ no_entry }
{
    Entry {
        boxed: Boxed::Either,
        offset: Offset::Unknown,
        tag: Tag::Unknown,
    }
}

#[tactic(auto, using(crate::proofs::Laws::label_line_in, crate::proofs::Laws::label_out, table::proofs::Laws::above, table::proofs::Laws::below, crate::proofs::Laws::labels_small))]
pub fn label_line(size: &[u32; 6], labels: &[u64; 6208], l: usize) -> usize
    ensures { result ≡ (label_at (labels_from size.now labels.now) l).line }
{
    let n = label_count(size);
    if l < n {
        let k = table::cell(labels, LABEL_WIDTH, l, 0, 0);
        if k == 0 { 0 } else { (k - 1) as usize }
    } else {
        0
    }
}

#[tactic(auto, using(crate::proofs::Laws::entry_in_lem, crate::proofs::Laws::entry_out, crate::proofs::Laws::entry_past, table::proofs::Laws::above, table::proofs::Laws::below))]
pub fn label_entry(size: &[u32; 6], labels: &[u64; 6208], l: usize, v: usize) -> Entry
    ensures { result ≡ get_or (label_at (labels_from size.now labels.now) l).entries v no_entry }
{
    let n = label_count(size);
    if l < n {
        if v < Limits::VARIABLES {
            entry_at(labels, l, v)
        } else {
            no_entry()
        }
    } else {
        no_entry()
    }
}

// 96 numbers side by side, all of them in the table or none: so the table's end is tested once and not for each of them.
#[tactic(auto, using(rules::proofs::Laws::Lists::tab_ext, crate::proofs::Places::numbers_all, crate::proofs::Places::entered_end, crate::proofs::Places::entered_step), unfolding(rules::specs::View::tab))]
fn side_by_side(t: &[u64], first: usize) -> [u64; 96]
    requires { Whole (length t.now) first }
    ensures { result ≡ tab 96 (λ k. get_or t.now (first + k) 0) }
{
    let mut codes = [0u64; 96];
    if t.len() <= first {
        return codes;
    }
    for (k, code) in codes.iter_mut().enumerate() {
        *code = t[first + k];
    }
    codes
}

// The numbers of label l's entries, as they stand after the kept line. Of a label that is absent, those in its place.
#[tactic(auto, using(rules::proofs::Laws::Lists::tab_ext, table::proofs::Laws::clamped), unfolding(crate::specs::Labels::codes_from))]
pub fn label_codes(labels: &[u64; 6208], l: usize) -> [u64; 96]
    ensures { result ≡ codes_from labels.now l }
{
    let line = l.min(Limits::LABELS) * LABEL_WIDTH;
    side_by_side(labels, line + 1)
}

// Whether label l's environment covers another, over as many variables as that one has. Past 32 both have the entry that covers itself.
// Of a label that is absent, the environment that stands in its place.
#[tactic(auto, using(crate::proofs::Covers::first_all, crate::proofs::Covers::first_more, crate::proofs::Covers::first_no, crate::proofs::Covers::first_past, rules::proofs::Laws::Lists::tab_in, rules::proofs::Laws::Lists::tab_length), unfolding(rules::specs::Environments::covers_first, rules::specs::Environments::covers_env, crate::specs::Labels::env_from, rules::specs::View::label_from))]
pub fn label_covers(labels: &[u64; 6208], l: usize, env: Env) -> bool
    ensures { (n : ℕ) → result ≡ covers_env (env_from labels.now l n) env }
{
    let n = env.count;
    for v in 0..n.min(32) {
        if !entry::covers_entry(entry_at(labels, l, v), env.entries[v]) {
            return false;
        }
    }
    true
}

// ---- nodes and body lines

pub fn operation(nodes: &[u64; 4096], k: usize) -> u32
    ensures { result ≡ get_or nodes.now k 0 / 4294967296 }
{
    (table::at(nodes, k, 0) / 4294967296) as u32
}

pub fn argument(nodes: &[u64; 4096], k: usize) -> u32
    ensures { result ≡ get_or nodes.now k 0 % 4294967296 }
{
    (table::at(nodes, k, 0) % 4294967296) as u32
}

// What a node of operation op is.
#[tactic(auto, using(crate::proofs::Walk::form_rest), unfolding(rules::specs::View::form_of))]
pub fn form_of(op: u32) -> Form
    ensures { result ≡ form_of op }
{
    match op {
        1 => Form::Lit,
        2 => Form::Var,
        3 => Form::Fetch,
        4 => Form::Int,
        5 => Form::Val,
        6 => Form::Step,
        7 => Form::Calc(Op::Add),
        8 => Form::Calc(Op::Sub),
        9 => Form::Calc(Op::Mul),
        10 => Form::Calc(Op::Eq),
        11 => Form::Calc(Op::Lt),
        _ => Form::Absent,
    }
}

// What a body line of so a kind is.
#[tactic(auto, using(crate::proofs::Walk::way_rest), unfolding(rules::specs::View::way_of))]
pub fn way_of(kind: u32) -> Way
    ensures { result ≡ way_of kind }
{
    match kind {
        1 => Way::Set,
        2 => Way::Put,
        3 => Way::Goto,
        4 => Way::If,
        5 => Way::IfImm,
        6 => Way::IfTag,
        7 => Way::IfInt,
        8 => Way::Return,
        9 => Way::Label,
        _ => Way::Absent,
    }
}

// How many operands a node of operation op has: as many expressions come after it.
#[tactic(auto, using(crate::proofs::Walk::form_rest), unfolding(rules::specs::View::form_of))]
pub fn operands(op: u32) -> usize
    ensures { result ≡ arity (form_of op) }
{
    match form_of(op) {
        Form::Absent | Form::Lit | Form::Var => 0,
        Form::Fetch | Form::Int | Form::Val => 1,
        Form::Step | Form::Calc(_) => 2,
    }
}

// Whether a node can stand at place k, where so much depth is left.
pub fn is_within(depth: usize, k: usize) -> bool
    ensures { result ≡ within depth k }
{
    0 < depth && k < Limits::NODES
}

// Whether a number or a variable stands at node k, where so much depth is left. A walk answers these in place, without a call that goes deeper.
#[tactic(auto, using(crate::proofs::Walk::not_deep, crate::proofs::Walk::not_past, crate::proofs::Walk::leaf_number, crate::proofs::Walk::leaf_variable, crate::proofs::Walk::leaf_none))]
pub fn is_leaf(nodes: &[u64; 4096], depth: usize, k: usize) -> bool
    ensures { result ≡ leaf_at nodes.now depth k }
{
    if depth == 0 {
        return false;
    }
    if Limits::NODES <= k {
        return false;
    }
    // Kept as it is: `leaf_at` tells the two leaves by their numbers, which are read off the node without a call.
    matches!(operation(nodes, k), 1 | 2)
}

#[tactic(auto, using(crate::proofs::Places::line_out, table::proofs::Laws::clamped), unfolding(crate::specs::Lines::stored_at))]
pub fn line_at(body: &[u32; 2560], i: usize) -> Stored
    ensures { result ≡ stored_at body.now i }
{
    Stored {
        kind: table::cell(body, LINE_WIDTH, i, 0, 0),
        label: table::cell(body, LINE_WIDTH, i, 1, 0),
        variable: table::cell(body, LINE_WIDTH, i, 2, 0),
        word: table::cell(body, LINE_WIDTH, i, 3, 0),
        node: table::cell(body, LINE_WIDTH, i, 4, 0),
    }
}

// Whether a line is that of label l.
#[tactic(auto, unfolding(crate::specs::Lines::is_label_line))]
fn is_label(line: Stored, l: usize) -> bool
    ensures { result ≡ is_label_line line l }
{
    let kind = line.kind;
    let label = line.label;
    if kind == 9 {
        label as usize == l
    } else {
        false
    }
}

// Whether label l is there, and the line that is kept for it is its own.
#[tactic(auto, using(crate::proofs::LabelLines::there_in, crate::proofs::LabelLines::there_out, crate::proofs::LabelLines::there_past, table::proofs::Laws::above, table::proofs::Laws::below))]
pub fn label_there(size: &[u32; 6], labels: &[u64; 6208], body: &[u32; 2560], l: usize) -> bool
    ensures { (N R D : List ℕ) → result ≡ label_there (program (tables_of size.now N R D labels.now body.now)) l }
{
    let n = label_count(size);
    if l < n {
        let i = label_line(size, labels, l);
        let m = line_count(size);
        if i < m {
            is_label(line_at(body, i), l)
        } else {
            false
        }
    } else {
        false
    }
}

// ---- writing

pub fn put_node(nodes: &mut [u64; 4096], k: usize, op: u32, a: u32)
    ensures { nodes.new ≡ set nodes.old k (op * 4294967296 + a) }
{
    table::put(nodes, k, u64::from(op) * 4294967296 + u64::from(a));
}

pub fn put_psi(rows: &mut [u32; 17536], r: usize, code: u32)
    ensures { rows.new ≡ set rows.old (r * row_width) code }
{
    table::put_cell(rows, ROW_WIDTH, r, 0, code);
}

// The product k and the field o are bytes, so that their counts fit the table whatever they are.
#[tactic(auto, using(crate::proofs::Places::fields_past, table::proofs::Laws::clamped), unfolding(rules::specs::Text::Fill::put_field))]
pub fn put_field(rows: &mut [u32; 17536], r: usize, k: u8, o: u8, q: u32)
    ensures { rows.new ≡ put_field rows.old r k o q }
{
    let t = k as usize;
    table::put_cell(rows, ROW_WIDTH, r, 18 + t * 16 + o as usize, q);
    table::put_cell(rows, ROW_WIDTH, r, 2 + t, u32::from(o) + 1);
    table::put_cell(rows, ROW_WIDTH, r, 1, u32::from(k) + 1);
}

pub fn put_var(vars: &mut [u32; 96], v: usize, kind: u32, how: u32, word: u32)
    ensures { vars.new ≡ put_var vars.old v kind how word }
{
    table::put_cell(vars, VAR_WIDTH, v, 0, kind);
    table::put_cell(vars, VAR_WIDTH, v, 1, how);
    table::put_cell(vars, VAR_WIDTH, v, 2, word);
}

pub fn put_label_line(labels: &mut [u64; 6208], l: usize, line: u64)
    ensures { labels.new ≡ set labels.old (l * label_width) line }
{
    table::put_cell(labels, LABEL_WIDTH, l, 0, line);
}

// Past the label's own variables this writes as the definition does, further on in the table.
pub fn put_entry(labels: &mut [u64; 6208], l: usize, v: usize, b: u64, i: u64, g: u64)
    ensures { labels.new ≡ put_entry labels.old l v b i g }
{
    let k = v.min(6208) * 3;
    table::put_cell(labels, LABEL_WIDTH, l, k + 1, b);
    table::put_cell(labels, LABEL_WIDTH, l, k + 2, i);
    table::put_cell(labels, LABEL_WIDTH, l, k + 3, g);
}

#[tactic(auto, using(crate::proofs::Places::body_past, table::proofs::Laws::clamped), unfolding(rules::specs::Text::Fill::put_line))]
pub fn put_line(body: &mut [u32; 2560], i: usize, kind: u32, l: u32, v: u32, w: u32, k: u32)
    ensures { body.new ≡ put_line body.old i kind l v w k }
{
    table::put_cell(body, LINE_WIDTH, i, 0, kind);
    table::put_cell(body, LINE_WIDTH, i, 1, l);
    table::put_cell(body, LINE_WIDTH, i, 2, v);
    table::put_cell(body, LINE_WIDTH, i, 3, w);
    table::put_cell(body, LINE_WIDTH, i, 4, k);
}

// Kind code of `ret`, rows, variables, labels, body lines, nodes.
pub fn put_sizes(
    size: &mut [u32; 6],
    ret: u32,
    rows: u32,
    vars: u32,
    labels: u32,
    lines: u32,
    nodes: u32,
)
    ensures { size.new ≡ ret ∷ rows ∷ vars ∷ labels ∷ lines ∷ nodes ∷ [] }
{
    *size = [ret, rows, vars, labels, lines, nodes];
}

// ---- clearing

// All tables of a program.
pub fn clear(t: &mut Tables)
    ensures { t.new ≡ zeros }
{
    t.size = [0; 6];
    t.nodes = [0; 4096];
    t.rows = [0; 17536];
    t.vars = [0; 96];
    t.labels = [0; 6208];
    t.body = [0; 2560];
}
