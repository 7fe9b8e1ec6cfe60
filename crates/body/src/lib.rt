// The rules of body lines over a program's tables: a function for each statement, and the line by its kind.
#![tactic(auto)]

ghost use Rattle.std.specs.Prelude.{◌≡◌, true, ◌&&◌, Ok, List, ℕ, ltb, length, get_or};
ghost use Rattle.rules.specs.Numbers.{among};
ghost use Rattle.rules.specs.Answers.{outcome};
ghost use Rattle.rules.specs.Program.{prods_of, same_kind};
ghost use Rattle.rules.specs.View.{rows_from, vars_from, labels_from, kind_code, tree_at, stmt_from, program};
ghost use Rattle.rules.specs.Typing.{ty_var};
ghost use Rattle.rules.specs.Environments.{no_var, with_entry, with_tag, local_entry, start_at, start_env, covers};
ghost use Rattle.rules.specs.Body.{goes, jump, rule_set, rule_put, rule_goto, rule_if, rule_ifimm, rule_iftag, rule_ifint, rule_return, reached, local_line, is_end, ends};
ghost use Rattle.program.specs.Labels.{env_from};
ghost use Rattle.program.specs.Nodes.{after_of};
ghost use Rattle.program.specs.Lines.{tables_of};
ghost use Rattle.rules.specs.declared.Env.{Env};
ghost use Rattle.coded.specs.Coded.{env_of};
ghost use Rattle.typing.specs.Walk.{Told, found_at};
ghost use Rattle.body.specs.Lines.{HasOne, judged_at, line_by, Does, number_out, label_line, line_at, locals_in, lines_in, types_in};

use rules::{Answer, Boxed, Entry, Env, Judged, Kind, Limits, Num, Offset, Tables, Tag, Way};
use typing::Found;

// ---- what a line gives, and the tests of lines

// What a line leaves: the next line is not reached; or it is, and the environment stays, variable v takes an entry, or label l's own environment holds.
// A line says so little, and not its environment, since an environment is long and each function that hands one on copies it.
#[derive(Drop)]
enum Then {
    Ends,
    Stays,
    Takes(usize, Entry),
    Label(usize),
}

// What a line does, or an answer's number.
type Deed = Result<Then, u32>;

fn same_kind(k: Kind, l: Kind) -> bool
    ensures { result ≡ same_kind k l }
{
    k == l
}

// Whether row r has a product with tag n.
#[tactic(auto, using(number::specs::Places::index_at, number::specs::Places::index_out))]
fn has_tag(size: &[u32; 6], rows: &[u32; 17536], r: usize, n: Num) -> bool
    ensures { result ≡ among n.n (prods_of (rows_from size.now rows.now) r) }
{
    number::index_in(n, program::prods_of(size, rows, r)).is_some()
}

// Whether label l is there and covers an environment.
fn lands(size: &[u32; 6], labels: &[u64; 6208], l: usize, env: Env) -> bool
    ensures { result ≡ (ltb l (length (labels_from size.now labels.now)) && covers (labels_from size.now labels.now) l env) }
{
    l < program::label_count(size) && program::label_covers(labels, l, env)
}

// A jump with the environment `there`; where none is made, `on`.
fn jump_to(size: &[u32; 6], labels: &[u64; 6208], l: usize, there: Env, on: Then) -> Deed
    ensures line { (L : List ℕ) (m : ℕ) (Γ : Env) → line_by L m Γ result ≡ jump (labels_from size.now labels.now) l there Γ (line_by L m Γ (Ok on)) }
    ensures told { Told result }
{
    if lands(size, labels, l, there) {
        Ok(on)
    } else {
        Err(11)
    }
}

// The judgement of the expression at node k, in the environment that the codes stand for, and the node after it.
fn found(t: &Tables, codes: &[u64; 96], count: usize, k: usize) -> Found
    ensures { result ≡ found_at (rows_from t.now.size t.now.rows) (vars_from t.now.size t.now.vars) (env_of codes.now count) t.now.nodes 16 k }
{
    typing::judge_at(
        &t.size,
        &t.rows,
        &t.vars,
        &t.nodes,
        codes,
        count,
        Limits::DEPTH,
        k,
    )
}

// What the expression at node k is judged as.
#[tactic(auto, using(typing::proofs::Laws::told_found, typing::proofs::Laws::tree_of_lem))]
fn judged(t: &Tables, codes: &[u64; 96], count: usize, k: usize) -> Judged
    ensures judgement { result ≡ judged_at t.now (env_of codes.now count) k }
    ensures told { Told result }
{
    found(t, codes, count, k).judged
}

// ---- the statements

#[tactic(auto, unfolding(rules::specs::Body::rule_set))]
fn rule_set(size: &[u32; 6], vars: &[u32; 96], v: usize, x: Judged) -> Deed
    requires { Told x }
    ensures line { (Γ : Env) → Does Γ result (rule_set (vars_from size.now vars.now) v x Γ) }
    ensures told { Told result }
{
    let (k, e) = x?;
    if !same_kind(k, program::kind_of(size, vars, v)) {
        return Err(6);
    }
    Ok(Then::Takes(v, e))
}

#[tactic(auto, using(typing::proofs::Laws::told_address), unfolding(rules::specs::Body::rule_put))]
fn put_judged(size: &[u32; 6], rows: &[u32; 17536], n: Num, x: Judged, y: Judged) -> Deed
    requires { Told x × Told y }
    ensures line { (Γ : Env) → Does Γ result (rule_put (rows_from size.now rows.now) n x y Γ) }
    ensures told { Told result }
{
    let (k, e) = x?;
    let (l, d) = y?;
    let Kind::Value(r) = k else {
        return Err(6);
    };
    let (t, o) = typing::address_of(size, rows, r, e, Tag::Known(n))?;
    if !same_kind(l, Kind::Value(program::field_of(size, rows, r, t, o))) {
        return Err(6);
    }
    if !entry::zero_offset(d.offset) {
        return Err(10);
    }
    Ok(Then::Stays)
}

// A and E of a `put`: E begins at the node after A.
#[tactic(auto, using(typing::proofs::Laws::told_found, typing::proofs::Laws::after_of_lem, typing::proofs::Laws::tree_of_lem))]
fn rule_put(t: &Tables, codes: &[u64; 96], count: usize, n: Num, k: usize) -> Deed
    ensures line { (Γ : Env) → Does Γ result (rule_put (rows_from t.now.size t.now.rows) n (judged_at t.now (env_of codes.now count) k) (judged_at t.now (env_of codes.now count) (after_of (tree_at t.now.nodes 16 k))) Γ) }
    ensures told { Told result }
{
    let f = found(t, codes, count, k);
    let y = judged(t, codes, count, f.next);
    put_judged(&t.size, &t.rows, n, f.judged, y)
}

#[tactic(auto, unfolding(rules::specs::Body::rule_goto))]
fn rule_goto(size: &[u32; 6], labels: &[u64; 6208], env: Env, l: usize) -> Deed
    ensures line { Does env result (rule_goto (labels_from size.now labels.now) l env) }
    ensures told { Told result }
{
    jump_to(size, labels, l, env, Then::Ends)
}

#[tactic(auto, unfolding(rules::specs::Body::rule_if))]
fn rule_if(size: &[u32; 6], labels: &[u64; 6208], env: Env, l: usize, x: Judged) -> Deed
    requires { Told x }
    ensures line { Does env result (rule_if (labels_from size.now labels.now) l x env) }
    ensures told { Told result }
{
    let (Kind::Cint, _) = x? else {
        return Err(6);
    };
    jump_to(size, labels, l, env, Then::Stays)
}

// Jumping, the variable is `imm`; falling, it is `box`.
#[tactic(auto, using(typing::proofs::Laws::told_var), unfolding(rules::specs::Body::rule_ifimm))]
fn rule_ifimm(t: &Tables, env: Env, l: usize, v: usize) -> Deed
    ensures line { Does env result (rule_ifimm (labels_from t.now.size t.now.labels) l v (ty_var (vars_from t.now.size t.now.vars) env v) env) }
    ensures told { Told result }
{
    let (Kind::Value(_), e) = typing::var_judged(&t.size, &t.vars, env, v)? else {
        return Err(6);
    };
    if !entry::zero_offset(e.offset) {
        return Err(10);
    }
    let there = entry::with_entry(env, v, entry::with_boxed(e, Boxed::Imm));
    let here = Then::Takes(v, entry::with_boxed(e, Boxed::Block));
    jump_to(&t.size, &t.labels, l, there, here)
}

// Jumping, the variable's tag is n; falling, it is what it was.
fn tag_jump(
    size: &[u32; 6],
    labels: &[u64; 6208],
    env: Env,
    l: usize,
    v: usize,
    n: Num,
    e: Entry,
) -> Deed
    ensures line { Does env result (jump (labels_from size.now labels.now) l (with_entry env v (with_tag e n)) env (goes true env)) }
    ensures told { Told result }
{
    let known = entry::with_tag(e, n);
    let there = entry::with_entry(env, v, known);
    jump_to(size, labels, l, there, Then::Stays)
}

#[tactic(auto, using(typing::proofs::Laws::told_var), unfolding(rules::specs::Body::rule_iftag))]
fn rule_iftag(t: &Tables, env: Env, l: usize, v: usize, n: Num) -> Deed
    ensures line { Does env result (rule_iftag (rows_from t.now.size t.now.rows) (labels_from t.now.size t.now.labels) l v n (ty_var (vars_from t.now.size t.now.vars) env v) env) }
    ensures told { Told result }
{
    let (Kind::Value(r), e) = typing::var_judged(&t.size, &t.vars, env, v)? else {
        return Err(6);
    };
    if !entry::zero_offset(e.offset) {
        return Err(10);
    }
    if !matches!(e.boxed, Boxed::Block) {
        return Err(7);
    }
    if !has_tag(&t.size, &t.rows, r, n) {
        return Err(8);
    }
    tag_jump(&t.size, &t.labels, env, l, v, n, e)
}

#[tactic(auto, using(typing::proofs::Laws::told_var), unfolding(rules::specs::Body::rule_ifint))]
fn rule_ifint(t: &Tables, env: Env, l: usize, v: usize, n: Num) -> Deed
    ensures line { Does env result (rule_ifint (rows_from t.now.size t.now.rows) (labels_from t.now.size t.now.labels) l v n (ty_var (vars_from t.now.size t.now.vars) env v) env) }
    ensures told { Told result }
{
    let (Kind::Value(r), e) = typing::var_judged(&t.size, &t.vars, env, v)? else {
        return Err(6);
    };
    if !entry::zero_offset(e.offset) {
        return Err(10);
    }
    if !matches!(e.boxed, Boxed::Imm) {
        return Err(7);
    }
    if !number::suits(program::psi_of(&t.size, &t.rows, r), n) {
        return Err(9);
    }
    tag_jump(&t.size, &t.labels, env, l, v, n, e)
}

#[tactic(auto, unfolding(rules::specs::Body::rule_return))]
fn rule_return(size: &[u32; 6], x: Judged) -> Deed
    requires { Told x }
    ensures line { (Γ : Env) → Does Γ result (rule_return (kind_code (get_or size.now 0 0)) x Γ) }
    ensures told { Told result }
{
    let (k, e) = x?;
    if !same_kind(k, program::ret_kind(size)) {
        return Err(6);
    }
    if !entry::zero_offset(e.offset) {
        return Err(10);
    }
    Ok(Then::Ends)
}

// What falls in is covered by the label's own environment, which holds from there on.
#[tactic(auto, unfolding(crate::specs::Lines::label_line))]
fn rule_label(size: &[u32; 6], labels: &[u64; 6208], live: bool, env: Env, l: usize) -> Deed
    ensures line { (D : List ℕ) → line_by labels.now (length (vars_from size.now D)) env result ≡ label_line (env_from labels.now l (length (vars_from size.now D))) live env }
    ensures told { Told result }
{
    if live && !program::label_covers(labels, l, env) {
        return Err(11);
    }
    Ok(Then::Label(l))
}

// ---- the lines

// A line after `goto` or `return` that is no label is 12.
fn gated(live: bool, x: Deed) -> Deed
    requires { Told x }
    ensures line { (L : List ℕ) (m : ℕ) (Γ : Env) → line_by L m Γ result ≡ reached live Γ (line_by L m Γ x) }
    ensures told { Told result }
{
    if live { x } else { Err(12) }
}

// What the one expression of `set`, `if` and `return` is judged as. It is judged in one place for all three.
fn own_judged(t: &Tables, codes: &[u64; 96], count: usize, way: Way, k: usize) -> Judged
    ensures judgement { HasOne way → result ≡ judged_at t.now (env_of codes.now count) k }
    ensures told { Told result }
{
    match way {
        Way::Set | Way::If | Way::Return => judged(t, codes, count, k),
        _ => Err(4),
    }
}

// What body line i does, which is reached or not. The codes stand for the environment.
#[tactic(auto, using(crate::proofs::Laws::goto_line, crate::proofs::Laws::if_line, crate::proofs::Laws::ifimm_line, crate::proofs::Laws::ifint_line, crate::proofs::Laws::iftag_line, crate::proofs::Laws::label_line_lem, crate::proofs::Laws::no_line, crate::proofs::Laws::put_line_lem, crate::proofs::Laws::return_line, crate::proofs::Laws::set_line))]
fn deed_of(t: &Tables, codes: &[u64; 96], on: bool, env: Env, i: usize) -> Deed
    requires { env ≡ env_of codes.now env.count }
    ensures line { line_by t.now.labels (length (vars_from t.now.size t.now.vars)) env result ≡ line_at t.now on env i }
    ensures told { Told result }
{
    let s = program::line_at(&t.body, i);
    let way = program::way_of(s.kind);
    let l = s.label as usize;
    let v = s.variable as usize;
    let n = number::number(s.word);
    let k = s.node as usize;
    let count = env.count;
    let x = own_judged(t, codes, count, way, k);
    match way {
        Way::Set => gated(on, rule_set(&t.size, &t.vars, v, x)),
        Way::Put => gated(on, rule_put(t, codes, count, n, k)),
        Way::Goto => gated(on, rule_goto(&t.size, &t.labels, env, l)),
        Way::If => gated(on, rule_if(&t.size, &t.labels, env, l, x)),
        Way::IfImm => gated(on, rule_ifimm(t, env, l, v)),
        Way::IfTag => gated(on, rule_iftag(t, env, l, v, n)),
        Way::IfInt => gated(on, rule_ifint(t, env, l, v, n)),
        Way::Return => gated(on, rule_return(&t.size, x)),
        Way::Label => rule_label(&t.size, &t.labels, on, env, l),
        Way::Absent => Err(4),
    }
}

// ---- the lines, in order

// The number for the line of variable v: of a value local N suits (9).
#[tactic(auto, unfolding(rules::specs::Body::local_line, rules::specs::Program::kind_at))]
fn local_line(t: &Tables, v: usize) -> Result<(), u32>
    ensures { result ≡ number_out (local_line (rows_from t.now.size t.now.rows) (get_or (vars_from t.now.size t.now.vars) v no_var)) }
{
    if !program::is_local(&t.size, &t.vars, v) {
        return Ok(());
    }
    let Kind::Value(r) = program::kind_of(&t.size, &t.vars, v) else {
        return Ok(());
    };
    if !number::suits(
        program::psi_of(&t.size, &t.rows, r),
        program::local_number(&t.size, &t.vars, v),
    ) {
        return Err(9);
    }
    Ok(())
}

// The lines of the variables. They stand after `ret` and the rows.
#[tactic(auto, using(table::proofs::Passes::lines_done, table::proofs::Passes::lines_on, table::proofs::Passes::lines_no, crate::proofs::Laws::locals_start, program::proofs::Laws::rows_small, program::proofs::Laws::vars_small), unfolding(crate::specs::Lines::locals_in))]
fn locals_typed(t: &Tables) -> Result<(), Answer>
    ensures { result ≡ outcome (locals_in t.now) }
{
    let from = 2 + program::row_count(&t.size);
    for v in 0..program::var_count(&t.size) {
        let line = from + v;
        local_line(t, v).map_err(|number| Answer { number, line })?;
    }
    Ok(())
}

fn local_entry(k: Kind, n: Num) -> Entry
    ensures { result ≡ local_entry k n }
{
    match k {
        Kind::Cint => entry::int_entry(Tag::Known(n)),
        Kind::Value(_) => entry::imm_entry(Tag::Known(n)),
    }
}

// How variable v starts; past the variables nothing is known.
#[tactic(auto, unfolding(rules::specs::Environments::start_at, rules::specs::Program::kind_at))]
fn start_entry(size: &[u32; 6], vars: &[u32; 96], v: usize) -> Entry
    ensures { result ≡ start_at (vars_from size.now vars.now) v }
{
    if !program::var_there(size, v) {
        return Entry {
            boxed: Boxed::Either,
            offset: Offset::Unknown,
            tag: Tag::Unknown,
        };
    }
    if !program::is_local(size, vars, v) {
        return Entry::LOOSEST;
    }
    local_entry(
        program::kind_of(size, vars, v),
        program::local_number(size, vars, v),
    )
}

// The numbers of the environment in which the body starts.
fn start_codes(size: &[u32; 6], vars: &[u32; 96]) -> [u64; 96]
    ensures { env_of result (length (vars_from size.now vars.now)) ≡ start_env (vars_from size.now vars.now) }
{
    let mut codes = [0u64; 96];
    for v in 0..32 {
        coded::put_entry(&mut codes, v, start_entry(size, vars, v));
    }
    codes
}

// The lines of the body, each in the environment that the line before it leaves. Its numbers are kept beside it, for the expressions.
#[tactic(auto, using(crate::proofs::Laws::ahead_on, crate::proofs::Laws::own_count, crate::proofs::Laws::takes_in, crate::proofs::Laws::takes_past, coded::proofs::Laws::env_label), unfolding(rules::specs::Environments::with_entry))]
fn lines_typed(t: &Tables) -> Result<(), Answer>
    ensures { result ≡ outcome (lines_in t.now) }
{
    let count = program::var_count(&t.size);
    let from = 2 + program::row_count(&t.size) + count;
    let mut live = true;
    let mut codes = start_codes(&t.size, &t.vars);
    let mut env = coded::env_of(&codes, count);
    for i in 0..program::line_count(&t.size) {
        let line = from + i;
        let x = deed_of(t, &codes, live, env, i);
        let then = x.map_err(|number| Answer { number, line })?;
        live = !matches!(then, Then::Ends);
        match then {
            Then::Ends | Then::Stays => {}
            Then::Takes(v, e) => {
                coded::put_entry(&mut codes, v, e);
                if v < 32 {
                    env.entries[v] = e;
                }
            }
            Then::Label(l) => {
                codes = program::label_codes(&t.labels, l);
                env = coded::env_of(&codes, count);
            }
        }
    }
    Ok(())
}

// 6 to 12, line by line.
#[tactic(auto, using(crate::proofs::Laws::types_parts))]
pub fn typed(t: &Tables) -> Result<(), Answer>
    ensures { result ≡ outcome (types_in t.now) }
{
    locals_typed(t)?;
    lines_typed(t)
}

// ---- the last line

// Whether body line i is `goto` or `return`.
#[tactic(auto, using(crate::proofs::Laws::end_line))]
fn is_end(body: &[u32; 2560], i: usize) -> bool
    ensures { (N : List ℕ) → result ≡ is_end (stmt_from N body.now i) }
{
    matches!(
        program::way_of(program::line_at(body, i).kind),
        Way::Goto | Way::Return
    )
}

// 13: the last line of the file is neither `goto` nor `return`.
#[tactic(auto, using(crate::proofs::Laws::last_is, crate::proofs::Laws::no_last), unfolding(rules::specs::Body::ends, rules::specs::View::program))]
pub fn ended(size: &[u32; 6], body: &[u32; 2560]) -> Result<(), Answer>
    ensures { (R D L N : List ℕ) → result ≡ outcome (ends (program (tables_of size.now N R D L body.now))) }
{
    let n = program::line_count(size);
    let last = 1 + program::row_count(size) + program::var_count(size) + n;
    if 0 < n && is_end(body, n - 1) {
        return Ok(());
    }
    Err(Answer {
        number: 13,
        line: last,
    })
}
