// A glue text read into the tables of a program: each line's shape first, then its limits, with its numbers written on the way.
// A line with expressions is read at once, and looked at for its shape alone only if that fails; so is a label, and looked at only if it passes a limit.
#![tactic(auto)]

ghost use Rattle.std.specs.Prelude.{◌≡◌, true, false, ◌&&◌, ℕ, ◌+◌, ◌≤◌, ◌<◌, ltb, eqb, length, max};
ghost use Rattle.rules.specs.When.{when};
ghost use Rattle.rules.specs.Limits.{limits};
ghost use Rattle.rules.specs.Text as texts;
ghost use Rattle.rules.specs.Text.Words as words;
ghost use Rattle.rules.specs.Text.Shape as shapes;
ghost use Rattle.rules.specs.Text.Layout as layout;
ghost use Rattle.rules.specs.Text.Fill as fills;
ghost use Rattle.rules.specs.declared.Key.TheVariants as keys;
ghost use Rattle.program.specs.Lines.{tables_of};
ghost use Rattle.once.specs.Once.{has_expr};
ghost use Rattle.reader.specs.Labels.{entered, tag_once, offset_once, entry_once, entries_once};
ghost use Rattle.reader.specs.Read.{Placed, Near, Worded, Within, Ready, is_plain, Late, given, kept, row_given, row_kept, handed, settled, Closed, read_over, Holds};

use once::line_once;
use program::{clear, put_entry, put_field, put_label_line, put_line, put_psi, put_sizes, put_var};
use rules::{Answer, Count, Key, Limits, Next, Reading, Tables};
use shape::{
    between, boxed_at, in_order, key_at, key_of, kind_word, line_shape, offset_at, part_of, psi_at,
    tag_at,
};
use text::{byte_at, next_of, number_at, plain_at, value_of, var_at};

// As many fields as a row may have, and the one after these, which is refused.
const FIELD_TURNS: usize = Limits::PRODUCTS * Limits::WIDTH + 1;

// One `ret=`, so many rows, variables and body lines can be right, and the line after these is refused.
const LINE_TURNS: usize = 1 + Limits::ROWS + Limits::VARIABLES + Limits::LINES + 1;

// A value that was read, and the place after the byte that follows it.
#[derive(Drop)]
struct Word {
    value: u32,
    past: usize,
}

// ---- words

// What was read at the place `at`.
fn word_of(s: &[u8], at: usize, r: Reading) -> Word
    requires near { Near s.now at }
    requires small { words.value_of r < 4294967296 }
    requires ends { words.next_of r ≤ max at (length s.now) }
    ensures { Worded s.now at (words.value_of r) (words.next_of r) result.value result.past }
{
    Word {
        value: value_of(r) as u32,
        past: next_of(r) + 1,
    }
}

// A kind: its code.
#[tactic(auto, using(crate::proofs::Laws::kind_bad, crate::proofs::Laws::kind_int, crate::proofs::Laws::plain_small, crate::proofs::Laws::plain_ends))]
fn kind_code(s: &[u8], at: usize) -> Word
    requires { Placed s.now at }
    ensures { Worded s.now at (fills.kind_value s.now (shapes.kind_word s.now at)) (fills.kind_next s.now (shapes.kind_word s.now at)) result.value result.past }
{
    match kind_word(s, at) {
        Err(p) => Word {
            value: 0,
            past: p + 1,
        },
        Ok((0, n)) => Word {
            value: 1,
            past: n + 1,
        },
        Ok((_, n)) => {
            let w = word_of(s, n, plain_at(s, n));
            Word {
                value: w.value + 2,
                past: w.past,
            }
        }
    }
}

// ---- lines before the body

#[tactic(auto, using(rules::specs::Text::Fill::filled), unfolding(rules::specs::Text::Fill::fill_ret))]
fn fill_ret(s: &[u8], at: usize, c: Count) -> Count
    requires { Placed s.now at }
    ensures { (t : Tables) → fills.filled true result t ≡ fills.fill_ret s.now at c t }
{
    let k = kind_code(s, at);
    Count { ret: k.value, ..c }
}

fn add_var(c: Count, kind: u32, how: u32, number: u32, vars: &mut [u32; 96]) -> Option<Count>
    ensures { (t : Tables) → given result (layout.with_vars t vars.new) ≡ kept (fills.add_var c (layout.with_vars t vars.old) kind how number) }
{
    if Limits::VARIABLES <= c.vars {
        return None;
    }
    put_var(vars, c.vars, kind, how, number);
    Some(Count {
        vars: c.vars + 1,
        ..c
    })
}

#[tactic(auto, unfolding(rules::specs::Text::Fill::fill_param))]
fn fill_param(s: &[u8], at: usize, c: Count, vars: &mut [u32; 96]) -> Option<Count>
    requires { Placed s.now at }
    ensures { (t : Tables) → given result (layout.with_vars t vars.new) ≡ kept (fills.fill_param s.now at c (layout.with_vars t vars.old)) }
{
    let k = kind_code(s, at);
    add_var(c, k.value, 1, 0, vars)
}

#[tactic(auto, using(crate::proofs::Laws::number_small, crate::proofs::Laws::number_ends), unfolding(rules::specs::Text::Fill::fill_local))]
fn fill_local(s: &[u8], at: usize, c: Count, vars: &mut [u32; 96]) -> Option<Count>
    requires { Placed s.now at }
    ensures { (t : Tables) → given result (layout.with_vars t vars.new) ≡ kept (fills.fill_local s.now at c (layout.with_vars t vars.old)) }
{
    let k = kind_code(s, at);
    let n = word_of(s, k.past, number_at(s, k.past));
    add_var(c, k.value, 2, n.value, vars)
}

// Whether field o of product k may come where the text has so many fields.
fn fits(k: u8, o: u8, total: usize) -> bool
    ensures { result ≡ (ltb k limits.products && (ltb o limits.width && ltb total limits.fields)) }
{
    usize::from(k) < Limits::PRODUCTS && usize::from(o) < Limits::WIDTH && total < Limits::FIELDS
}

// The product and the field after the byte between two field rows: a comma, or a bar.
fn next_product(b: u64, k: u8) -> u8
    requires { k < limits.products }
    ensures { result ≡ when (eqb b 44) (λ _. k) (λ _. k + 1) }
{
    if b == 44 { k } else { k + 1 }
}

fn next_field(b: u64, o: u8) -> u8
    requires { o < limits.width }
    ensures { result ≡ when (eqb b 44) (λ _. o + 1) (λ _. 0) }
{
    if b == 44 { o + 1 } else { 0 }
}

// One turn a field row.
fn fill_fields(
    s: &[u8],
    r: usize,
    total: usize,
    from: usize,
    rows: &mut [u32; 17536],
) -> Option<usize>
    ensures { row_given result rows.new ≡ row_kept (fills.fill_fields s.now r 257 total rows.old 0 0 from) }
{
    let mut sum = total;
    let mut k: u8 = 0;
    let mut o: u8 = 0;
    let mut at = from;
    for _ in 0..FIELD_TURNS {
        if !fits(k, o, sum) {
            return None;
        }
        let q = plain_at(s, at);
        put_field(rows, r, k, o, value_of(q) as u32);
        sum += 1;
        let n = next_of(q);
        let b = byte_at(s, n);
        if !between(b) {
            return Some(sum);
        }
        k = next_product(b, k);
        o = next_field(b, o);
        at = n + 1;
    }
    None
}

#[tactic(auto, using(crate::proofs::Ways::no_products, crate::proofs::Ways::some_products))]
fn fill_products(
    s: &[u8],
    r: usize,
    total: usize,
    at: usize,
    rows: &mut [u32; 17536],
) -> Option<usize>
    ensures { row_given result rows.new ≡ row_kept (fills.fill_products s.now r total rows.old at) }
{
    if byte_at(s, at) == 10 {
        return Some(total);
    }
    fill_fields(s, r, total, at, rows)
}

#[tactic(auto, using(crate::proofs::Ways::type_full, crate::proofs::Ways::type_room, crate::proofs::Laws::psi_small, crate::proofs::Laws::psi_ends, rules::specs::Text::Fill::fields, rules::specs::Text::Fill::filled))]
fn fill_type(s: &[u8], at: usize, c: Count, rows: &mut [u32; 17536]) -> Option<Count>
    requires { Placed s.now at }
    ensures { (t : Tables) → given result (layout.with_rows t rows.new) ≡ kept (fills.fill_type s.now at c (layout.with_rows t rows.old)) }
{
    if Limits::ROWS <= c.rows {
        return None;
    }
    let p = word_of(s, at, psi_at(s, at));
    put_psi(rows, c.rows, p.value);
    let fields = fill_products(s, c.rows, c.fields, p.past, rows)?;
    Some(Count {
        rows: c.rows + 1,
        fields,
        ..c
    })
}

// ---- lines of the body

// A line without an expression, if there is room for it.
#[tactic(auto, using(crate::proofs::Ways::no_room, crate::proofs::Ways::in_room), unfolding(rules::specs::Text::Fill::plain_line))]
fn plain_line(c: Count, kind: u32, l: u32, v: u32, w: u32, body: &mut [u32; 2560]) -> Option<Count>
    ensures { (t : Tables) → given result (layout.with_body t body.new) ≡ kept (fills.one_more c (layout.with_body t body.old) (fills.plain_line c (layout.with_body t body.old) kind l v w)) }
{
    if Limits::LINES <= c.lines {
        return None;
    }
    put_line(body, c.lines, kind, l, v, w, 0);
    Some(Count {
        lines: c.lines + 1,
        ..c
    })
}

#[tactic(auto, using(crate::proofs::Laws::plain_small, crate::proofs::Laws::plain_ends), unfolding(rules::specs::Text::Fill::fill_goto))]
fn fill_goto(s: &[u8], at: usize, c: Count, body: &mut [u32; 2560]) -> Option<Count>
    requires { Placed s.now at }
    ensures { (t : Tables) → given result (layout.with_body t body.new) ≡ kept (fills.one_more c (layout.with_body t body.old) (fills.fill_goto s.now at c (layout.with_body t body.old))) }
{
    let l = word_of(s, at, plain_at(s, at));
    plain_line(c, 3, l.value, 0, 0, body)
}

#[tactic(auto, using(crate::proofs::Laws::plain_small, crate::proofs::Laws::plain_ends, crate::proofs::Laws::var_small, crate::proofs::Laws::var_ends), unfolding(rules::specs::Text::Fill::fill_ifimm))]
fn fill_ifimm(s: &[u8], at: usize, c: Count, body: &mut [u32; 2560]) -> Option<Count>
    requires { Placed s.now at }
    ensures { (t : Tables) → given result (layout.with_body t body.new) ≡ kept (fills.one_more c (layout.with_body t body.old) (fills.fill_ifimm s.now at c (layout.with_body t body.old))) }
{
    let l = word_of(s, at, plain_at(s, at));
    let v = word_of(s, l.past, var_at(s, l.past));
    plain_line(c, 5, l.value, v.value, 0, body)
}

// `iftag=`, `ifint=`
#[tactic(auto, using(crate::proofs::Laws::plain_small, crate::proofs::Laws::plain_ends, crate::proofs::Laws::var_small, crate::proofs::Laws::var_ends, crate::proofs::Laws::number_small, crate::proofs::Laws::number_ends), unfolding(rules::specs::Text::Fill::fill_test))]
fn fill_test(kind: u32, s: &[u8], at: usize, c: Count, body: &mut [u32; 2560]) -> Option<Count>
    requires { Placed s.now at }
    ensures { (t : Tables) → given result (layout.with_body t body.new) ≡ kept (fills.one_more c (layout.with_body t body.old) (fills.fill_test kind s.now at c (layout.with_body t body.old))) }
{
    let l = word_of(s, at, plain_at(s, at));
    let v = word_of(s, l.past, var_at(s, l.past));
    let w = word_of(s, v.past, number_at(s, v.past));
    plain_line(c, kind, l.value, v.value, w.value, body)
}

// ---- a line by its key

// A line without expressions, and no label.
#[tactic(auto, unfolding(rules::specs::Text::Fill::fill_line))]
fn fill_line(s: &[u8], key: Key, at: usize, c: Count, t: &mut Tables) -> Option<Count>
    requires { Placed s.now at × (is_plain key ≡ true) }
    ensures { given result t.new ≡ kept (fills.fill_line s.now key at c t.old) }
{
    match key {
        Key::Ret => Some(fill_ret(s, at, c)),
        Key::Type => fill_type(s, at, c, &mut t.rows),
        Key::Param => fill_param(s, at, c, &mut t.vars),
        Key::Local => fill_local(s, at, c, &mut t.vars),
        Key::Goto => fill_goto(s, at, c, &mut t.body),
        Key::IfImm => fill_ifimm(s, at, c, &mut t.body),
        Key::IfTag => fill_test(6, s, at, c, &mut t.body),
        Key::IfInt => fill_test(7, s, at, c, &mut t.body),
        _ => None,
    }
}

// ---- a line, whole

// A line without expressions, and no label, whose shape is right up to n.
fn shaped_line(
    s: &[u8],
    k: u64,
    at: usize,
    n: usize,
    c: Count,
    t: &mut Tables,
) -> Result<(usize, Count), u32>
    requires { Ready s.now at c × (is_plain (shapes.key_of k) ≡ true) }
    ensures { settled (handed result t.new) ≡ settled (texts.shaped s.now k at c t.old (Ok n)) }
{
    if byte_at(s, n) != 10 {
        return Err(2);
    }
    let Some(d) = fill_line(s, key_of(k), at, c, t) else {
        return Err(3);
    };
    Ok((
        n + 1,
        Count {
            part: part_of(k),
            ..d
        },
    ))
}

// The number of a line that could not be read at once: its shape is wrong (2), or it passes a limit (3).
fn late(s: &[u8], k: u64, at: usize, c: Count) -> u32
    ensures { (t u : Tables) → Late s.now k at c t → settled (handed (Err result) u) ≡ settled (texts.shaped s.now k at c t (shapes.line_shape s.now c.vars (shapes.key_of k) at)) }
{
    let Ok(n) = line_shape(s, c.vars, k, at) else {
        return 2;
    };
    if byte_at(s, n) == 10 { 3 } else { 2 }
}

// A line with expressions.
fn expr_line(s: &[u8], k: u64, at: usize, c: Count, t: &mut Tables) -> Result<(usize, Count), u32>
    requires { Within c × (has_expr (shapes.key_of k) ≡ true) }
    ensures { settled (handed result t.new) ≡ settled (texts.shaped s.now k at c t.old (shapes.line_shape s.now c.vars (shapes.key_of k) at)) }
{
    let Some((n, f)) = line_once(s, k, at, c.lines, c.nodes, &mut t.nodes, &mut t.body) else {
        return Err(late(s, k, at, c));
    };
    Ok((
        n + 1,
        Count {
            part: part_of(k),
            lines: c.lines + 1,
            nodes: f,
            ..c
        },
    ))
}

// ---- labels: an entry is written as soon as it is read, and a line feed stands after the last one

// T
#[tactic(auto, using(crate::specs::Labels::entered), unfolding(crate::specs::Labels::tag_once))]
fn tag_once(
    s: &[u8],
    l: usize,
    v: usize,
    b: u64,
    i: u64,
    at: usize,
    labels: &mut [u64; 6208],
) -> Next
    ensures { entered result labels.new ≡ tag_once s.now l v b i at labels.old }
{
    let (t, n) = tag_at(s, at)?;
    put_entry(labels, l, v, b, i, t);
    Ok(n)
}

// I,T
#[tactic(auto, using(once::proofs::Mark::word_bad, once::proofs::Mark::no_mark), unfolding(crate::specs::Labels::offset_once))]
fn offset_once(s: &[u8], l: usize, v: usize, b: u64, at: usize, labels: &mut [u64; 6208]) -> Next
    ensures { entered result labels.new ≡ offset_once s.now l v b at labels.old }
{
    let (i, n) = offset_at(s, at)?;
    if byte_at(s, n) != 44 {
        return Err(n);
    }
    tag_once(s, l, v, b, i, n + 1, labels)
}

// B,I,T
#[tactic(auto, using(once::proofs::Mark::word_bad, once::proofs::Mark::no_mark), unfolding(crate::specs::Labels::entry_once))]
fn entry_once(s: &[u8], l: usize, v: usize, at: usize, labels: &mut [u64; 6208]) -> Next
    ensures { entered result labels.new ≡ entry_once s.now l v at labels.old }
{
    let (b, n) = boxed_at(s, at)?;
    if byte_at(s, n) != 44 {
        return Err(n);
    }
    offset_once(s, l, v, b, n + 1, labels)
}

// One turn an entry of label l.
#[tactic(auto, using(crate::proofs::Labels::entry_bad, crate::proofs::Labels::entry_last, crate::proofs::Labels::entry_not, crate::proofs::Labels::entry_on, crate::proofs::Labels::no_entries, text::proofs::Laws::inside))]
fn entries_once(s: &[u8], l: usize, vars: usize, from: usize, labels: &mut [u64; 6208]) -> Next
    requires { vars ≤ limits.variables }
    ensures { entered result labels.new ≡ entries_once s.now l vars 0 from labels.old }
{
    let mut at = from;
    for v in 0..vars {
        let n = entry_once(s, l, v, at, labels)?;
        if v + 1 == vars {
            return Ok(n);
        }
        if byte_at(s, n) != 32 {
            return Err(n);
        }
        at = n + 1;
    }
    Ok(at)
}

// A label. Its limits are known before its entries are read, and it is looked at for its shape alone only if it passes one.
#[tactic(auto, using(crate::proofs::Labels::labels_full, crate::proofs::Labels::lines_full))]
fn label_line(s: &[u8], k: u64, at: usize, c: Count, t: &mut Tables) -> Result<(usize, Count), u32>
    requires { Within c × (shapes.key_of k ≡ keys.Label) }
    ensures { settled (handed result t.new) ≡ settled (texts.shaped s.now k at c t.old (shapes.line_shape s.now c.vars (shapes.key_of k) at)) }
{
    if Limits::LINES <= c.lines || Limits::LABELS <= c.labels {
        return Err(late(s, k, at, c));
    }
    put_label_line(&mut t.labels, c.labels, c.lines as u64 + 1);
    let Ok(n) = entries_once(s, c.labels, c.vars, at, &mut t.labels) else {
        return Err(2);
    };
    if byte_at(s, n) != 10 {
        return Err(2);
    }
    put_line(&mut t.body, c.lines, 9, c.labels as u32, 0, 0, 0);
    Ok((
        n + 1,
        Count {
            part: part_of(k),
            labels: c.labels + 1,
            lines: c.lines + 1,
            ..c
        },
    ))
}

// A line from the place after its key on.
fn keyed_line(s: &[u8], k: u64, at: usize, c: Count, t: &mut Tables) -> Result<(usize, Count), u32>
    requires { Ready s.now at c }
    ensures { (start : ℕ) → settled (handed result t.new) ≡ settled (texts.keyed s.now start c t.old (Ok (k, at))) }
{
    if !in_order(c.part, k) {
        return Err(2);
    }
    match key_of(k) {
        Key::Set | Key::Put | Key::If | Key::Return => expr_line(s, k, at, c, t),
        Key::Label => label_line(s, k, at, c, t),
        _ => {
            let Ok(n) = line_shape(s, c.vars, k, at) else {
                return Err(2);
            };
            shaped_line(s, k, at, n, c, t)
        }
    }
}

#[tactic(auto, unfolding(rules::specs::Text::line_at))]
fn line_at(s: &[u8], at: usize, c: Count, t: &mut Tables) -> Result<(usize, Count), u32>
    requires { Ready s.now at c }
    ensures { settled (handed result t.new) ≡ settled (texts.line_at s.now at c t.old) }
{
    let Ok((k, n)) = key_at(s, at) else {
        return Err(2);
    };
    keyed_line(s, k, n, c, t)
}

// ---- the text, whole

// After the last line the sizes are written, unless there was no line.
fn ended(c: Count, size: &mut [u32; 6]) -> Result<(), Answer>
    requires { Within c }
    ensures { (t : Tables) → Closed result (tables_of size.new t.nodes t.rows t.vars t.labels t.body) (texts.ended c t) }
{
    if c.part == 0 {
        return Err(Answer { number: 2, line: 1 });
    }
    put_sizes(
        size,
        c.ret,
        c.rows as u32,
        c.vars as u32,
        c.labels as u32,
        c.lines as u32,
        c.nodes as u32,
    );
    Ok(())
}

// One turn a line.
fn lines(s: &[u8], t: &mut Tables) -> Result<(), Answer>
    requires { length s.now ≤ limits.bytes }
    ensures { Closed result t.new (texts.lines_from s.now (texts.most_lines + 1) 1 0 layout.nothing t.old) }
{
    let mut at = 0;
    let mut c = nothing();
    for line in 1..LINE_TURNS + 1 {
        if s.len() <= at {
            return ended(c, &mut t.size);
        }
        // Kept as it is: tried `map_err` with `?`, the proof did not close, at returns-in_err-next: a closure that captures `line` states what it gave in no form that an answer can name.
        match line_at(s, at, c, t) {
            Ok((next, d)) => {
                at = next;
                c = d;
            }
            Err(number) => return Err(Answer { number, line }),
        }
    }
    Err(Answer {
        number: 3,
        line: LINE_TURNS + 1,
    })
}

fn nothing() -> Count
    ensures { result ≡ layout.nothing }
{
    Count {
        part: 0,
        ret: 0,
        rows: 0,
        fields: 0,
        vars: 0,
        labels: 0,
        lines: 0,
        nodes: 0,
    }
}

// The program is written over what the tables held, or the text is refused with an answer 1 to 3; then they are all 0.
#[tactic(auto, using(crate::proofs::Laws::holds, crate::proofs::Laws::refused_zeros, crate::proofs::Laws::right_left, crate::proofs::Ways::closed_refused, crate::proofs::Ways::not_long, crate::proofs::Ways::too_long))]
pub fn read(s: &[u8], t: &mut Tables) -> Result<(), Answer>
    ensures { Holds (read_over s.now t.old) result t.new }
{
    if Limits::BYTES < s.len() {
        clear(t);
        return Err(Answer { number: 1, line: 0 });
    }
    let a = lines(s, t);
    if a.is_err() {
        clear(t);
    }
    a
}
