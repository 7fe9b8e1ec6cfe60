// A step of a machine in parts. What a line does is decided over tables, and then done: only here are the two tables altered that a step can alter.
#![tactic(auto)]

ghost use Rattle.std.specs.Prelude.{◌≡◌, List, ℕ, ◌+◌, ◌<◌};
ghost use Rattle.rules.specs.declared.Stepped.TheVariants as S;
ghost use Rattle.moves.specs.Moves.{parts, Moves, Ready, Applies};

use rules::{Act, Stepped};

// What a step or a run says, with the machine's numbers after it.
#[derive(Drop)]
pub struct Moved {
    pub out: Stepped,
    pub at: usize,
    pub steps: u32,
    pub value: u64,
}

// The machine's numbers as they are.
fn still(out: Stepped, at: usize, steps: u32, value: u64) -> Moved
    ensures { result ≡ record { out = out; at = at; steps = steps; value = value } }
{
    Moved {
        out,
        at,
        steps,
        value,
    }
}

// Every step that is taken counts one.
fn moved_to(at: usize, steps: u32, value: u64) -> Moved
    requires { steps + 1 < 4294967296 }
    ensures { result ≡ record { out = S.Moved; at = at; steps = steps + 1; value = value } }
{
    Moved {
        out: Stepped::Moved,
        at,
        steps: steps + 1,
        value,
    }
}

// What a line decides is done here, and nowhere else are the cells or the variables altered.
#[tactic(auto, using(entry::proofs::Again::written), unfolding(rules::specs::Machine::Tables::apply_t))]
fn apply(
    act: Act,
    cells: &mut [u64; 4352],
    vals: &mut [u64; 32],
    at: usize,
    steps: u32,
    value: u64,
) -> Moved
    requires { (steps + 1 < 4294967296) × Ready act at }
    ensures { (S H : List ℕ) → Applies act (parts S H cells.old vals.old at steps value) result cells.new vals.new }
{
    match act {
        Act::Stuck => still(Stepped::Stuck, at, steps, value),
        Act::Fall => moved_to(at + 1, steps, value),
        Act::Jump(i) => moved_to(i, steps, value),
        Act::SetVar(v, d) => {
            storage::put_val(vals, v, entry::code_of(d));
            moved_to(at + 1, steps, value)
        }
        Act::SetCell(b, o, d) => {
            storage::put_cell(cells, b, o, entry::code_of(d));
            moved_to(at + 1, steps, value)
        }
        Act::Give(d) => moved_to(at, steps, entry::code_of(d)),
    }
}

// A machine whose budget is used up, or that has returned, stays as it is; any other does what its line decides.
#[tactic(auto, unfolding(rules::specs::Machine::Tables::step_within, rules::specs::Machine::Tables::step_t, rules::specs::Machine::Tables::says_within, rules::specs::Machine::says, rules::specs::Machine::Tables::machine))]
pub fn move_at(
    size: &[u32; 6],
    nodes: &[u64; 4096],
    labels: &[u64; 6208],
    body: &[u32; 2560],
    store: &[u32; 2],
    heads: &[u32; 768],
    cells: &mut [u64; 4352],
    vals: &mut [u64; 32],
    at: usize,
    steps: u32,
    value: u64,
) -> Moved
    ensures { Moves size.now nodes.now labels.now body.now (parts store.now heads.now cells.old vals.old at steps value) result cells.new vals.new }
{
    if storage::budget(store) <= steps {
        return still(Stepped::Spent, at, steps, value);
    }
    if entry::datum_of(value).is_some() {
        return still(Stepped::Returned, at, steps, value);
    }
    let act = act::decide_at(size, nodes, labels, body, store, heads, cells, vals, at);
    apply(act, cells, vals, at, steps, value)
}
