// A machine that is lent, and its steps: `step` takes the lent machine apart, has its parts moved, and puts it together again.
#![tactic(auto)]

ghost use Rattle.std.specs.Prelude.{◌≡◌};
ghost use Rattle.moves.specs.Moves.{parts, Moves};
ghost use Rattle.machine.specs.Steps.{Steps, Runs};

use moves::Moved;
use rules::Stepped;

// The store's cells and the variables, lent; the line at hand, the steps done, and the value returned (0: none yet).
#[derive(Drop)]
pub struct Machine<'a> {
    pub cells: &'a mut [u64; 4352],
    pub vals: &'a mut [u64; 32],
    pub at: usize,
    pub steps: u32,
    pub value: u64,
}

// The machine is lent, and a step alters it where it stands.
// Kept as it is: a public function's signature, with its lifetimes by name.
pub fn step<'s, 'a, 'z, 'n, 'l, 'b, 'o, 'h>(
    m: &'s mut Machine<'a>,
    size: &'z [u32; 6],
    nodes: &'n [u64; 4096],
    labels: &'l [u64; 6208],
    body: &'b [u32; 2560],
    store: &'o [u32; 2],
    heads: &'h [u32; 768],
) -> Stepped
    ensures { Steps size.now nodes.now labels.now body.now store.now heads.now m.old result m.new }
{
    let moved = moves::move_at(
        size, nodes, labels, body, store, heads, m.cells, m.vals, m.at, m.steps, m.value,
    );
    m.at = moved.at;
    m.steps = moved.steps;
    m.value = moved.value;
    moved.out
}

// Steps until one does not move. That it ends is the budget's doing: each step that moves counts one.
pub fn run(
    size: &[u32; 6],
    nodes: &[u64; 4096],
    labels: &[u64; 6208],
    body: &[u32; 2560],
    store: &[u32; 2],
    heads: &[u32; 768],
    cells: &mut [u64; 4352],
    vals: &mut [u64; 32],
    at: usize,
    steps: u32,
    value: u64,
) -> Moved
    ensures { Runs size.now nodes.now labels.now body.now (parts store.now heads.now cells.old vals.old at steps value) result cells.new vals.new }
{
    let mut m = Machine {
        cells,
        vals,
        at,
        steps,
        value,
    };
    let mut out = Stepped::Moved;
    while let Stepped::Moved = out {
        out = step(&mut m, size, nodes, labels, body, store, heads);
    }
    Moved {
        out,
        at: m.at,
        steps: m.steps,
        value: m.value,
    }
}
