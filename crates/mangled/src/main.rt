// Machines whose tables were mangled: whatever numbers stand in them, a run is answered.
// With an empty standard input the tables of one program and its store are mangled: each part of the machine by turns is filled with all ones, with 2^31
// and with zero. The stored output is worked out by hand from the written rules.
// With `SEED COUNT` as standard input, COUNT machines are mangled by a generator and run, and their answers are counted.
#![tactic(auto)]

use moves::Moved;
use rules::{Stepped, StoreTables, Tables};

// The standard input and output, as the system numbers them.
const STDIN_FILENO: i32 = 0;

const STDOUT_FILENO: i32 = 1;

// A block is told by its tag, and its two cells are added.
const SUM_GLUE: [u8; 153] =
    *b"ret=int\ntype=inf:\ntype=0:0|0,0\nparam=value 1\nifimm=0 v0\niftag=1 v0 1\nlabel=any,0,any\nreturn=-1\nlabel=box,0,1\nreturn=add int fetch v0 int fetch step v0 1\n";

const SUM_STORE: [u8; 33] = *b"run=10\nblock=1 1 i300 i20\narg=b0\n";

// A loop, with a line of each kind and every operator.
const LOOP_GLUE: [u8; 479] =
    *b"ret=int\ntype=inf:\ntype=0:0|0,0\ntype=0:1,0\nparam=value 2\nparam=value 1\nparam=int\nlocal=int 3\nlocal=value 0 1\nlabel=any,0,any any,0,any any,0,any any,0,any any,0,any\nif=1 lt v3 1\nifimm=1 v1\niftag=1 v1 0\nset=v3 sub v3 1\nset=v4 val 0 add v2 mul v3 v3\nput=v0 1 v4\nifint=0 v4 6\nif=0 eq int fetch step v0 1 3\ngoto=0\nlabel=any,0,any any,0,any any,0,any any,0,any any,0,any\nset=v4 fetch step v0 1\nifimm=2 v4\nreturn=-1\nlabel=any,0,any any,0,any any,0,any any,0,any imm,0,any\nreturn=int v4\n";

const LOOP_STORE: [u8; 63] =
    *b"run=40\nblock=1 1 i300 i20\nblock=2 0 b0 i5\narg=b1\narg=b0\narg=c2\n";

// A part of a machine: a table, or a number that a run takes.
#[derive(Clone, Copy, PartialEq, Eq)]
enum Part {
    Size,
    Nodes,
    Labels,
    Body,
    Store,
    Heads,
    Cells,
    Vals,
    At,
    Value,
    All,
}

impl Part {
    fn takes_in(self, part: Part) -> bool {
        self == Part::All || self == part
    }
}

// The tables that a glue text and a store text give.
#[derive(Clone, Copy)]
struct Start {
    program: Tables,
    store: StoreTables,
}

impl Start {
    fn zero() -> Start {
        Start {
            program: Tables {
                size: [0; 6],
                nodes: [0; 4096],
                rows: [0; 17536],
                vars: [0; 96],
                labels: [0; 6208],
                body: [0; 2560],
            },
            store: StoreTables {
                size: [0; 2],
                heads: [0; 768],
                cells: [0; 4352],
                vals: [0; 32],
            },
        }
    }

    // What is refused leaves tables that are zero, and the run goes on over these.
    fn read(&mut self, glue: &[u8], blocks: &[u8]) {
        checker::check(glue, &mut self.program);
        let _answer = store::read(
            blocks,
            &self.program.size,
            &self.program.rows,
            &self.program.vars,
            &mut self.store,
        );
    }
}

// What a run is lent. It reads no rows and no declarations: a machine of its own has none, so that two fit into 512 KiB of stack.
#[derive(Drop)]
struct Lent<'a> {
    size: &'a mut [u32; 6],
    nodes: &'a mut [u64; 4096],
    labels: &'a mut [u64; 6208],
    body: &'a mut [u32; 2560],
    store: &'a mut [u32; 2],
    heads: &'a mut [u32; 768],
    cells: &'a mut [u64; 4352],
    vals: &'a mut [u64; 32],
}

impl<'a> Lent<'a> {
    // One number everywhere in one table, or in all.
    fn fill(&mut self, part: Part, x: u64) {
        if part.takes_in(Part::Size) {
            *self.size = [low_half(x); 6];
        }
        if part.takes_in(Part::Nodes) {
            *self.nodes = [x; 4096];
        }
        if part.takes_in(Part::Labels) {
            *self.labels = [x; 6208];
        }
        if part.takes_in(Part::Body) {
            *self.body = [low_half(x); 2560];
        }
        if part.takes_in(Part::Store) {
            *self.store = [low_half(x); 2];
        }
        if part.takes_in(Part::Heads) {
            *self.heads = [low_half(x); 768];
        }
        if part.takes_in(Part::Cells) {
            *self.cells = [x; 4352];
        }
        if part.takes_in(Part::Vals) {
            *self.vals = [x; 32];
        }
    }

    // The generator's number is handed from table to table. The budget is kept below 64, so that each run ends soon.
    fn mangle(&mut self, all: bool, x: u64) -> u64 {
        let x = mangle(self.size, all, x);
        let x = mangle(self.nodes, all, x);
        let x = mangle(self.labels, all, x);
        let x = mangle(self.body, all, x);
        let x = mangle(self.store, all, x);
        let x = mangle(self.heads, all, x);
        let x = mangle(self.cells, all, x);
        let x = mangle(self.vals, all, x);
        self.store[0] = (x % 64) as u32;
        next(x)
    }

    fn run(&mut self, at: usize, steps: u32, value: u64) -> Moved {
        machine::run(
            self.size,
            self.nodes,
            self.labels,
            self.body,
            self.store,
            self.heads,
            self.cells,
            self.vals,
            at,
            steps,
            value,
        )
    }
}

fn said(out: Stepped) -> &'static [u8] {
    match out {
        Stepped::Moved => b" moved ",
        Stepped::Stuck => b" stuck ",
        Stepped::Returned => b" returned ",
        Stepped::Spent => b" spent ",
    }
}

fn low_half(x: u64) -> u32 {
    (x % 4294967296) as u32
}

// ---- one part filled with one number

// The run of a machine of which one part is filled with x: what it says, and its steps.
fn line(pattern: &[u8], x: u64, name: &[u8], part: Part) {
    io::write_all(STDOUT_FILENO, pattern);
    io::write_all(STDOUT_FILENO, name);
    let mut start = Start::zero();
    start.read(&SUM_GLUE, &SUM_STORE);
    let mut t = Lent {
        size: &mut start.program.size,
        nodes: &mut start.program.nodes,
        labels: &mut start.program.labels,
        body: &mut start.program.body,
        store: &mut start.store.size,
        heads: &mut start.store.heads,
        cells: &mut start.store.cells,
        vals: &mut start.store.vals,
    };
    t.fill(part, x);
    let at = if part == Part::At { x as usize } else { 0 };
    let value = if part == Part::Value { x } else { 0 };
    let m = t.run(at, 0, value);
    io::write_all(STDOUT_FILENO, said(m.out));
    io::print_decimal(STDOUT_FILENO, u64::from(m.steps));
    io::write_all(STDOUT_FILENO, b"\n");
}

// Each part by turns.
fn each_filled(pattern: &[u8], x: u64) {
    line(pattern, x, b"size", Part::Size);
    line(pattern, x, b"nodes", Part::Nodes);
    line(pattern, x, b"labels", Part::Labels);
    line(pattern, x, b"body", Part::Body);
    line(pattern, x, b"store", Part::Store);
    line(pattern, x, b"heads", Part::Heads);
    line(pattern, x, b"cells", Part::Cells);
    line(pattern, x, b"vals", Part::Vals);
    line(pattern, x, b"at", Part::At);
    line(pattern, x, b"value", Part::Value);
    line(pattern, x, b"all", Part::All);
}

// ---- the generator

// The generator's number after x, which is not 0 (xorshift).
fn next(x: u64) -> u64 {
    let a = x ^ (x << 13);
    let b = a ^ (a >> 7);
    b ^ (b << 17)
}

fn halves(high: u64, low: u64) -> u64 {
    (high << 32) ^ low
}

// Below 16, or at an edge of 31 or 32 bits.
fn half(x: u64) -> u64 {
    match x % 8 {
        0 => 2147483648,
        1 => 4294967295,
        _ => x / 8 % 16,
    }
}

// A number of one flavour: any; below 16; both halves below 16; both halves below 16 or at an edge.
fn number(flavour: u64, x: u64) -> u64 {
    match flavour {
        0 => x,
        1 => x % 16,
        2 => halves(x / 16 % 16, x % 16),
        _ => halves(half(x), half(x / 128)),
    }
}

// Of a fifth flavour are the tables in which each number has a flavour of its own: two bits of x that the narrow flavours do not show.
fn number_in_table(flavour: u64, x: u64) -> u64 {
    if flavour == 4 {
        number(x / 16777216 % 4, x)
    } else {
        number(flavour, x)
    }
}

// A place: most are at the front of a table, where the texts put their numbers; some lie past its end.
fn place(x: u64) -> usize {
    match x % 4 {
        0 => (x / 4 % 8192) as usize,
        1 => (x / 4 % 128) as usize,
        _ => (x / 4 % 32) as usize,
    }
}

// ---- random tables: each function takes the generator's number and gives the next one

// A number of a table, made from what the generator draws.
trait Drawn: Copy + Drop {
    fn from_drawn(x: u64) -> Self;
}

impl Drawn for u32 {
    fn from_drawn(x: u64) -> u32 {
        low_half(x)
    }
}

impl Drawn for u64 {
    fn from_drawn(x: u64) -> u64 {
        x
    }
}

// One turn a number.
fn fill<T: Drawn>(t: &mut [T], x: u64) -> u64 {
    let flavour = x % 5;
    let mut drawn = x;
    for place in t.iter_mut() {
        drawn = next(drawn);
        *place = T::from_drawn(number_in_table(flavour, drawn));
    }
    next(drawn)
}

// At most three numbers are changed.
fn change<T: Drawn>(t: &mut [T], x: u64) -> u64 {
    let mut drawn = next(x);
    for _ in 0..x % 4 {
        let i = place(drawn);
        drawn = next(drawn);
        table::put(t, i, T::from_drawn(number_in_table(4, drawn)));
        drawn = next(drawn);
    }
    drawn
}

// To fill a whole table takes long, so it is done seldom; most tables stay as they are.
fn mangle<T: Drawn>(t: &mut [T], all: bool, x: u64) -> u64 {
    if all {
        return fill(t, x);
    }
    match x % 64 {
        0 => fill(t, next(x)),
        1..=20 => change(t, next(x)),
        _ => next(x),
    }
}

// ---- random machines

// The generator's number; how many machines were stuck, returned, spent; the steps of all of them.
#[derive(Clone, Copy)]
struct Tally {
    drawn: u64,
    stuck: u64,
    returned: u64,
    spent: u64,
    steps: u64,
}

impl Tally {
    fn count(&mut self, out: Stepped, steps: u32) {
        match out {
            Stepped::Moved => {}
            Stepped::Stuck => self.stuck = self.stuck.wrapping_add(1),
            Stepped::Returned => self.returned = self.returned.wrapping_add(1),
            Stepped::Spent => self.spent = self.spent.wrapping_add(1),
        }
        self.steps = self.steps.wrapping_add(u64::from(steps));
    }

    // The line, the count of steps and the returned value are drawn too.
    fn run(&mut self, t: &mut Lent) {
        let a = next(self.drawn);
        let b = next(a);
        let c = next(b);
        let steps = low_half(seldom(b));
        let m = t.run(seldom(a) as usize, steps, seldom(c));
        self.count(m.out, m.steps.wrapping_sub(steps));
        self.drawn = c;
    }

    // A machine of its own: the tables are copied, mangled and run.
    fn run_mangled(&mut self, start: &Start) {
        let mut size = start.program.size;
        let mut nodes = start.program.nodes;
        let mut labels = start.program.labels;
        let mut body = start.program.body;
        let mut store = start.store.size;
        let mut heads = start.store.heads;
        let mut cells = start.store.cells;
        let mut vals = start.store.vals;
        let mut t = Lent {
            size: &mut size,
            nodes: &mut nodes,
            labels: &mut labels,
            body: &mut body,
            store: &mut store,
            heads: &mut heads,
            cells: &mut cells,
            vals: &mut vals,
        };
        let all = self.drawn % 64 == 0;
        self.drawn = t.mangle(all, next(self.drawn));
        self.run(&mut t);
    }

    // Machines that start from the tables of two texts.
    fn run_from(&mut self, count: u64, glue: &[u8], blocks: &[u8]) {
        let mut start = Start::zero();
        start.read(glue, blocks);
        for _ in 0..count {
            self.run_mangled(&start);
        }
    }
}

// Mostly 0, else of any flavour.
fn seldom(x: u64) -> u64 {
    if x % 16 == 0 {
        number_in_table(4, x / 16)
    } else {
        0
    }
}

fn total(name: &[u8], n: u64) {
    io::write_all(STDOUT_FILENO, name);
    io::print_decimal(STDOUT_FILENO, n);
    io::write_all(STDOUT_FILENO, b"\n");
}

// One half starts from the sum, the other from the loop. The generator never draws 0, so it must not start from it.
fn run_random(seed: u64, count: u64) {
    let first = count / 2;
    let mut t = Tally {
        drawn: seed.wrapping_add(4294967296),
        stuck: 0,
        returned: 0,
        spent: 0,
        steps: 0,
    };
    t.run_from(first, &SUM_GLUE, &SUM_STORE);
    t.run_from(count - first, &LOOP_GLUE, &LOOP_STORE);
    total(b"stuck ", t.stuck);
    total(b"returned ", t.returned);
    total(b"spent ", t.spent);
    total(b"steps ", t.steps);
}

fn main() {
    let mut text = [0u8; 64];
    let n = io::read_full(STDIN_FILENO, &mut text);
    if n == 0 {
        each_filled(b"ones ", 18446744073709551615);
        each_filled(b"2^31 ", 2147483648);
        each_filled(b"zero ", 0);
        return;
    }
    let seed = text::plain_at(&text, 0);
    let space = text::next_of(seed);
    if space < 64 {
        let count = text::plain_at(&text, space + 1);
        run_random(text::value_of(seed), text::value_of(count));
    }
}
