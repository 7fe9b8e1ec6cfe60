// The plain data of the rules. What it means stands in specs/, which speaks of these very types.
// The two functions tie what code reads here, the loosest entry and the limits, to the names that specs/ uses for them.
#![tactic(auto)]

ghost use Rattle.std.specs.Prelude.{◌≡◌};
ghost use Rattle.rules.specs.Limits.{limits};
ghost use Rattle.rules.specs.Program.{loosest};

// A signed 32-bit number.
#[derive(Clone, Copy, PartialEq, Eq)]
pub struct Num {
    pub n: i32,
}

// `any`, `box`, `imm`.
#[derive(Clone, Copy, PartialEq, Eq)]
pub enum Boxed {
    Either,
    Block,
    Imm,
}

// Kept as it is: the written rules fix the form of an offset and of a tag, unknown or known with its number; as two types neither is taken for the other.
#[derive(Clone, Copy, PartialEq, Eq)]
pub enum Offset {
    Unknown,
    Known(Num),
}

#[derive(Clone, Copy, PartialEq, Eq)]
pub enum Tag {
    Unknown,
    Known(Num),
}

#[derive(Clone, Copy, PartialEq, Eq)]
pub struct Entry {
    pub boxed: Boxed,
    pub offset: Offset,
    pub tag: Tag,
}

impl Entry {
    // `any,0,any`, the loosest usual entry
    pub const LOOSEST: Entry = Entry {
        boxed: Boxed::Either,
        offset: Offset::Known(Num { n: 0 }),
        tag: Tag::Unknown,
    };

    pub fn loosest() -> Entry
        ensures { result ≡ loosest }
    {
        Entry::LOOSEST
    }
}

// One entry for each variable.
// Kept as it is: the written rules fix the form, an array of 32 entries and a count; there is no heap.
#[derive(Clone, Copy)]
pub struct Env {
    pub entries: [Entry; 32],
    pub count: usize,
}

// The limits of a glue text and of a store text.
#[derive(Clone, Copy)]
pub struct Limits {
    pub bytes: usize,
    pub rows: usize,
    // of a row
    pub products: usize,
    // fields of a product
    pub width: usize,
    // of a text
    pub fields: usize,
    pub variables: usize,
    pub labels: usize,
    // of the body, labels among them
    pub lines: usize,
    // of expressions
    pub nodes: usize,
    // of an expression
    pub depth: usize,
    // bytes of a store text
    pub store: usize,
    pub blocks: usize,
    pub cells: usize,
    // steps of a run
    pub budget: u32,
}

impl Limits {
    pub const BYTES: usize = 32768;

    pub const ROWS: usize = 64;

    pub const PRODUCTS: usize = 16;

    pub const WIDTH: usize = 16;

    pub const FIELDS: usize = 1024;

    pub const VARIABLES: usize = 32;

    pub const LABELS: usize = 64;

    pub const LINES: usize = 512;

    pub const NODES: usize = 4096;

    pub const DEPTH: usize = 16;

    pub const STORE: usize = 16384;

    pub const BLOCKS: usize = 256;

    pub const CELLS: usize = 2048;

    pub const BUDGET: u32 = 1000000;

    pub fn all() -> Limits
        ensures { result ≡ limits }
    {
        Limits {
            bytes: Limits::BYTES,
            rows: Limits::ROWS,
            products: Limits::PRODUCTS,
            width: Limits::WIDTH,
            fields: Limits::FIELDS,
            variables: Limits::VARIABLES,
            labels: Limits::LABELS,
            lines: Limits::LINES,
            nodes: Limits::NODES,
            depth: Limits::DEPTH,
            store: Limits::STORE,
            blocks: Limits::BLOCKS,
            cells: Limits::CELLS,
            budget: Limits::BUDGET,
        }
    }
}

// Kept as it is: `None` would not say that an int is meant.
#[derive(Clone, Copy, PartialEq, Eq)]
pub enum Kind {
    Cint,
    Value(usize),
}

// How many constants a row has.
// Kept as it is: `None` would read as no constants, where all are meant.
#[derive(Clone, Copy)]
pub enum Psi {
    Inf,
    Upto(u32),
}

#[derive(Clone, Copy, PartialEq, Eq)]
pub enum Op {
    Add,
    Sub,
    Mul,
    Eq,
    Lt,
}

// What a node of an expression is, by the operation in its table.
#[derive(Clone, Copy, PartialEq, Eq)]
pub enum Form {
    Absent,
    Lit,
    Var,
    Fetch,
    Int,
    Val,
    Step,
    Calc(Op),
}

// What a body line is, by the kind in its table.
#[derive(Clone, Copy, PartialEq, Eq)]
pub enum Way {
    Absent,
    Set,
    Put,
    Goto,
    If,
    IfImm,
    IfTag,
    IfInt,
    Return,
    Label,
}

// What a line of a glue text begins with.
#[derive(Clone, Copy, PartialEq, Eq)]
pub enum Key {
    Absent,
    Ret,
    Type,
    Param,
    Local,
    Set,
    Put,
    Goto,
    If,
    IfImm,
    IfTag,
    IfInt,
    Return,
    Label,
}

#[derive(Clone, Copy, PartialEq, Eq)]
pub enum Datum {
    Int(Num),
    Imm(Num),
    Place(usize, usize),
}

// The answer to a text: its number, and the line that it names.
// Kept as it is: the published table gives each answer its number, and the definitions compute with it (`Answers.first`, `Typing.type`, `Body.line_of`).
#[derive(Clone, Copy)]
pub struct Answer {
    pub number: u32,
    pub line: usize,
}

// The answer to a text, case by case, with the line that it names. specs/Answers gives the number of each.
#[derive(Clone, Copy)]
pub enum Verdict {
    Accepted,
    TooLong,
    Shape(usize),
    Limit(usize),
    Absent(usize),
    IntEntry(usize),
    WrongKind(usize),
    NotKnown(usize),
    Outside(usize),
    NotAllowed(usize),
    NotZero(usize),
    NotCovered(usize),
    NotReached(usize),
    NoEnd(usize),
    StoreTooLong,
    StoreShape(usize),
    StoreLimit(usize),
    StoreAbsent(usize),
    StoreBlock(usize),
    StoreCell(usize),
    StoreArgument(usize),
}

// What an expression is judged as: a kind with an entry, or an answer's number.
pub type Judged = Result<(Kind, Entry), u32>;

// A block address: a tag and an offset, or an answer's number.
pub type Addr = Result<(usize, usize), u32>;

// What an expression gives in the machine; nothing where it is stuck.
pub type Given = Option<Datum>;

// What a line does to the environment: answer 0 goes on.
// Kept as it is: a type of the definitions alone (`Body.line_of`, of which `Exactly.Allows.statement_exactly` speaks); no code makes one.
#[derive(Clone, Copy)]
pub struct Line {
    pub answer: u32,
    pub live: bool,
    pub env: Env,
}

// ---- readers: each is a function of the text and a place in it

// What was read as it stands in a table (a number as its 32 bits, a key or an operator as its number, a datum as its code) and the next byte; or the first wrong byte.
pub type Reading = Result<(u64, usize), usize>;

// The byte after what was read, or the first wrong byte.
pub type Next = Result<usize, usize>;

// The first word of an expression: operation, argument, next byte; or the first wrong byte.
pub type Head = Result<(u32, u32, usize), usize>;

// After an expression was written: the next byte and the next free node; or a limit is passed.
pub type Filling = Option<(usize, usize)>;

// How much of a glue text was read. Part: 0 nothing, 1 rows may come, 2 variables, 3 the body.
// Kept as it is: the parts are held against one another by their order (`Text.Shape.in_order`).
#[derive(Clone, Copy)]
pub struct Count {
    pub part: u32,
    pub ret: u32,
    pub rows: usize,
    pub fields: usize,
    pub vars: usize,
    pub labels: usize,
    pub lines: usize,
    pub nodes: usize,
}

// The tables of a program: size (kind code of `ret`, rows, variables, labels, body lines, nodes), and a table for each kind of thing.
#[derive(Clone, Copy)]
pub struct Tables {
    pub size: [u32; 6],
    pub nodes: [u64; 4096],
    pub rows: [u32; 17536],
    pub vars: [u32; 96],
    pub labels: [u64; 6208],
    pub body: [u32; 2560],
}

// The tables of a store: size (budget, blocks), the blocks' heads and cells, and what the variables hold.
#[derive(Clone, Copy)]
pub struct StoreTables {
    pub size: [u32; 2],
    pub heads: [u32; 768],
    pub cells: [u64; 4352],
    pub vals: [u64; 32],
}

// ---- the machine

// What a line does: nothing (stuck), the next line, a line by its place, a variable or a cell gets a datum, the machine returns.
#[derive(Clone, Copy)]
pub enum Act {
    Stuck,
    Fall,
    Jump(usize),
    SetVar(usize, Datum),
    SetCell(usize, usize, Datum),
    Give(Datum),
}

// What a step says of itself; `Spent` where the budget is used up.
#[derive(Clone, Copy)]
pub enum Stepped {
    Stuck,
    Moved,
    Returned,
    Spent,
}

// `none`, `running`, `done`
#[derive(Clone, Copy)]
pub enum State {
    Refused,
    Running,
    Done,
}

// How much of a store text was read. Part: 0 nothing, 1 blocks may come, 2 arguments.
// Kept as it is: the part is a number of the definitions (`Store.Text.store_order`, `counted`), as in `Count`.
#[derive(Clone, Copy)]
pub struct StoreCount {
    pub part: u32,
    pub budget: u32,
    pub blocks: usize,
    pub cells: usize,
    pub args: usize,
}
