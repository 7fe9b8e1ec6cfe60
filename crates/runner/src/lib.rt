// Glue text and store text joined: the glue is judged, then the store; if both pass, the machine runs as long as its budget lasts.
#![tactic(auto)]

ghost use Rattle.std.specs.Prelude.{◌≡◌, ◌≤◌, length, take, drop};
ghost use Rattle.rules.specs.Answers.{answer_of};
ghost use Rattle.rules.specs.View.{program};
ghost use Rattle.rules.specs.Machine.Tables.{datum_code};
ghost use Rattle.rules.specs.Store.{read_store};
ghost use Rattle.rules.specs.Check.{checked};
ghost use Rattle.rules.specs.Run.{state_of, refused, run_store, run_checked, running};
ghost use Rattle.runner.specs.Ran.{told, ended};

use rules::{Given, State, StoreTables, Tables, Verdict};

// The answer to the glue or, if that is accepted, to the store; and how the run stands.
#[derive(Drop)]
pub struct Ran {
    pub answer: Verdict,
    pub state: State,
    pub steps: u32,
    pub value: Given,
}

// Nothing is run.
fn refuse(v: Verdict) -> Ran
    ensures { told result ≡ refused (answer_of v) }
{
    Ran {
        answer: v,
        state: State::Refused,
        steps: 0,
        value: None,
    }
}

fn state_of(value: Given) -> State
    ensures { result ≡ state_of value }
{
    if value.is_some() {
        State::Done
    } else {
        State::Running
    }
}

fn outcome(steps: u32, code: u64) -> Ran
    ensures { told result ≡ ended steps (datum_code code) }
{
    let value = entry::datum_of(code);
    Ran {
        answer: Verdict::Accepted,
        state: state_of(value),
        steps,
        value,
    }
}

// A store text beside a program that was accepted.
fn run_store(s: &[u8], t: &Tables) -> Ran
    ensures { told result ≡ run_store (program t.now) (read_store (program t.now) s.now) }
{
    let mut store = StoreTables {
        size: [0; 2],
        heads: [0; 768],
        cells: [0; 4352],
        vals: [0; 32],
    };
    if let Err(a) = store::read(s, &t.size, &t.rows, &t.vars, &mut store) {
        return refuse(answers::case_of(a));
    }
    let m = machine::run(
        &t.size,
        &t.nodes,
        &t.labels,
        &t.body,
        &store.size,
        &store.heads,
        &mut store.cells,
        &mut store.vals,
        0,
        0,
        0,
    );
    outcome(m.steps, m.value)
}

// The glue is the first n bytes.
#[tactic(auto, using(crate::proofs::Laws::glue_refused, crate::proofs::Laws::rest_is, crate::proofs::Laws::glue_ran))]
fn run_parts(s: &[u8], n: usize) -> Ran
    requires { n ≤ length s.now }
    ensures { told result ≡ run_checked (drop n s.now) (checked (take n s.now)) }
{
    let mut t = Tables {
        size: [0; 6],
        nodes: [0; 4096],
        rows: [0; 17536],
        vars: [0; 96],
        labels: [0; 6208],
        body: [0; 2560],
    };
    let v = checker::check(&s[..n], &mut t);
    let a = answers::answer_of(v);
    if a.number != 0 {
        return refuse(v);
    }
    run_store(&s[n..], &t)
}

#[tactic(auto, using(crate::proofs::Laws::glue_within), unfolding(rules::specs::Run::running, rules::specs::Run::glue_of, rules::specs::Run::store_text_of))]
pub fn run(s: &[u8]) -> Ran
    ensures { told result ≡ running s.now }
{
    let n = joined::glue_bytes(s);
    run_parts(s, n)
}
