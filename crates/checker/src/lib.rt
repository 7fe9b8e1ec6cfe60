// The checker: of the stages that refuse, the earliest wins.
#![tactic(auto)]

ghost use Rattle.std.specs.Prelude.{◌≡◌};
ghost use Rattle.rules.specs.Answers.{outcome, case_of};
ghost use Rattle.rules.specs.View.{program};
ghost use Rattle.rules.specs.Check.{check as check_program, checked, verdict};
ghost use Rattle.rules.specs.Text.Layout.{zeros};
ghost use Rattle.checker.specs.Says.{Says};

use rules::{Answer, Tables, Verdict};

// Answers 4 to 13 for the program in the tables. Typing comes before the names, and its answer is kept back: where it refuses nothing, every name in an expression exists, and the expressions are not walked for them.
#[tactic(auto, using(crate::proofs::Laws::by_names, crate::proofs::Laws::by_types, crate::proofs::Laws::by_last))]
fn program_judged(t: &Tables) -> Result<(), Answer>
    ensures { result ≡ outcome (check_program (program t.now)) }
{
    let typed = body::typed(t);
    names::named(t, typed.is_err())?;
    typed?;
    body::ended(&t.size, &t.body)
}

// The answer to a glue text, for tables that are all 0: the program is in them if it is accepted, and on a refusal they are all 0 again.
#[tactic(auto, using(reader::specs::Read::over_zeros, crate::proofs::Laws::text_clear, crate::proofs::Laws::case_passed), unfolding(rules::specs::Check::checked))]
fn judged(s: &[u8], t: &mut Tables) -> Verdict
    requires { t.old ≡ zeros }
    ensures { Says (checked s.now) result t.new }
{
    if let Err(a) = reader::read(s, t) {
        // what refuses the text has cleared the tables
        return answers::case_of(a);
    }
    if let Err(b) = program_judged(t) {
        program::clear(t);
        return answers::case_of(b);
    }
    Verdict::Accepted
}

// The answer to a glue text, with the program in the tables if it is accepted. Whatever they held before, they are all 0 on a refusal.
pub fn check(s: &[u8], t: &mut Tables) -> Verdict
    ensures { Says (checked s.now) result t.new }
{
    program::clear(t);
    judged(s, t)
}

// The answer alone, with tables of its own: they are all 0 when they are made, and not cleared once more.
#[tactic(auto, unfolding(rules::specs::Check::verdict))]
pub fn answer(s: &[u8]) -> Verdict
    ensures { result ≡ case_of (verdict s.now) }
{
    let mut t = Tables {
        size: [0; 6],
        nodes: [0; 4096],
        rows: [0; 17536],
        vars: [0; 96],
        labels: [0; 6208],
        body: [0; 2560],
    };
    judged(s, &mut t)
}
