// An answer as a case, and the number and the line of a case.
#![tactic(auto)]

ghost use Rattle.std.specs.Prelude.{◌≡◌, get_or};
ghost use Rattle.rules.specs.Answers.{answer_of, glue_cases, store_cases, case_of};

use rules::{Answer, Verdict};

// The case of a number and a line. A number that stands in neither table would be a refusal; the rules give none.
#[tactic(auto, unfolding(rules::specs::Answers::case_of))]
pub fn case_of(a: Answer) -> Verdict
    ensures { result ≡ case_of a }
{
    let number = a.number;
    let line = a.line;
    if number < 21 {
        glue_case(number, line)
    } else {
        store_case(number - 21, line)
    }
}

fn glue_case(n: u32, line: usize) -> Verdict
    ensures { result ≡ get_or (glue_cases line) n (Verdict.Shape line) }
{
    match n {
        0 => Verdict::Accepted,
        1 => Verdict::TooLong,
        2 => Verdict::Shape(line),
        3 => Verdict::Limit(line),
        4 => Verdict::Absent(line),
        5 => Verdict::IntEntry(line),
        6 => Verdict::WrongKind(line),
        7 => Verdict::NotKnown(line),
        8 => Verdict::Outside(line),
        9 => Verdict::NotAllowed(line),
        10 => Verdict::NotZero(line),
        11 => Verdict::NotCovered(line),
        12 => Verdict::NotReached(line),
        13 => Verdict::NoEnd(line),
        _ => Verdict::Shape(line),
    }
}

// The second table begins at 21.
fn store_case(n: u32, line: usize) -> Verdict
    ensures { result ≡ get_or (store_cases line) n (Verdict.StoreShape line) }
{
    match n {
        0 => Verdict::StoreTooLong,
        1 => Verdict::StoreShape(line),
        2 => Verdict::StoreLimit(line),
        3 => Verdict::StoreAbsent(line),
        4 => Verdict::StoreBlock(line),
        5 => Verdict::StoreCell(line),
        6 => Verdict::StoreArgument(line),
        _ => Verdict::StoreShape(line),
    }
}

// The number and the line of a case.
// Kept as it is: the published table, a line for each case.
pub fn answer_of(v: Verdict) -> Answer
    ensures { result ≡ answer_of v }
{
    match v {
        Verdict::Accepted => Answer { number: 0, line: 0 },
        Verdict::TooLong => Answer { number: 1, line: 0 },
        Verdict::Shape(line) => Answer { number: 2, line },
        Verdict::Limit(line) => Answer { number: 3, line },
        Verdict::Absent(line) => Answer { number: 4, line },
        Verdict::IntEntry(line) => Answer { number: 5, line },
        Verdict::WrongKind(line) => Answer { number: 6, line },
        Verdict::NotKnown(line) => Answer { number: 7, line },
        Verdict::Outside(line) => Answer { number: 8, line },
        Verdict::NotAllowed(line) => Answer { number: 9, line },
        Verdict::NotZero(line) => Answer { number: 10, line },
        Verdict::NotCovered(line) => Answer { number: 11, line },
        Verdict::NotReached(line) => Answer { number: 12, line },
        Verdict::NoEnd(line) => Answer { number: 13, line },
        Verdict::StoreTooLong => Answer {
            number: 21,
            line: 0,
        },
        Verdict::StoreShape(line) => Answer { number: 22, line },
        Verdict::StoreLimit(line) => Answer { number: 23, line },
        Verdict::StoreAbsent(line) => Answer { number: 24, line },
        Verdict::StoreBlock(line) => Answer { number: 25, line },
        Verdict::StoreCell(line) => Answer { number: 26, line },
        Verdict::StoreArgument(line) => Answer { number: 27, line },
    }
}
