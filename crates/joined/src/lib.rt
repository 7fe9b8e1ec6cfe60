// Glue text and store text joined: where the store begins.
#![tactic(auto)]

ghost use Rattle.std.specs.Prelude.{◌≡◌, true, ◌&&◌, eqb, drop};
ghost use Rattle.rules.specs.Bytes.{bytes};
ghost use Rattle.rules.specs.Text.Words.{agreed};
ghost use Rattle.rules.specs.Run.{glue_bytes};

// Whether `run=` stands at `at`. It has four bytes, so the cost does not depend on the text.
#[tactic(auto, using(crate::proofs::Laws::run_there))]
fn run_at(s: &[u8], at: usize) -> bool
    ensures { result ≡ eqb (agreed (bytes "run=") (drop at s.now)) 4 }
{
    text::or_word(s, at, b"run=", 1, Err(at)).is_ok()
}

// How many bytes come before the first line that starts with `run=`; all, if there is none.
#[tactic(auto, using(crate::proofs::Laws::glue_ends, crate::proofs::Laws::glue_here, crate::proofs::Laws::glue_on))]
pub fn glue_bytes(s: &[u8]) -> usize
    ensures { result ≡ glue_bytes true s.now }
{
    // whether a line begins at `at`
    let mut fresh = true;
    for (at, b) in s.iter().enumerate() {
        if fresh && run_at(s, at) {
            return at;
        }
        fresh = *b == b'\n';
    }
    s.len()
}
