// What the two programs print, from what they read.
#![tactic(auto)]

ghost use Rattle.std.specs.Prelude.{◌≡◌, length};
ghost use Rattle.io.specs.Counts.{IsPrefixLen};
ghost use Rattle.rules.specs.Run.{check_prints, run_prints};
ghost use Rattle.prints.specs.Written.{printed};

// The checking program: of a glue text.
pub fn check_prints(s: &[u8], out: &mut [u8; 128]) -> usize
    ensures out_after { (out.new ≡ printed (check_prints s.now)) × (result ≡ length (check_prints s.now)) }
    ensures prefix_len { IsPrefixLen result out.new }
{
    prints::answer_text(answers::answer_of(checker::answer(s)), out)
}

// The running program: of glue text and store text joined.
pub fn run_prints(s: &[u8], out: &mut [u8; 128]) -> usize
    ensures out_after { (out.new ≡ printed (run_prints s.now)) × (result ≡ length (run_prints s.now)) }
    ensures prefix_len { IsPrefixLen result out.new }
{
    let r = runner::run(s);
    let answer = r.answer;
    let state = r.state;
    let value = r.value;
    prints::result_text(answers::answer_of(answer), state, r.steps, value, out)
}
