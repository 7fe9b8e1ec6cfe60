// What programs in other languages call, through export_c: plain numbers and byte slices, under names that begin with `tapmallet_`.
#![tactic(auto)]

ghost use Rattle.std.specs.Prelude.{◌≡◌, length};
ghost use Rattle.rules.specs.Check.{verdict};
ghost use Rattle.rules.specs.Run.{run_prints};
ghost use Rattle.prints.specs.Written.{printed};

// The answer to a glue text: its number, and its line through `line`.
#[tactic(auto, using(checker::specs::Verdicts::answered))]
pub fn tapmallet_check(s: &[u8], line: &mut u64) -> u32
    ensures { (result ≡ (verdict s.now).number) × (line.new ≡ (verdict s.now).line) }
{
    let a = answers::answer_of(checker::answer(s));
    *line = a.line as u64;
    a.number
}

// What the running program prints of glue text and store text joined, and how many bytes.
pub fn tapmallet_run(s: &[u8], out: &mut [u8; 128]) -> usize
    ensures { (out.new ≡ printed (run_prints s.now)) × (result ≡ length (run_prints s.now)) }
{
    told::run_prints(s, out)
}
