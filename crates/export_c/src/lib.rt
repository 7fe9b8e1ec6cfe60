// The static library that programs in other languages link: each function is the one of export, under its own name.
#![tactic(auto)]

ghost use Rattle.std.specs.Prelude.{◌≡◌, length};
ghost use Rattle.rules.specs.Check.{verdict};
ghost use Rattle.rules.specs.Run.{run_prints};
ghost use Rattle.prints.specs.Written.{printed};

// The answer to a glue text: its number, and its line through `line`.
#[unsafe(no_mangle)]
pub extern "C" fn tapmallet_check(s: &[u8], line: &mut u64) -> u32
    ensures { (result ≡ (verdict s.now).number) × (line.new ≡ (verdict s.now).line) }
{
    export::tapmallet_check(s, line)
}

// What the running program prints of glue text and store text joined, and how many bytes.
#[unsafe(no_mangle)]
pub extern "C" fn tapmallet_run(s: &[u8], out: &mut [u8; 128]) -> usize
    ensures { (out.new ≡ printed (run_prints s.now)) × (result ≡ length (run_prints s.now)) }
{
    export::tapmallet_run(s, out)
}
