// Many texts from standard input: for each a line `check N` or `run N`, then N bytes. What the checking or the running program prints is printed for each.
#![tactic(auto)]

ghost use Rattle.std.specs.Prelude.{◌≤◌};
ghost use Rattle.io.specs.Counts.{IsPrefixLen};

// The standard input and output, as the system numbers them.
const STDIN_FILENO: i32 = 0;

const STDOUT_FILENO: i32 = 1;

// What is asked of a text.
#[derive(Clone, Copy)]
enum Asked {
    Check,
    Run,
}

impl Asked {
    // No more of a text is read than decides its answer.
    fn most(self) -> usize
        ensures { result ≤ 49153 }
    {
        match self {
            Asked::Check => 32769,
            Asked::Run => 49153,
        }
    }

    fn prints(self, text: &[u8], out: &mut [u8; 128]) -> usize
        ensures { IsPrefixLen result out.new }
    {
        match self {
            Asked::Check => told::check_prints(text, out),
            Asked::Run => told::run_prints(text, out),
        }
    }
}

// The next byte of the input; none at its end.
fn next_byte() -> Option<u8> {
    let mut one = [0u8; 1];
    let got = io::read_full(STDIN_FILENO, &mut one);
    if got == 0 { None } else { Some(one[0]) }
}

// A length of at most seven digits and its line feed; anything else ends the input.
fn next_length() -> Option<usize> {
    let mut n: usize = 0;
    for digits in 0..8 {
        match next_byte()? {
            b'\n' if 0 < digits => return Some(n),
            b @ b'0'..=b'9' => n = (n * 10 + usize::from(b - b'0')) % 100000000,
            _ => return None,
        }
    }
    None
}

// At most so many bytes of the input are read, and their number is told.
fn read_into(chunk: &mut [u8], most: usize) -> usize {
    if most < chunk.len() {
        io::read_full(STDIN_FILENO, &mut chunk[..most])
    } else {
        io::read_full(STDIN_FILENO, chunk)
    }
}

fn read_some(most: usize) -> usize {
    let mut space = io::buffer();
    let chunk: &mut [u8] = &mut space;
    read_into(chunk, most)
}

// So many bytes are passed over.
// Kept as it is: how many bytes each turn reads is the system's to say, so that no count of turns is known.
fn pass_over(n: usize) {
    let mut left = n;
    while 0 < left {
        let got = read_some(left);
        if got == 0 {
            return;
        }
        left = left.saturating_sub(got);
    }
}

// A text of n bytes is answered by as much of it as decides its answer.
fn answer(asked: Asked, n: usize) {
    let mut room = [0u8; 49153];
    let text: &mut [u8] = &mut room[..asked.most()];
    let got = read_into(text, n);
    print_first(asked, text, got);
    if got < n {
        pass_over(n - got);
    }
}

fn print_first(asked: Asked, text: &[u8], n: usize) {
    let mut out = [0u8; 128];
    if n <= text.len() {
        let m = asked.prints(&text[..n], &mut out);
        io::write_all(STDOUT_FILENO, &out[..m]);
    }
}

// The text of the next header; none at the end of the input. Where that is no last end, as at a terminal, the rest of the header is still asked for.
fn next_text() -> Option<()> {
    let asked = match next_byte() {
        Some(b'r') => Asked::Run,
        _ => Asked::Check,
    };
    pass_over(match asked {
        Asked::Run => 3,
        Asked::Check => 5,
    });
    answer(asked, next_length()?);
    Some(())
}

fn main() {
    for _ in 0..1000000 {
        if next_text().is_none() {
            return;
        }
    }
}
