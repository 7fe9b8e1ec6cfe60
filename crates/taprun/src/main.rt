// The running program: glue text and store text joined, from standard input; the answer, how the run stands, its steps and its value to standard output.
// No more is read than decides the answer: where so many bytes are there, the glue is longer than 32,768 or the store longer than 16,384, whatever follows.
#![tactic(auto)]

// The standard input and output, as the system numbers them.
const STDIN_FILENO: i32 = 0;

const STDOUT_FILENO: i32 = 1;

fn main() {
    let mut text = [0u8; 49153];
    let n = io::read_full(STDIN_FILENO, &mut text);
    let mut out = [0u8; 128];
    let m = told::run_prints(&text[..n], &mut out);
    io::write_all(STDOUT_FILENO, &out[..m]);
}
