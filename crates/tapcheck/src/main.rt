// The checking program: a glue text from standard input; the number and the line of its answer to standard output.
// No more is read than decides the answer: one byte over the limit is too long, whatever follows.
#![tactic(auto)]

// The standard input and output, as the system numbers them.
const STDIN_FILENO: i32 = 0;

const STDOUT_FILENO: i32 = 1;

fn main() {
    let mut text = [0u8; 32769];
    let n = io::read_full(STDIN_FILENO, &mut text);
    let mut out = [0u8; 128];
    let m = told::check_prints(&text[..n], &mut out);
    io::write_all(STDOUT_FILENO, &out[..m]);
}
