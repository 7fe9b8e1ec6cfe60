// What the readers of numbers answer at the edges of what is a number. The stored output is worked out by hand from the written rules.
#![tactic(auto)]

use rules::Reading;

// The standard output, as the system numbers it.
const STDOUT_FILENO: i32 = 1;

fn line(reader: &[u8], shown: &[u8], r: Reading) {
    io::write_all(STDOUT_FILENO, reader);
    io::write_all(STDOUT_FILENO, shown);
    match r {
        Ok((v, n)) => {
            io::write_all(STDOUT_FILENO, b": got ");
            io::print_decimal(STDOUT_FILENO, v);
            io::write_all(STDOUT_FILENO, b" ");
            io::print_decimal(STDOUT_FILENO, n as u64);
        }
        Err(p) => {
            io::write_all(STDOUT_FILENO, b": bad ");
            io::print_decimal(STDOUT_FILENO, p as u64);
        }
    }
    io::write_all(STDOUT_FILENO, b"\n");
}

// What both readers answer at the start of s, of which `shown` is printed.
fn both(s: &[u8], shown: &[u8]) {
    line(b"number ", shown, text::number_at(s, 0));
    line(b"plain ", shown, text::plain_at(s, 0));
}

// A text that ends with a line feed.
fn show(s: &[u8]) {
    if let Some((_, shown)) = s.split_last() {
        both(s, shown);
    }
}

fn limits() {
    show(b"-2147483648\n");
    show(b"2147483647\n");
    show(b"-2147483649\n");
    show(b"2147483648\n");
    show(b"-2147483647\n");
    show(b"2147483646\n");
    show(b"-2147483650\n");
    show(b"2147483650\n");
    show(b"99999999999999999999\n");
    show(b"-99999999999999999999\n");
}

fn forms() {
    show(b"0\n");
    show(b"-0\n");
    show(b"007\n");
    show(b"-07\n");
    show(b"+1\n");
    show(b"\n");
    show(b"-\n");
    show(b"--1\n");
    show(b"-1\n");
    show(b"10\n");
    show(b"12a\n");
    show(b"9:\n");
    show(b"1/\n");
    show(b":\n");
    show(b"/\n");
}

fn cut() {
    io::write_all(STDOUT_FILENO, b"without a line feed\n");
    both(b"", b"");
    both(b"-", b"-");
    both(b"2147483647", b"2147483647");
}

fn main() {
    limits();
    forms();
    cut();
}
