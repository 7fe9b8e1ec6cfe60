// What the programs print, written on a page that goes into a lent table of bytes: the text from its start on, and 0 after it.
#![tactic(auto)]

ghost use Rattle.std.specs.Prelude.{◌≡◌, [], ◌∷◌, ◌+◌, ◌≤◌, length};
ghost use Rattle.rules.specs.Run.{digits_of, decimal, signed, value_text, state_text, answer_text, result_text};
ghost use Rattle.prints.specs.Written.{printed, Puts};

use number::Sign;
use rules::{Answer, Datum, Given, Num, State};

// ---- a page

// Bytes, and the place at which the next text goes. Each private method puts its text there; its caller has shown that the text fits.
#[derive(Clone, Copy)]
struct Page {
    bytes: [u8; 128],
    at: usize,
}

impl Page {
    #[tactic(auto, using(crate::proofs::Laws::one))]
    fn byte(&mut self, b: u8)
        requires { self.old.at + 1 ≤ 128 }
        ensures { Puts self.old.bytes self.old.at (b ∷ []) self.new.bytes self.new.at }
    {
        self.bytes[self.at] = b;
        self.at += 1;
    }

    #[tactic(auto, using(crate::proofs::Laws::put_one, crate::proofs::Laws::put_none))]
    fn word(&mut self, w: &[u8])
        requires { self.old.at + length w.now ≤ 128 }
        ensures { Puts self.old.bytes self.old.at w.now self.new.bytes self.new.at }
    {
        let at = self.at;
        for (k, b) in w.iter().enumerate() {
            self.bytes[at + k] = *b;
        }
        self.at = at + w.len();
    }

    // ---- numbers

    // At most so many digits, the first ones before the last.
    fn digits(&mut self, most: usize, n: u64)
        requires { self.old.at + length (digits_of most n) ≤ 128 }
        ensures { Puts self.old.bytes self.old.at (digits_of most n) self.new.bytes self.new.at }
    {
        if most == 0 {
            return;
        }
        if n < 10 {
            self.byte((48 + n) as u8);
            return;
        }
        self.digits(most - 1, n / 10);
        self.byte((48 + n % 10) as u8);
    }

    #[tactic(auto, unfolding(rules::specs::Run::decimal))]
    fn decimal(&mut self, n: u64)
        requires { self.old.at + length (decimal n) ≤ 128 }
        ensures { Puts self.old.bytes self.old.at (decimal n) self.new.bytes self.new.at }
    {
        self.digits(20, n);
    }

    fn signed(&mut self, a: Num)
        requires { self.old.at + length (signed a.n) ≤ 128 }
        ensures { Puts self.old.bytes self.old.at (signed a.n) self.new.bytes self.new.at }
    {
        match number::sign_of(a) {
            Sign::Plus(k) => self.decimal(k as u64),
            Sign::Minus(k) => {
                self.word(b"-");
                self.decimal(k as u64 + 1);
            }
        }
    }

    // ---- the parts of a result

    fn state(&mut self, s: State)
        requires { self.old.at + length (state_text s) ≤ 128 }
        ensures { Puts self.old.bytes self.old.at (state_text s) self.new.bytes self.new.at }
    {
        match s {
            State::Refused => self.word(b"none"),
            State::Running => self.word(b"running"),
            State::Done => self.word(b"done"),
        }
    }

    #[tactic(auto, unfolding(rules::specs::Run::value_text))]
    fn datum(&mut self, d: Datum)
        requires { self.old.at + length (value_text (Some d)) ≤ 128 }
        ensures { Puts self.old.bytes self.old.at (value_text (Some d)) self.new.bytes self.new.at }
    {
        match d {
            Datum::Int(n) => {
                self.word(b"c");
                self.signed(n);
            }
            Datum::Imm(n) => {
                self.word(b"i");
                self.signed(n);
            }
            Datum::Place(b, _) => {
                self.word(b"b");
                self.decimal(b as u64);
            }
        }
    }

    #[tactic(auto, unfolding(rules::specs::Run::value_text))]
    fn value(&mut self, v: Given)
        requires { self.old.at + length (value_text v) ≤ 128 }
        ensures { Puts self.old.bytes self.old.at (value_text v) self.new.bytes self.new.at }
    {
        match v {
            None => self.word(b"none"),
            Some(d) => self.datum(d),
        }
    }

    #[tactic(auto, using(crate::specs::Room::decimal_room))]
    fn answer(a: Answer) -> Page
        ensures { (result.bytes ≡ printed (answer_text a)) × (result.at ≡ length (answer_text a)) }
    {
        let mut page = Page {
            bytes: [0; 128],
            at: 0,
        };
        page.word(b"answer=");
        page.decimal(a.number as u64);
        page.word(b"\nline=");
        page.decimal(a.line as u64);
        page.word(b"\n");
        page
    }
}

// ---- what the programs print

// The checking program's text, and how many bytes it has.
pub fn answer_text(a: Answer, out: &mut [u8; 128]) -> usize
    ensures { (out.new ≡ printed (answer_text a)) × (result ≡ length (answer_text a)) }
{
    let page = Page::answer(a);
    let bytes = page.bytes;
    *out = bytes;
    page.at
}

// The running program's text, and how many bytes it has.
#[tactic(auto, using(crate::specs::Room::answer_most, crate::specs::Room::state_room, crate::specs::Room::decimal_room, crate::specs::Room::value_room))]
pub fn result_text(
    answer: Answer,
    state: State,
    steps: u32,
    value: Given,
    out: &mut [u8; 128],
) -> usize
    ensures { let text = result_text (record { answer = answer; state = state; steps = steps; value = value }) in (out.new ≡ printed text) × (result ≡ length text) }
{
    let mut page = Page::answer(answer);
    page.word(b"state=");
    page.state(state);
    page.word(b"\nsteps=");
    page.decimal(steps as u64);
    page.word(b"\nvalue=");
    page.value(value);
    page.word(b"\n");
    let bytes = page.bytes;
    *out = bytes;
    page.at
}
