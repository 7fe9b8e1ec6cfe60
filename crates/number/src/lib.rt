// Signed 32-bit numbers. Only here is a `Num` opened, compared with another or added to it.
#![tactic(auto)]

ghost use Rattle.std.specs.Prelude.{◌≡◌, ◌+◌, pos, negsuc, ◌+ℤ◌};
ghost use Rattle.rules.specs.Numbers.{zero_n, num_code, word_of, low32, wrap32, one_if, same_num, arith_of, suits};
ghost use Rattle.number.specs.Places.{sign_of, index_in};

use rules::{Num, Op, Psi};

// ---- bits

// k, or -1 - k: what a number is without its bits.
// Kept as it is: neither of the two is the lack of the other, nor an error.
#[derive(Clone, Copy)]
pub enum Sign {
    Plus(u32),
    Minus(u32),
}

#[tactic(auto, unfolding(crate::specs::Places::sign_of))]
pub fn sign_of(a: Num) -> Sign
    ensures { result ≡ sign_of a.n }
{
    let z = a.n;
    if z < 0 {
        Sign::Minus((!z).cast_unsigned())
    } else {
        Sign::Plus(z.cast_unsigned())
    }
}

// The 32 bits of a number.
#[tactic(auto, using(crate::proofs::Laws::minus_is, crate::proofs::Laws::plus_is), unfolding(rules::specs::Numbers::word_of))]
pub fn word(a: Num) -> u32
    ensures { result ≡ word_of a }
{
    a.n.cast_unsigned()
}

// The number whose 32 bits are w.
#[tactic(auto, using(crate::proofs::Laws::by_low))]
pub fn number(w: u32) -> Num
    ensures { result ≡ num_code w }
{
    Num { n: w.cast_signed() }
}

// The number whose 32 bits are the low ones of c.
#[tactic(auto, using(crate::proofs::Laws::low_again))]
pub fn number_of(c: u64) -> Num
    ensures { result ≡ num_code c }
{
    number((c % 4294967296) as u32)
}

// ---- arithmetic

// The low 32 bits of s.
#[tactic(auto, unfolding(rules::specs::Numbers::low32))]
fn low(s: i64) -> u64
    ensures { result ≡ low32 s }
{
    s.cast_unsigned() % 4294967296
}

#[tactic(auto, unfolding(rules::specs::Numbers::wrap32))]
fn wrap(s: i64) -> Num
    ensures { result ≡ wrap32 s }
{
    number_of(low(s))
}

fn one_if(b: bool) -> Num
    ensures { result ≡ one_if b }
{
    Num { n: i32::from(b) }
}

// Kept as it is: a public function whose contract says the rules' `same_num`; it is the derived `==`.
pub fn same(a: Num, b: Num) -> bool
    ensures { result ≡ same_num a b }
{
    a == b
}

pub fn is_zero(a: Num) -> bool
    ensures { result ≡ same_num a zero_n }
{
    same(a, Num { n: 0 })
}

// Sums, differences and products wrap; `eq` and `lt` give 1 or 0.
#[tactic(auto, unfolding(rules::specs::Numbers::arith_of))]
pub fn arith(o: Op, a: Num, b: Num) -> Num
    ensures { result ≡ arith_of o a b }
{
    let x = a.n as i64;
    let y = b.n as i64;
    match o {
        Op::Add => wrap(x + y),
        Op::Sub => wrap(x - y),
        Op::Mul => wrap(x * y),
        Op::Eq => one_if(same(a, b)),
        Op::Lt => one_if(x < y),
    }
}

// ---- places

// o + k among n, also where o + k is more than a usize holds.
#[tactic(auto, using(crate::proofs::Laws::inside, crate::proofs::Laws::outside))]
fn ahead(o: usize, k: usize, n: usize) -> Option<usize>
    ensures { result ≡ index_in (pos (o + k)) n }
{
    let place = o.checked_add(k)?;
    if place < n { Some(place) } else { None }
}

// o - 1 - k among n.
#[tactic(auto, using(crate::proofs::Laws::none_below, crate::proofs::Laws::less, crate::proofs::Laws::less_none))]
fn back(o: usize, k: usize, n: usize) -> Option<usize>
    ensures { result ≡ index_in (pos o +ℤ negsuc k) n }
{
    if k < o { ahead(o - 1 - k, 0, n) } else { None }
}

// o + m among n, over whole numbers.
#[tactic(auto, using(crate::proofs::Laws::minus_is, crate::proofs::Laws::plus_is))]
pub fn place_in(o: usize, m: Num, n: usize) -> Option<usize>
    ensures { result ≡ index_in (pos o +ℤ m.n) n }
{
    match sign_of(m) {
        Sign::Plus(k) => ahead(o, k as usize, n),
        Sign::Minus(k) => back(o, k as usize, n),
    }
}

// k among n.
pub fn index_in(k: Num, n: usize) -> Option<usize>
    ensures { result ≡ index_in k.n n }
{
    place_in(0, k, n)
}

// o + m among n, over whole numbers.
#[tactic(auto, using(crate::proofs::Laws::none_below, crate::proofs::Laws::minus_is, crate::proofs::Laws::plus_is))]
pub fn sum_in(o: Num, m: Num, n: usize) -> Option<usize>
    ensures { result ≡ index_in (o.n +ℤ m.n) n }
{
    match sign_of(o) {
        Sign::Plus(k) => place_in(k as usize, m, n),
        Sign::Minus(_) => match sign_of(m) {
            Sign::Plus(k) => place_in(k as usize, o, n),
            Sign::Minus(_) => None,
        },
    }
}

// Whether n is from 0 to one less than p, or p is `inf`.
#[tactic(auto, using(crate::specs::Places::index_at, crate::specs::Places::index_out))]
pub fn suits(p: Psi, n: Num) -> bool
    ensures { result ≡ suits p n }
{
    match p {
        Psi::Inf => true,
        Psi::Upto(m) => index_in(n, m as usize).is_some(),
    }
}
