// Tables of numbers, whatever they hold: one number read or written, and a count. Past a table is a number that the caller names, and a place past it writes nothing.
#![tactic(auto)]

ghost use Rattle.std.specs.Prelude.{◌≡◌, ℕ, ◌+◌, ◌*◌, ◌≤◌, ◌^◌, get_or, set, MatchOption};
ghost use Rattle.rules.specs.View.{up_to};

// What stands at place i, or `past` where the table has no such place.
pub fn at<T: Copy>(t: &[T], i: usize, past: T) -> T
    ensures { result ≡ get_or t.now i past }
{
    t.get(i).copied().unwrap_or(past)
}

pub fn put<T: Copy>(t: &mut [T], i: usize, x: T)
    ensures { t.new ≡ set t.old i x }
{
    if i < t.len() {
        t[i] = x;
    }
}

// Where number k of thing i stands, each thing having `width` numbers; none where a usize does not hold the place, which lies past every table then.
fn place(width: usize, i: usize, k: usize) -> Option<usize>
    ensures { MatchOption result (2 ^ 64 ≤ i * width + k) (λ p. p ≡ i * width + k) }
{
    i.checked_mul(width)?.checked_add(k)
}

// Number k of thing i.
pub fn cell<T: Copy>(t: &[T], width: usize, i: usize, k: usize, past: T) -> T
    ensures { result ≡ get_or t.now (i * width + k) past }
{
    match place(width, i, k) {
        Some(p) => at(t, p, past),
        None => past,
    }
}

pub fn put_cell<T: Copy>(t: &mut [T], width: usize, i: usize, k: usize, x: T)
    ensures { t.new ≡ set t.old (i * width + k) x }
{
    if let Some(p) = place(width, i, k) {
        put(t, p, x);
    }
}

// A count over its limit is none.
#[tactic(auto, unfolding(rules::specs::View::up_to))]
pub fn up_to(most: usize, n: u32) -> usize
    ensures { result ≡ up_to most n }
{
    if most < n as usize { 0 } else { n as usize }
}
