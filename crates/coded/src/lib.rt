// An environment as numbers: three for each variable, as a label's stand in their table. So it is lent to a walk, which need not copy it.
#![tactic(auto)]

ghost use Rattle.std.specs.Prelude.{◌≡◌, ℕ, get_or};
ghost use Rattle.rules.specs.Program.{no_entry};
ghost use Rattle.rules.specs.Environments.{with_entry};
ghost use Rattle.coded.specs.Coded.{env_of, put_codes};

use rules::{Boxed, Entry, Env, Offset, Tag};

// The entry of variable v. Past 32 variables it is that of three zeros.
#[tactic(auto, using(crate::proofs::Laws::read_in, crate::proofs::Laws::read_past, crate::proofs::Laws::zeros))]
pub fn entry_in(codes: &[u64; 96], v: usize) -> Entry
    ensures { (n : ℕ) → result ≡ get_or (env_of codes.now n).entries v no_entry }
{
    if v < 32 {
        let k = v * 3;
        entry::entry_of(codes[k], codes[k + 1], codes[k + 2])
    } else {
        entry::entry_of(0, 0, 0)
    }
}

// The environment of `count` variables.
pub fn env_of(codes: &[u64; 96], count: usize) -> Env
    ensures { result ≡ env_of codes.now count }
{
    let blank = Entry {
        boxed: Boxed::Either,
        offset: Offset::Unknown,
        tag: Tag::Unknown,
    };
    let mut entries = [blank; 32];
    for v in 0..32 {
        entries[v] = entry_in(codes, v);
    }
    Env { entries, count }
}

// Variable v takes an entry. A variable past 32 has none.
#[tactic(auto, unfolding(crate::specs::Coded::put_codes))]
pub fn put_entry(codes: &mut [u64; 96], v: usize, e: Entry)
    ensures codes_after { codes.new ≡ put_codes codes.old v e }
    ensures by_index { (n : ℕ) → env_of codes.new n ≡ with_entry (env_of codes.old n) v e }
{
    let c = entry::codes_of(e);
    let k = v.min(32) * 3;
    table::put(codes, k, c.boxed);
    table::put(codes, k + 1, c.offset);
    table::put(codes, k + 2, c.tag);
}
