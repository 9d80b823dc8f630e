//! Sets of numbers below 64, as words: number i is a member when bit i is set.
ghost use Rattle.std.specs.Prelude.{◌≡◌, ◌≢◌, ◌<◌, ◌≤◌, ℕ, true, false, cond, eqb, ltb, get_or};
ghost use Rattle.std.specs.Int.Bits.{bit_or};
ghost use Rattle.book.specs.Sets.{has, WordOf};

// Bare words, shifts and masks, no set type: a form that document 01 names.

/// Whether i is a member.
pub fn contains(set: u64, i: usize) -> bool
    ensures { result ≡ has set i }
{
    if 64 <= i {
        return false;
    }
    (set >> i) % 2 == 1
}

/// The set of i alone; empty where a word has no place for i.
pub fn single(i: usize) -> u64
    ensures { WordOf (λ j. eqb j i) result }
{
    if 64 <= i {
        return 0;
    }
    1u64 << i
}

/// The numbers below n.
pub fn below(n: usize) -> u64
    ensures { WordOf (λ j. ltb j n) result }
{
    if 64 <= n {
        return 0xffff_ffff_ffff_ffff;
    }
    (1u64 << n) - 1
}

/// A word, or the empty one.
pub fn word_if(wanted: bool, word: u64) -> u64
    ensures { result ≡ cond wanted word 0 }
{
    if wanted {
        return word;
    }
    0
}

/// The word at i, or 0 past the end.
pub fn word_at(s: &[u64], i: usize) -> u64
    ensures { result ≡ get_or s.now i 0 }
{
    if i < s.len() {
        return s[i];
    }
    0
}

#[tactic(auto, using(crate::proofs::Members::with_same))]
/// A set with i in it; from 64 on a word has no place for i.
pub fn with(set: u64, i: usize) -> u64
    ensures there { i < 64 → has result i ≡ true }
    ensures others { (k : ℕ) → k ≢ i → has result k ≡ has set k }
{
    set | single(i)
}

#[tactic(auto, using(crate::proofs::Members::has_zero))]
/// The numbers below n, and below 64, that pass a test of the caller's.
pub fn those_below<F: Fn(u8) -> bool>(n: u8, passes: F) -> u64
    requires { (q : ℕ) → q < n → F.pre passes q }
    ensures below { (q : ℕ) → q < n → q < 64 → F.post passes q (has result q) }
    ensures above { (q : ℕ) → n ≤ q → has result q ≡ false }
{
    let mut found = 0u64;
    for q in 0..n.min(64) {
        if passes(q) {
            found = with(found, usize::from(q));
        }
    }
    found
}

/// Joins a set of any number of words to another, in place.
pub fn join<const N: usize>(set: &mut [u64; N], other: &[u64; N])
    ensures { (k : ℕ) → k < N → get_or set.new k 0 ≡ bit_or (get_or set.old k 0) (get_or other.now k 0) }
{
    // By index: two arrays go in step.
    for k in 0..N {
        set[k] |= other[k];
    }
}
