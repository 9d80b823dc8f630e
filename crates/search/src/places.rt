//! Accesses as numbers: the access (s, d, k) is at place 1024 × s + 16 × d + k, so places are in the
//! order of choices. Place 2048 stands for an absent reference. A set of places is 33 words.
ghost use Rattle.std.specs.Prelude.{IfSome, ◌<◌, ◌≡◌, true, ℕ, ◌≤◌, get_or};
ghost use Rattle.search.specs.Inner.Places.{past_places, place_or_past, rows_at, Lowest, FirstFrom};

// A place like others and no `None`: a set holds it, so that no loop has a case for it.
/// The place of an absent reference.
pub const NOWHERE: usize = 2048;

/// One past the last place that a set has room for.
pub const PAST_PLACES: usize = 2112;

/// A place for each reference of a rule, the absent references first. The derived order is that of
/// choices.
#[derive(Clone, Copy, Debug, PartialEq, Eq, PartialOrd, Ord)]
pub struct Places {
    pub first: usize,
    pub second: usize,
    pub third: usize,
}

/// The lowest member of a word that has one.
pub fn lowest(word: u64) -> usize
    ensures { Lowest word result }
{
    // `as`: `usize` has no `From<u32>`.
    word.trailing_zeros() as usize
}

/// The lowest place of a set from p on.
pub fn first_from(set: &[u64; 33], p: usize) -> Option<usize>
    ensures first { p ≤ past_places → FirstFrom set.now p (place_or_past result) }
    ensures there { IfSome result (λ found. found < past_places) }
{
    if PAST_PLACES <= p {
        return None;
    }
    let word = set[p / 64] >> (p % 64);
    if word != 0 {
        return Some(p + lowest(word));
    }
    // By index: the word's number is part of the answer.
    for w in p / 64 + 1..33 {
        if set[w] != 0 {
            return Some(64 * w + lowest(set[w]));
        }
    }
    None
}

/// Whether no place is in a set. Only `true` is promised: it ends a search early, and a wrong
/// `false` would only let it go on.
pub fn is_empty(set: &[u64; 33]) -> bool
    ensures { result ≡ true → (w : ℕ) → get_or set.now w 0 ≡ 0 }
{
    *set == [0; 33]
}

/// The rows of the shown plan for the access at a place.
pub fn rows_at(p: usize) -> usize
    ensures { (result ≡ rows_at p) × (result ≤ 3) }
{
    if NOWHERE <= p {
        return 0;
    }
    if p % 16 == 0 {
        return 2;
    }
    3
}
