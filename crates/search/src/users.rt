//! The first user for whom a rule is broken alone. A search that ends with nothing leaves the rules
//! that mattered; a later user whom all of these cover needs no search.
ghost use Rattle.std.specs.Prelude.{◌≡◌, true, ◌&&◌, ℕ, ◌<◌, ltb, get_or};
ghost use Rattle.book.specs.Sets.{has};
ghost use Rattle.search.specs.Inner.Closing.{Within};
ghost use Rattle.search.specs.Inner.Search.{asked, covers_in, others_for, triple_before, AllSettle, SearchedFor, NeedsFirst};

use crate::places::Places;
use crate::searching::search;
use crate::sifting::Takers;
use crate::tables::Question;
use book::sets::{contains, those_below};

/// The first user who breaks a rule alone, and the places of the first choice.
#[derive(Clone, Copy, Debug, PartialEq, Eq)]
pub struct Witness {
    pub user: u8,
    pub places: Places,
}

// A word and no `None`: it has bits past the 32 rules, so that no set of rules holds all of it.
/// A mask that settles nothing.
const UNSETTLED: u64 = u64::MAX;

/// Whether rule q covers user u.
pub fn covers(covered: &[u64; 32], q: u8, u: u8) -> bool
    ensures { result ≡ covers_in covered.now q u }
{
    q < 32 && contains(covered[usize::from(q)], usize::from(u))
}

/// The rules other than r that cover user u.
pub fn others(covered: &[u64; 32], r: u8, u: u8) -> u64
    ensures { (q : ℕ) → has result q ≡ (ltb q 32 && others_for r covered.now u q) }
{
    those_below(32, |q| covers(covered, q, u) & (q != r))
}

/// Whether all rules of one of the masks are in a set. Only `true` is promised: it spares a search,
/// and after `false` the user is searched for.
fn settled(masks: &[u64; 32], rules: u64) -> bool
    ensures { result ≡ true → (i : ℕ) × (i < 32) × Within (has (get_or masks.now i 0)) (has rules) }
{
    masks.iter().any(|mask| *mask & !rules == 0)
}

/// The search for user u, given the masks from the users before.
fn search_for(
    ask: &Question,
    had: [u64; 32],
    covered: &[u64; 32],
    masks: &[u64; 32],
    u: u8,
    takers: &mut Takers,
) -> Option<Places>
    ensures { asked AllSettle ask.now had masks.now
        → asked SearchedFor ask.now had covered.now u takers.new.rules result }
{
    takers.rules = UNSETTLED;
    if !covers(covered, ask.rule, u) {
        return None;
    }
    let rules = others(covered, ask.rule, u);
    if settled(masks, rules) {
        return None;
    }
    search(ask, had, rules, takers)
}

// `had` by value: a form that document 01 names.
/// The first user, and the first choice for it in document 01's order, by the tables.
pub fn first_user(ask: &Question, had: [u64; 32], covered: &[u64; 32]) -> Option<Witness>
    ensures { asked (NeedsFirst triple_before) ask.now had covered.now result }
{
    let mut masks = [UNSETTLED; 32];
    let mut takers = Takers { rules: 0, last: 0 };
    // By number: each turn reads all masks and writes one.
    for user in 0..32u8 {
        let found = search_for(ask, had, covered, &masks, user, &mut takers);
        if let Some(places) = found {
            return Some(Witness { user, places });
        }
        masks[usize::from(user)] = takers.rules;
    }
    None
}
