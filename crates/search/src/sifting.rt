//! Sets of places without what breaks a rule beside two places.
ghost use Rattle.std.specs.Prelude.{◌≡◌, true, false, ℕ, ◌≤◌, ◌<◌, get_or};
ghost use Rattle.book.specs.Sets.{has};
ghost use Rattle.search.specs.Inner.Closing.{TurnedBy, Sifted, remaining};

use crate::closing::{closing_masks, take_closing};
use crate::places::{is_empty, lowest};
use crate::tables::RuleTable;
use book::sets::{below, contains, single};

// Beside `rules` in the calls and not with them: rules are a user's, `last` outlives a user.
/// The rules that took places away, and which of them did so last.
#[derive(Clone, Copy)]
pub struct Takers {
    pub rules: u64,
    pub last: u8,
}

/// Rule q takes out of a set what breaks it by its masks.
fn turn(t: &[RuleTable], q: u8, masks: &[u64; 3], set: &mut [u64; 33], takers: &mut Takers)
    ensures { TurnedBy t.now q masks.now (remaining set.old takers.old) (remaining set.new takers.new) }
{
    if take_closing(t, q, masks, set) {
        takers.rules |= single(usize::from(q));
        takers.last = q;
    }
}

/// The first rule of a set after the one that took last, or else the first: so each has its turn in
/// time, and one that takes all alone is soon the one that took last.
fn next_after(rules: u64, last: u8) -> usize
    ensures { (result ≤ 64) × ((rules ≡ 0 → ⊥) → (result < 64) × (has rules result ≡ true)) }
{
    let later = rules & !below(usize::from(last) + 1);
    if later != 0 {
        return lowest(later);
    }
    lowest(rules)
}

/// The rule that took last has its turn first: it often takes all that is left.
fn again(t: &[RuleTable], rules: u64, b: usize, c: usize, set: &mut [u64; 33], takers: &mut Takers)
    ensures { Sifted t.now rules (λ q. false) b c (remaining set.old takers.old) (remaining set.new takers.new) }
{
    let q = takers.last;
    if (q < 32) & contains(rules, usize::from(q)) {
        turn(t, q, &closing_masks(t, q, b, c), set, takers);
    }
}

/// Takes out of a set what breaks a rule of some beside b and c. It ends where nothing is left.
pub fn sift(
    t: &[RuleTable],
    rules: u64,
    b: usize,
    c: usize,
    set: &mut [u64; 33],
    takers: &mut Takers,
)
    ensures { Sifted t.now rules (has rules) b c (remaining set.old takers.old) (remaining set.new takers.new) }
{
    again(t, rules, b, c, set, takers);
    if is_empty(set) {
        return;
    }
    let mut waiting = rules % 4294967296;
    // No iterator over the members: which is next depends on the rule that took last.
    while waiting != 0 {
        // A member is below 32: the check proves that the cast fits.
        let q = next_after(waiting, takers.last) as u8;
        waiting &= !single(usize::from(q));
        let masks = closing_masks(t, q, b, c);
        if masks == [0; 3] {
            continue;
        }
        turn(t, q, &masks, set, takers);
        if (takers.last == q) && is_empty(set) {
            return;
        }
    }
}
