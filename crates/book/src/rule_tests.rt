//! The tests 4 and 7 to 9 of a rule block. Where a test leans on what blocks 0 and 1 have passed, its
//! promise says so.
ghost use Rattle.std.specs.Prelude.{◌≡◌, ℕ, ◌&&◌, ◌||◌, not, ◌+◌, ◌*◌, ◌^◌, ◌<◌, eqb};
ghost use Rattle.std.specs.Int.Bits.{bit_and};
ghost use Rattle.book.specs.Lists.{all, up_to};
ghost use Rattle.book.specs.Sets.{has};
ghost use Rattle.book.specs.Rule.{restriction_mask};
ghost use Rattle.book.specs.Refusals.{names_action, reference_end, rule_counts, rule_zeros, zeros};
ghost use Rattle.book.specs.Inner.Testing.{AllowedTold, exclusion_counts_hold, MasksTold, NumbersTold, ReferenceTold, ReferredTo};
ghost use Rattle.book.specs.Inner.Faults.{outcome_at, refusal_at};
ghost use Rattle.book.specs.Inner.Testing.{RuleTested, UserNumbersTold};

use crate::fields::{
    action, data_category, excluded_user_count, excluded_users, exclusion_count, exclusions,
    reference_count, restriction_count, restriction_mask, user_category,
};
use crate::rules::covered_leaves;
use crate::sets::contains;
use crate::testing::{within, zeros};
use crate::words::{Categories, Words};
use crate::{Action, Refusal};

fn exclusion_counts_hold(rule: &[u8]) -> bool
    ensures { result ≡ exclusion_counts_hold rule.now }
{
    // `as u8`, here and below: a count is a byte, and the check proves that the index fits.
    (0..reference_count(rule)).all(|i| within(0, 8, exclusion_count(rule, i as u8)))
}

#[tactic(auto, unfolding(crate::specs::Refusals::rule_counts))]
fn rule_counts(rule: &[u8]) -> bool
    ensures { result ≡ rule_counts rule.now }
{
    within(1, 3, reference_count(rule))
        & (within(0, 4, excluded_user_count(rule))
            & (within(0, 8, restriction_count(rule)) & exclusion_counts_hold(rule)))
}

/// The first unused byte of the slot of reference i: an absent reference uses none.
#[tactic(auto, unfolding(crate::specs::Refusals::reference_end))]
fn reference_end(rule: &[u8], i: u8) -> usize
    ensures { result ≡ reference_end rule.now i }
{
    let at = usize::from(i);
    if at < reference_count(rule) {
        return 19 + 16 * at + exclusion_count(rule, i);
    }
    16 + 16 * at
}

fn slot_zeros(rule: &[u8], i: u8) -> bool
    ensures { result ≡ zeros rule.now (reference_end rule.now i) (32 + 16 * i) }
{
    let at = usize::from(i);
    zeros(rule, reference_end(rule, i), 32 + 16 * at)
}

#[tactic(auto, using(crate::proofs::Lists::all_three), unfolding(crate::specs::Refusals::rule_zeros))]
fn rule_zeros(rule: &[u8]) -> bool
    ensures { result ≡ rule_zeros rule.now }
{
    zeros(rule, 4 + excluded_user_count(rule), 8)
        & (zeros(rule, 9, 16)
            & ((slot_zeros(rule, 0) & (slot_zeros(rule, 1) & slot_zeros(rule, 2)))
                & zeros(rule, 64 + 6 * restriction_count(rule), 510)))
}

/// Whether x is a proper descendant of c, under which `inside` holds what there is.
fn is_proper(inside: u64, c: usize, x: usize) -> bool
    ensures { result ≡ (not (eqb x c) && has inside x) }
{
    (x != c) & contains(inside, x)
}

fn all_proper(inside: u64, c: usize, list: &[u8]) -> bool
    ensures { result ≡ all (λ x. not (eqb x c) && has inside x) list.now }
{
    list.iter().all(|x| is_proper(inside, c, usize::from(*x)))
}

fn user_numbers_hold(words: &Words, rule: &[u8]) -> bool
    ensures { UserNumbersTold words.now rule.now result }
{
    let users = &words.users;
    let c = user_category(rule);
    (c < usize::from(users.count)) & all_proper(users.under(c), c, excluded_users(rule))
}

// `rule` and `i` stay two: these bytes are not accepted yet, and no fact goes with them.
/// Whether a reference's numbers hold: its category, its exclusions, its action.
fn reference_holds(categories: &Categories, c: usize, list: &[u8], named: Option<Action>) -> bool
    ensures { ReferenceTold categories.now c list.now named result }
{
    let proper = all_proper(categories.under(c), c, list);
    (c < usize::from(categories.count)) & (named.is_some() & proper)
}

/// The leaves of reference i, if its numbers hold. An absent one has none.
fn read_reference(words: &Words, rule: &[u8], i: u8) -> Option<u64>
    ensures { ReferredTo words.now rule.now i result }
{
    if reference_count(rule) <= usize::from(i) {
        return Some(0);
    }
    let categories = &words.categories;
    let c = data_category(rule, i);
    let list = exclusions(rule, i);
    if !reference_holds(categories, c, list, action(rule, i)) {
        return None;
    }
    Some(covered_leaves(categories, c, list))
}

/// The leaves of the three references, if the numbers of the rule hold.
fn read_references(words: &Words, rule: &[u8]) -> Option<[u64; 3]>
    ensures { NumbersTold words.now rule.now result }
{
    if !user_numbers_hold(words, rule) {
        return None;
    }
    let a = read_reference(words, rule, 0)?;
    let b = read_reference(words, rule, 1)?;
    let c = read_reference(words, rule, 2)?;
    Some([a, b, c])
}

fn leaves_apart(a: u64, b: u64, c: u64) -> bool
    ensures apart { result ≡ (eqb (bit_and b a) 0 && (eqb (bit_and c a) 0 && eqb (bit_and c b) 0)) }
    ensures words { (a < 2 ^ 64) × (b < 2 ^ 64) × (c < 2 ^ 64) }
{
    (b & a == 0) & ((c & a == 0) & (c & b == 0))
}

/// The operations that a mask for reference i may name; none for an absent reference.
fn allowed_operations(words: &Words, rule: &[u8], i: u8) -> u64
    ensures { AllowedTold words.now rule.now i result }
{
    if usize::from(i) < reference_count(rule) {
        return words.support(data_category(rule, i)) & !1;
    }
    0
}

fn mask_holds(rule: &[u8], j: u8, i: u8, allowed: u64) -> bool
    ensures { result ≡ all (λ k. not (has (restriction_mask rule.now j i) k) || has allowed k) (up_to 16) }
{
    restriction_mask(rule, j, i) & !allowed == 0
}

fn masks_hold(words: &Words, rule: &[u8]) -> bool
    ensures { MasksTold words.now rule.now result }
{
    let a = allowed_operations(words, rule, 0);
    let b = allowed_operations(words, rule, 1);
    let c = allowed_operations(words, rule, 2);
    (0..restriction_count(rule)).all(|row| {
        let j = row as u8;
        mask_holds(rule, j, 0, a) & (mask_holds(rule, j, 1, b) & mask_holds(rule, j, 2, c))
    })
}

/// Which test of a rule block fails first: its refusal without the block's number.
#[derive(Clone, Copy, Debug, PartialEq, Eq)]
pub enum RuleFault {
    CountOrZero,
    RuleNumber,
    SharedLeaf,
    MaskOperation,
}

impl RuleFault {
    /// The refusal, where the rule stands in that block of a book.
    pub fn at(self, block: u8) -> Refusal
        ensures { result ≡ refusal_at block self }
    {
        match self {
            RuleFault::CountOrZero => Refusal::CountOrZero { block },
            RuleFault::RuleNumber => Refusal::RuleNumber { block },
            RuleFault::SharedLeaf => Refusal::SharedLeaf { block },
            RuleFault::MaskOperation => Refusal::MaskOperation { block },
        }
    }
}

/// The tests of a rule block, whatever its number. What the promise asks is what blocks 0 and 1 have
/// passed.
pub fn test_rule_block(words: &Words, rule: &[u8]) -> Result<(), RuleFault>
    ensures { (i : ℕ) → RuleTested words.now rule.now i (outcome_at i result) }
{
    if !(rule_counts(rule) & rule_zeros(rule)) {
        return Err(RuleFault::CountOrZero);
    }
    let [a, b, c] = read_references(words, rule).ok_or(RuleFault::RuleNumber)?;
    if !leaves_apart(a, b, c) {
        return Err(RuleFault::SharedLeaf);
    }
    if !masks_hold(words, rule) {
        return Err(RuleFault::MaskOperation);
    }
    Ok(())
}
