//! The blocks of a book, and the fields of the head blocks and of a rule block, read at any index.
//! `head` is the first four blocks of a book, `rule` one rule block; both may have any length. The
//! numbers of a book are bytes, so an index is a u8.
ghost use Rattle.std.specs.Prelude.{◌≡◌, ◌≤◌, ◌<◌, ◌+◌, ◌*◌};
ghost use Rattle.book.specs.Blocks.{block_at, head_of, rule_at, rule_count};
ghost use Rattle.book.specs.Head.{category_start, column_count, function_count, has_withdrawn, label, operation};
ghost use Rattle.book.specs.Head.{own_operations, withdrawn_operations};
ghost use Rattle.book.specs.Rule.{action, data_category, excluded_user_count, excluded_users, exclusion_count};
ghost use Rattle.book.specs.Rule.{exclusions, reference_count, restriction_count, restriction_mask, user_category};
ghost use Rattle.book.specs.Inner.Reading.{count_in, parent_in};

use crate::bytes::{byte_at, part};
use crate::{Action, Hierarchy};

// Offsets and no struct: the C interface lends a book as bytes, of any length.
// Readers that differ in an offset alone stay: each has the name and the promise of its field.
// Counts are `usize`, as they promise. Each `as` is proved to fit; `try_from` would be a branch.

/// The four head blocks.
pub fn head_of(book: &[u8]) -> &[u8]
    ensures { result.now ≡ head_of book.now }
{
    part(book, 0, 2048)
}

/// Block i of a book.
pub fn block_at(book: &[u8], i: u8) -> &[u8]
    ensures { result.now ≡ block_at book.now i }
{
    let at = usize::from(i);
    part(book, 512 * at, 512)
}

/// The block of rule r.
pub fn rule_at(book: &[u8], r: u8) -> &[u8]
    ensures { result.now ≡ rule_at book.now r }
{
    let at = usize::from(r);
    part(book, 512 * (4 + at), 512)
}

/// The number of rules of an accepted book.
pub fn rule_count(book: &[u8]) -> u8
    ensures { (rule_count book.now ≤ 32 → result ≡ rule_count book.now) × (result ≤ 32) }
{
    let n = (book.len() / 512).saturating_sub(4);
    if 32 < n {
        return 0;
    }
    n as u8
}

/// How many categories a hierarchy has.
pub fn count(head: &[u8], which: Hierarchy) -> usize
    ensures { (result ≡ count_in which head.now) × (result ≤ 255) }
{
    match which {
        Hierarchy::Users => usize::from(byte_at(head, 1)),
        Hierarchy::Data => usize::from(byte_at(head, 513)),
    }
}

/// Whether the data block has a withdrawn mask for each category: whether its kind is 6.
fn has_withdrawn(head: &[u8]) -> bool
    ensures { result ≡ has_withdrawn head.now }
{
    byte_at(head, 512) == 6
}

/// The one place that knows how many bytes a data category has: the first byte of category i.
#[tactic(auto, unfolding(crate::specs::Head::category_start))]
pub fn category_start(head: &[u8], i: u8) -> usize
    ensures { (result ≡ category_start head.now i) × (result ≤ 1789) }
{
    let at = usize::from(i);
    if has_withdrawn(head) {
        return 514 + 5 * at;
    }
    514 + 3 * at
}

/// The number that category i names as its parent; a root names itself.
pub fn parent(head: &[u8], which: Hierarchy, i: u8) -> usize
    ensures { (result ≡ parent_in which head.now i) × (result ≤ 255) }
{
    match which {
        Hierarchy::Users => usize::from(byte_at(head, 2 + usize::from(i))),
        Hierarchy::Data => usize::from(byte_at(head, category_start(head, i))),
    }
}

/// A mask of two bytes, high byte first.
fn mask_of(high: u8, low: u8) -> u64
    ensures { (result ≡ 256 * high + low) × (result < 65536) }
{
    256 * u64::from(high) + u64::from(low)
}

/// The mask of the operations that a data category owns.
pub fn own_operations(head: &[u8], i: u8) -> u64
    ensures { (result ≡ own_operations head.now i) × (result < 65536) }
{
    let at = category_start(head, i);
    mask_of(byte_at(head, at + 1), byte_at(head, at + 2))
}

/// The mask of the operations that a data category withdraws: none in a block of kind 2.
#[tactic(auto, unfolding(crate::specs::Head::withdrawn_operations))]
pub fn withdrawn_operations(head: &[u8], i: u8) -> u64
    ensures { (result ≡ withdrawn_operations head.now i) × (result < 65536) }
{
    if has_withdrawn(head) {
        let at = category_start(head, i);
        return mask_of(byte_at(head, at + 3), byte_at(head, at + 4));
    }
    0
}

/// How many columns there are.
pub fn column_count(head: &[u8]) -> usize
    ensures { (result ≡ column_count head.now) × (result ≤ 255) }
{
    usize::from(byte_at(head, 1025))
}

/// The label of column i: a data category, or 255 for none.
pub fn label(head: &[u8], i: u8) -> usize
    ensures { (result ≡ label head.now i) × (result ≤ 255) }
{
    let at = usize::from(i);
    usize::from(byte_at(head, 1026 + at))
}

/// How many functions there are.
pub fn function_count(head: &[u8]) -> usize
    ensures { (result ≡ function_count head.now) × (result ≤ 255) }
{
    usize::from(byte_at(head, 1537))
}

/// The operation of function i.
pub fn operation(head: &[u8], i: u8) -> usize
    ensures { (result ≡ operation head.now i) × (result ≤ 255) }
{
    let at = usize::from(i);
    usize::from(byte_at(head, 1538 + at))
}

/// How many references a rule has.
pub fn reference_count(rule: &[u8]) -> usize
    ensures { (result ≡ reference_count rule.now) × (result ≤ 255) }
{
    usize::from(byte_at(rule, 1))
}

/// The user category that a rule is about.
pub fn user_category(rule: &[u8]) -> usize
    ensures { (result ≡ user_category rule.now) × (result ≤ 255) }
{
    usize::from(byte_at(rule, 2))
}

/// How many user categories a rule excludes.
pub fn excluded_user_count(rule: &[u8]) -> usize
    ensures { (result ≡ excluded_user_count rule.now) × (result ≤ 255) }
{
    usize::from(byte_at(rule, 3))
}

/// The user categories that a rule excludes.
pub fn excluded_users(rule: &[u8]) -> &[u8]
    ensures { result.now ≡ excluded_users rule.now }
{
    part(rule, 4, excluded_user_count(rule))
}

/// How many restrictions a rule has.
pub fn restriction_count(rule: &[u8]) -> usize
    ensures { (result ≡ restriction_count rule.now) × (result ≤ 255) }
{
    usize::from(byte_at(rule, 8))
}

/// The data category that reference i names.
pub fn data_category(rule: &[u8], i: u8) -> usize
    ensures { (result ≡ data_category rule.now i) × (result ≤ 255) }
{
    let at = usize::from(i);
    usize::from(byte_at(rule, 16 + 16 * at))
}

/// The action that reference i names, if its byte names one.
#[tactic(auto, using(crate::proofs::Actions::action_other), unfolding(crate::specs::Rule::action_of))]
pub fn action(rule: &[u8], i: u8) -> Option<Action>
    ensures { result ≡ action rule.now i }
{
    // No `TryFrom`: this reader alone asks, and an error would say no more than an `Option`.
    match byte_at(rule, 17 + 16 * usize::from(i)) {
        1 => Some(Action::Projection),
        2 => Some(Action::Condition),
        3 => Some(Action::Access),
        _ => None,
    }
}

/// How many data categories reference i excludes.
pub fn exclusion_count(rule: &[u8], i: u8) -> usize
    ensures { (result ≡ exclusion_count rule.now i) × (result ≤ 255) }
{
    let at = usize::from(i);
    usize::from(byte_at(rule, 18 + 16 * at))
}

/// The data categories that reference i excludes.
pub fn exclusions(rule: &[u8], i: u8) -> &[u8]
    ensures { result.now ≡ exclusions rule.now i }
{
    let at = usize::from(i);
    part(rule, 19 + 16 * at, exclusion_count(rule, i))
}

/// The mask of restriction j for reference i.
pub fn restriction_mask(rule: &[u8], j: u8, i: u8) -> u64
    ensures { (result ≡ restriction_mask rule.now j i) × (result < 65536) }
{
    let at = 64 + 6 * usize::from(j) + 2 * usize::from(i);
    mask_of(byte_at(rule, at), byte_at(rule, at + 1))
}
