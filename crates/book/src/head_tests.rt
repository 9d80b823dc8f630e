//! The tests 4 to 6 of the four head blocks.
ghost use Rattle.std.specs.Prelude.{◌≡◌, ◌||◌, eqb};
ghost use Rattle.book.specs.Sets.{has};
ghost use Rattle.book.specs.Hierarchies.{parent_holds};
ghost use Rattle.book.specs.Tests.{first_failing};
ghost use Rattle.book.specs.Refusals.{columns_block_tests, data_block_tests, functions_block_tests, functions_hold};
ghost use Rattle.book.specs.Refusals.{labels_hold, own_holds, users_block_tests};
ghost use Rattle.book.specs.Inner.Reading.{parent_in};
ghost use Rattle.book.specs.Inner.Testing.{CountedWords, owns_hold, parents_hold};

use crate::fields::{
    category_start, column_count, count, function_count, label, operation, own_operations, parent,
    withdrawn_operations,
};
use crate::sets::contains;
use crate::testing::{ensure, within, zeros};
use crate::words::Words;
use crate::{Hierarchy, Refusal};

fn parent_holds(head: &[u8], which: Hierarchy, i: u8) -> bool
    ensures { result ≡ parent_holds (parent_in which head.now) i }
{
    let p = parent(head, which, i);
    if i == 0 {
        return p == 0;
    }
    p < usize::from(i)
}

fn parents_hold(head: &[u8], which: Hierarchy) -> bool
    ensures { result ≡ parents_hold which head.now }
{
    // `as u8`, here and below: a count is a byte, and the check proves that the index fits.
    (0..count(head, which)).all(|i| parent_holds(head, which, i as u8))
}

/// Whether neither mask of a category has operation 0, and no operation is in both.
#[tactic(auto, using(crate::proofs::Members::even), unfolding(crate::specs::Refusals::own_holds))]
fn own_holds(head: &[u8], i: u8) -> bool
    ensures { result ≡ own_holds head.now i }
{
    let own = own_operations(head, i);
    let withdrawn = withdrawn_operations(head, i);
    (own % 2 == 0) & ((withdrawn % 2 == 0) & (own & withdrawn == 0))
}

fn owns_hold(head: &[u8]) -> bool
    ensures { result ≡ owns_hold head.now }
{
    (0..count(head, Hierarchy::Data)).all(|i| own_holds(head, i as u8))
}

// Four functions: one for all would take seven arguments, and each has a few lines.

/// The tests 4 and 5 of block 0.
#[tactic(auto, unfolding(crate::specs::Tests::first_failing, crate::specs::Refusals::users_block_tests, crate::specs::Refusals::users_counted, crate::specs::Refusals::users_ordered))]
pub fn test_users_block(head: &[u8]) -> Result<(), Refusal>
    ensures { result ≡ first_failing (users_block_tests head.now) }
{
    let n = count(head, Hierarchy::Users);
    let counted = within(1, 32, n) & zeros(head, 2 + n, 510);
    ensure(counted, Refusal::CountOrZero { block: 0 })?;
    let ordered = parents_hold(head, Hierarchy::Users);
    ensure(ordered, Refusal::ParentOrOwn { block: 0 })
}

/// The tests 4 and 5 of block 1.
#[tactic(auto, unfolding(crate::specs::Tests::first_failing, crate::specs::Refusals::data_block_tests, crate::specs::Refusals::data_counted, crate::specs::Refusals::data_ordered))]
pub fn test_data_block(head: &[u8]) -> Result<(), Refusal>
    ensures { result ≡ first_failing (data_block_tests head.now) }
{
    let n = count(head, Hierarchy::Data);
    let counted = within(1, 64, n) & zeros(head, category_start(head, n as u8), 1022);
    ensure(counted, Refusal::CountOrZero { block: 1 })?;
    let ordered = parents_hold(head, Hierarchy::Data) & owns_hold(head);
    ensure(ordered, Refusal::ParentOrOwn { block: 1 })
}

/// Whether a label is 255 or a member of the data leaves.
fn label_holds(leaves: u64, d: usize) -> bool
    ensures { result ≡ (eqb d 255 || has leaves d) }
{
    // 255 is the format's: `label` promises the byte as it stands.
    (d == 255) | contains(leaves, d)
}

fn labels_hold(head: &[u8], words: &Words) -> bool
    ensures { CountedWords head.now words.now → result ≡ labels_hold head.now }
{
    let leaves = words.categories.leaves;
    (0..column_count(head)).all(|i| label_holds(leaves, label(head, i as u8)))
}

/// The tests 4 and 6 of block 2.
#[tactic(auto, unfolding(crate::specs::Tests::first_failing, crate::specs::Refusals::columns_block_tests, crate::specs::Refusals::columns_counted))]
pub fn test_columns_block(head: &[u8], words: &Words) -> Result<(), Refusal>
    ensures { CountedWords head.now words.now
        → result ≡ first_failing (columns_block_tests head.now) }
{
    let n = column_count(head);
    let counted = within(0, 128, n) & zeros(head, 1026 + n, 1534);
    ensure(counted, Refusal::CountOrZero { block: 2 })?;
    ensure(
        labels_hold(head, words),
        Refusal::LabelOrFunction { block: 2 },
    )
}

fn operations_hold(head: &[u8]) -> bool
    ensures { result ≡ functions_hold head.now }
{
    (0..function_count(head)).all(|i| operation(head, i as u8) <= 15)
}

/// The tests 4 and 6 of block 3.
#[tactic(auto, unfolding(crate::specs::Tests::first_failing, crate::specs::Refusals::functions_block_tests, crate::specs::Refusals::functions_counted))]
pub fn test_functions_block(head: &[u8]) -> Result<(), Refusal>
    ensures { result ≡ first_failing (functions_block_tests head.now) }
{
    let n = function_count(head);
    let counted = within(0, 64, n) & zeros(head, 1538 + n, 2046);
    ensure(counted, Refusal::CountOrZero { block: 3 })?;
    ensure(operations_hold(head), Refusal::LabelOrFunction { block: 3 })
}
