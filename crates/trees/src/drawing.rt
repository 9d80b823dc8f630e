//! Tree: the lineage tree of a value row, as text at the front of a lent buffer.
ghost use Rattle.std.specs.Prelude.{◌≡◌, true, ◌<◌, Ok, Err, IfOk};
ghost use Rattle.book.specs.Tests.{answered, first_failing};
ghost use Rattle.lineage.specs.Rows.{is_value, kind_at};
ghost use Rattle.trees.specs.Text.{tree_text};
ghost use Rattle.trees.specs.Answers.{drawn, room_tests, tree_row_tests, tree_answer, tree_buffer, value_tests, written};
ghost use Rattle.trees.specs.Demand.{Draws};

use crate::Written;
use crate::lines::{text_length, write_lines};
use crate::walking::{Nodes, list_tree};
use book::bytes::byte_at;
use book::testing::ensure;
use book::{Book, Refusal};
use lineage::rows::{is_value, test_plan};

/// The tree of a value row, or 30. Its nodes are listed, and the text's length is known, before anything
/// is written.
fn write_tree(plan: &[u8], row: u8, buffer: &mut [u8]) -> Result<Written, Refusal>
    ensures { row < 64
        → is_value (kind_at plan.now row) ≡ true
        → (result ≡ answered (room_tests plan.now row buffer.old) Err (Ok (drawn plan.now row)))
        × (buffer.new ≡ answered (room_tests plan.now row buffer.old)
        (λ refusal. buffer.old) (written (tree_text plan.now row) buffer.old)) }
{
    let mut nodes = Nodes::new();
    list_tree(plan, row, &mut nodes).map_err(|_| Refusal::TreeSize)?;
    let length = text_length(plan, nodes.as_slice());
    if buffer.len() < length {
        return Err(Refusal::TreeSize);
    }
    write_lines(plan, nodes.as_slice(), buffer);
    // 4096 nodes and 2129920 bytes at most: the check proves that both casts fit.
    Ok(Written {
        nodes: nodes.len() as u32,
        length: length as u32,
    })
}

/// The test 29.
fn test_value(plan: &[u8], row: u32) -> Result<(), Refusal>
    ensures { result ≡ first_failing (value_tests plan.now row) }
{
    // `as`: `usize` has no `From<u32>`.
    let at = row as usize;
    let there = at < plan.len() / 4;
    // The kind's byte: `Row::read` takes a row's number, and the row asked for may be past 255.
    let kind = usize::from(byte_at(plan, 4 * at));
    ensure(there & is_value(kind), Refusal::NoValueRow)
}

/// The tests of the book, of the plan, of the row.
#[tactic(auto, using(book::proofs::Answers::list_stopped, book::proofs::Answers::list_went_on), unfolding(crate::specs::Answers::tree_row_tests))]
fn test_row(book: &[u8], plan: &[u8], row: u32) -> Result<(), Refusal>
    ensures { result ≡ first_failing (tree_row_tests book.now plan.now row) }
{
    let book = Book::new(book)?;
    test_plan(book.head(), plan)?;
    test_value(plan, row)
}

/// Tree: a line for each node at the buffer's front, and how many nodes and bytes that is. A refusal
/// leaves the buffer as it was.
pub fn tree(book: &[u8], plan: &[u8], row: u32, buffer: &mut [u8]) -> Result<Written, Refusal>
    ensures answer { result ≡ tree_answer book.now plan.now row buffer.old }
    ensures buffer { buffer.new ≡ tree_buffer book.now plan.now row buffer.old }
    ensures draws { IfOk result (λ written.
        Draws plan.now row buffer.old buffer.new written.nodes written.length) }
{
    test_row(book, plan, row)?;
    // Tested: the row is one of 64, and the cast is proved to fit.
    write_tree(plan, row as u8, buffer)
}
