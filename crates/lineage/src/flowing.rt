//! Flows: the accesses of a plan, written to a lent buffer.
ghost use Rattle.std.specs.Prelude.{◌≡◌};
ghost use Rattle.lineage.specs.Answers.{flows_answer, flows_words};

use crate::accesses::accesses;
use crate::rows::test_plan;
use book::testing::ensure;
use book::{Book, Refusal};

// `words` is a slice: the C interface, and a form that document 01 names.
/// Flows: bit d of word 16 × s + k is set exactly when (s, d, k) is an access of the plan. A refusal
/// leaves the words as they were.
pub fn flows(book: &[u8], plan: &[u8], words: &mut [u64]) -> Result<(), Refusal>
    ensures answer { result ≡ flows_answer book.now plan.now words.old }
    ensures words { words.new ≡ flows_words book.now plan.now words.old }
{
    let book = Book::new(book)?;
    test_plan(book.head(), plan)?;
    ensure(words.len() == 32, Refusal::WordCount)?;
    words.copy_from_slice(&accesses(book.bytes, &book.words, plan));
    Ok(())
}
