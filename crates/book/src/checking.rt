//! Book check: the refusal that comes first, or the number of rules.
ghost use Rattle.std.specs.Prelude.{◌≡◌};
ghost use Rattle.book.specs.Blocks.{block_at, head_of};
ghost use Rattle.book.specs.Tests.{first_failing};
ghost use Rattle.book.specs.Lists.{flat, up_to};
ghost use Rattle.book.specs.Refusals.{book_tests, check_tests, content_tests, kind_holds, kind_tests, length_holds};
ghost use Rattle.book.specs.Answers.{check_answer};
ghost use Rattle.book.specs.Inner.Words.{HeadWords};
ghost use Rattle.book.specs.Inner.Testing.{ContentsAt};

use crate::Refusal;
use crate::books::Book;
use crate::bytes::byte_at;
use crate::fields::{block_at, head_of};
use crate::head_tests::{
    test_columns_block, test_data_block, test_functions_block, test_users_block,
};
use crate::rule_tests::test_rule_block;
use crate::sealing::check_holds;
use crate::testing::{ensure, first_refusal, within};
use crate::words::Words;

/// Whether a block with number i may have a kind.
// Numbers: beside `has_withdrawn` no code asks for a kind, and none keeps one.
fn kind_holds(i: u8, kind: u8) -> bool
    ensures { result ≡ kind_holds i kind }
{
    match i {
        0 => kind == 1,
        1 => (kind == 2) | (kind == 6),
        2 => kind == 3,
        3 => kind == 4,
        _ => kind == 5,
    }
}

/// The test 2 of block i.
#[tactic(auto, unfolding(crate::specs::Refusals::check_tests))]
fn test_check(book: &[u8], i: u8) -> Result<(), Refusal>
    ensures { result ≡ first_failing (check_tests book.now i) }
{
    ensure(
        check_holds(block_at(book, i)),
        Refusal::BlockCheck { block: i },
    )
}

/// The test 3 of block i.
#[tactic(auto, unfolding(crate::specs::Refusals::kind_tests))]
fn test_kind(book: &[u8], i: u8) -> Result<(), Refusal>
    ensures { result ≡ first_failing (kind_tests book.now i) }
{
    let kind = byte_at(block_at(book, i), 0);
    ensure(kind_holds(i, kind), Refusal::BlockKind { block: i })
}

/// The tests 4 to 9 of block i.
fn test_contents(head: &[u8], words: &Words, block: &[u8], i: u8) -> Result<(), Refusal>
    ensures { ContentsAt head.now words.now block.now i result }
{
    // A match: the five tests take three kinds of arguments, and each is called here alone.
    match i {
        0 => test_users_block(head),
        1 => test_data_block(head),
        2 => test_columns_block(head, words),
        3 => test_functions_block(head),
        _ => test_rule_block(words, block).map_err(|fault| fault.at(i)),
    }
}

fn length_holds(n: usize) -> bool
    ensures { result ≡ length_holds n }
{
    (n % 512 == 0) & within(4, 36, n / 512)
}

fn test_checks(book: &[u8], n: u8) -> Result<(), Refusal>
    ensures { result ≡ first_failing (flat (check_tests book.now) (up_to n)) }
{
    first_refusal(n, |i| test_check(book, i))
}

fn test_kinds(book: &[u8], n: u8) -> Result<(), Refusal>
    ensures { result ≡ first_failing (flat (kind_tests book.now) (up_to n)) }
{
    first_refusal(n, |i| test_kind(book, i))
}

fn test_block(book: &[u8], words: &Words, i: u8) -> Result<(), Refusal>
    ensures { ContentsAt (head_of book.now) words.now (block_at book.now i) i result }
{
    test_contents(head_of(book), words, block_at(book, i), i)
}

fn test_blocks(book: &[u8], words: &Words, n: u8) -> Result<(), Refusal>
    ensures { HeadWords (head_of book.now) words.now
        → result ≡ first_failing (flat (content_tests book.now) (up_to n)) }
{
    first_refusal(n, |i| test_block(book, words, i))
}

#[tactic(auto, using(crate::proofs::CheckLaws::checks_stopped, crate::proofs::CheckLaws::kinds_stopped, crate::proofs::CheckLaws::contents_left, crate::proofs::Answers::last_passed))]
/// The tests 1 to 9, by the words of the book's head: over all blocks the checks, then the kinds, then
/// what the blocks hold.
pub fn test_book(book: &[u8], words: &Words) -> Result<(), Refusal>
    ensures { HeadWords (head_of book.now) words.now
        → result ≡ first_failing (book_tests book.now) }
{
    ensure(length_holds(book.len()), Refusal::BookLength)?;
    // At most 36: the cast is proved to fit, and `try_from` would be a branch.
    let n = (book.len() / 512) as u8;
    test_checks(book, n)?;
    test_kinds(book, n)?;
    test_blocks(book, words, n)
}

#[tactic(auto, using(crate::proofs::Answers::answered_passed, crate::proofs::Answers::answered_refused), unfolding(crate::specs::Answers::check_answer))]
/// Book check: the number of rules. Any bytes are taken, and nothing is written.
pub fn check(book: &[u8]) -> Result<u32, Refusal>
    ensures { result ≡ check_answer book.now }
{
    let book = Book::new(book)?;
    Ok(u32::from(book.rule_count()))
}
