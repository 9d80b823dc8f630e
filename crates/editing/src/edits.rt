//! Arrive and Depart. The new book is built beside the old one and written back once it is accepted, so
//! that a refusal changes nothing.
ghost use Rattle.std.specs.Prelude.{◌≡◌, ◌≤◌, ◌<◌, ◌++◌, length, Ok, Err, IfOk, IfErr, OnOk};
ghost use Rattle.book.specs.Blocks.{head_of};
ghost use Rattle.book.specs.Tests.{first_failing, Passes};
ghost use Rattle.book.specs.Inner.Words.{HeadWords};
ghost use Rattle.editing.specs.Books.{with_rule, without_rule};
ghost use Rattle.editing.specs.Record.{book_in, laid};
ghost use Rattle.editing.specs.Answers.{arrive_answer, arrive_blocks, arrive_marks, arrive_rules};
ghost use Rattle.editing.specs.Answers.{depart_answer, depart_blocks, depart_marks, depart_rules, depart_tests};
ghost use Rattle.editing.specs.Answers.{new_block_tests, room_tests};
ghost use Rattle.editing.specs.Edits.{Arrive, Depart};
ghost use Rattle.editing.specs.Demand.{Arrives, ArriveAccepted, Continues, Departs, DepartAccepted};

use crate::laying::lay;
use crate::marking::{arrival_marks, departure_marks};
use book::testing::ensure;
use book::words::Words;
use book::{Book, Refusal};
use search::idling::test_rule;

/// The record that is edited, lent: 36 blocks with a book at the front, the number of its rules, and the
/// mask of those that are idle.
#[derive(Drop)]
struct Lent<'a> {
    blocks: &'a mut [u8; 18432],
    rules: &'a mut u32,
    marks: &'a mut u32,
}

// `u32 as usize`, here and in marking: `usize` has no `From` of a `u32`.
impl Lent<'_> {
    /// The tests of the number of rules and of the block; the book with the new block, laid in `next`.
    #[tactic(auto, unfolding(crate::specs::Record::laid, crate::specs::Record::book_in, crate::specs::Books::with_rule, crate::specs::Answers::room_tests, crate::specs::Answers::new_block_tests, book::specs::Tests::first_failing))]
    fn lay_with(&self, next: &mut [u8; 18432], block: &[u8]) -> Result<(), Refusal>
        ensures tested { result ≡ first_failing (room_tests self.now.rules.now ++ new_block_tests block.now) }
        ensures room { result ≡ Ok tt → self.now.rules.now < 32 }
        ensures lies { result ≡ Ok tt
            → next.new ≡ laid (with_rule (book_in self.now.blocks.now self.now.rules.now) block.now) }
    {
        let rules = *self.rules;
        ensure(rules < 32, Refusal::RulesFull)?;
        ensure(block.len() == 512, Refusal::BookLength)?;
        let blocks: &[u8] = &*self.blocks;
        lay(next, &blocks[..512 * (4 + rules as usize)], block);
        Ok(())
    }

    /// The tests of the number of rules, of the book as it is, of the rule's number: the words of the
    /// book's head, or the refusal that comes first.
    fn test_departure(&self, rule: u32) -> Result<Words, Refusal>
        ensures words { IfOk result (λ words. HeadWords (head_of self.now.blocks.now) words) }
        ensures passed { OnOk result (Passes (depart_tests self.now.blocks.now self.now.rules.now rule)) }
        ensures refused { IfErr result (λ refusal.
            first_failing (depart_tests self.now.blocks.now self.now.rules.now rule) ≡ Err refusal) }
    {
        let rules = *self.rules;
        ensure(rules <= 32, Refusal::BookLength)?;
        let blocks: &[u8] = &*self.blocks;
        let book = Book::new(&blocks[..512 * (4 + rules as usize)])?;
        test_rule(book.bytes, rule)?;
        Ok(book.words)
    }

    /// The book without a rule, laid in `next`.
    #[tactic(auto, unfolding(crate::specs::Record::laid, crate::specs::Record::book_in, crate::specs::Books::without_rule))]
    fn lay_without(&self, next: &mut [u8; 18432], rule: u32)
        ensures { self.now.rules.now ≤ 32 → rule < self.now.rules.now
            → next.new ≡ laid (without_rule (book_in self.now.blocks.now self.now.rules.now) rule) }
    {
        let rules = *self.rules;
        if 32 < rules || rules <= rule {
            return;
        }
        let at = 512 * (4 + rule as usize);
        let end = 512 * (4 + rules as usize);
        let blocks: &[u8] = &*self.blocks;
        lay(next, &blocks[..at], &blocks[at + 512..end]);
    }
}

// Three pointers, and the number of rules beside the blocks: the C interface has them so.
// `arrive` and `depart` stay two: their tests, the parts that they lay and the marks that they keep
// differ, and what one function would share is the four lines that write.
/// Arrive: a rule block behind the last rule. A refusal changes nothing.
pub fn arrive(
    blocks: &mut [u8; 18432],
    rules: &mut u32,
    marks: &mut u32,
    block: &[u8],
) -> Result<u32, Refusal>
    ensures answer { result ≡ arrive_answer blocks.old rules.old block.now marks.old }
    ensures blocks { blocks.new ≡ arrive_blocks blocks.old rules.old block.now }
    ensures rules { rules.new ≡ arrive_rules blocks.old rules.old block.now }
    ensures marks { marks.new ≡ arrive_marks blocks.old rules.old block.now marks.old }
    ensures says { ArriveAccepted blocks.old rules.old block.now
        → Arrives blocks.old rules.old marks.old block.now marks.new }
    ensures continues { Continues (Arrive block.now)
        (record { blocks = blocks.old; rules = rules.old; marks = marks.old })
        (record { blocks = blocks.new; rules = rules.new; marks = marks.new }) }
{
    let record = Lent {
        blocks,
        rules,
        marks,
    };
    let n = *record.rules;
    let mut next = [0; 18432];
    record.lay_with(&mut next, block)?;
    let book = Book::new(&next[..512 * (5 + n as usize)])?;
    let mask = arrival_marks(book.bytes, &book.words, n, *record.marks);
    record.blocks.copy_from_slice(&next);
    *record.rules = n + 1;
    *record.marks = mask;
    Ok(mask)
}

/// Depart: a rule leaves, and later ones move down. A refusal changes nothing. The book without the rule
/// is not tested again: an accepted book's is accepted, and has its head.
pub fn depart(
    blocks: &mut [u8; 18432],
    rules: &mut u32,
    marks: &mut u32,
    rule: u32,
) -> Result<u32, Refusal>
    ensures answer { result ≡ depart_answer blocks.old rules.old rule marks.old }
    ensures blocks { blocks.new ≡ depart_blocks blocks.old rules.old rule }
    ensures rules { rules.new ≡ depart_rules blocks.old rules.old rule }
    ensures marks { marks.new ≡ depart_marks blocks.old rules.old rule marks.old }
    ensures says { DepartAccepted blocks.old rules.old rule
        → Departs blocks.old rules.old marks.old rule marks.new }
    ensures continues { Continues (Depart rule)
        (record { blocks = blocks.old; rules = rules.old; marks = marks.old })
        (record { blocks = blocks.new; rules = rules.new; marks = marks.new }) }
{
    let record = Lent {
        blocks,
        rules,
        marks,
    };
    let n = *record.rules;
    let words = record.test_departure(rule)?;
    let mut next = [0; 18432];
    record.lay_without(&mut next, rule);
    let book = Book {
        bytes: &next[..512 * (3 + n as usize)],
        words,
    };
    let mask = departure_marks(book.bytes, &book.words, rule, *record.marks);
    record.blocks.copy_from_slice(&next);
    *record.rules = n - 1;
    *record.marks = mask;
    Ok(mask)
}
