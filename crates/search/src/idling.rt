//! Idle: whether a rule is idle, or the first user and plan that break it alone.
ghost use Rattle.std.specs.Prelude.{◌≡◌, ◌≤◌, ◌<◌, length, Ok};
ghost use Rattle.book.specs.Blocks.{rule_count};
ghost use Rattle.book.specs.Tests.{first_failing};
ghost use Rattle.search.specs.Answers.{idle_answer, idle_buffer, rule_tests};
ghost use Rattle.search.specs.Demand.{Demand3, IdleAccepted};
ghost use Rattle.search.specs.Inner.First.{FirstNeeds, answer_of, buffer_of};

use crate::Shown;
use crate::obtaining::obtainable;
use crate::showing::{row_count, shown_plan, write_plan};
use crate::tables::{NO_TABLE, Question, covered_by, fill_table};
use crate::users::{Witness, first_user};
use crate::weighing::fewest;
use book::fields::reference_count;
use book::testing::ensure;
use book::{Book, Refusal};

/// The test 24.
#[tactic(auto, unfolding(crate::specs::Answers::rule_tests))]
pub fn test_rule(book: &[u8], rule: u32) -> Result<(), Refusal>
    ensures { result ≡ first_failing (rule_tests book.now rule) }
{
    let n = (book.len() / 512).saturating_sub(4);
    // `as`: `usize` has no `From<u32>`.
    ensure((rule as usize) < n, Refusal::NoRule)
}

/// The first user and choice that break a rule alone.
fn needs(book: &Book, rule: u8) -> Option<Witness>
    ensures { rule < rule_count book.now.bytes.now → FirstNeeds book.now.bytes.now rule result }
{
    let n = book.rule_count();
    let mut tables = [NO_TABLE; 32];
    fill_table(&mut tables, book.bytes, &book.words, n);
    // A count is a byte: the check proves that `as u8` fits.
    let ask = Question {
        tables: &tables,
        rule,
        references: reference_count(book.rule(rule)) as u8,
    };
    let had = obtainable(book.head());
    let covered = covered_by(book.bytes, &book.words, n);
    let found = first_user(&ask, had, &covered);
    fewest(&ask, had, &covered, found)
}

/// What Idle says of what was found, with the plan in the buffer.
fn shown(head: &[u8], found: Option<Witness>, buffer: &mut [u8]) -> Option<Shown>
    ensures answer { Ok result ≡ answer_of head.now found }
    ensures buffer { 36 ≤ length buffer.old → buffer.new ≡ buffer_of head.now found buffer.old }
{
    let Witness { user, places } = found?;
    let rows = row_count(places);
    write_plan(buffer, &shown_plan(head, places), 4 * rows);
    // At most 9 rows: the cast is proved to fit, and `try_from` would be a branch.
    Some(Shown {
        user: u32::from(user),
        rows: rows as u32,
    })
}

/// Idle: whether no user and accepted plan break the rule alone; otherwise the first user and plan
/// that do, the plan at the buffer's front. A refusal leaves the buffer as it was.
pub fn idle(book: &[u8], rule: u32, buffer: &mut [u8]) -> Result<Option<Shown>, Refusal>
    ensures answer { result ≡ idle_answer book.now rule buffer.old }
    ensures buffer { buffer.new ≡ idle_buffer book.now rule buffer.old }
    ensures demand { IdleAccepted book.now rule buffer.old
        → Demand3 book.now rule buffer.old buffer.new result }
{
    let book = Book::new(book)?;
    test_rule(book.bytes, rule)?;
    ensure(36 <= buffer.len(), Refusal::BufferLength)?;
    // The low byte: the number of a rule that is there is below 32.
    let found = needs(&book, (rule % 256) as u8);
    Ok(shown(book.head(), found, buffer))
}
