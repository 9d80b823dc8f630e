//! Blocked: whether a rule has data that no operation can open, or the first user and association. Culprits:
//! the few rules that close that association.
ghost use Rattle.std.specs.Prelude.{◌≡◌, ◌+◌, ◌%◌, ◌<◌, Ok, Err, IfErr, IfOk, OnOk};
ghost use Rattle.book.specs.Blocks.{rule_count};
ghost use Rattle.book.specs.Tests.{first_failing, Passes};
ghost use Rattle.blocked.specs.Open.{first_closed};
ghost use Rattle.blocked.specs.Answers.{blocked_answer, blocked_tests, blocking_of, causes_of, culprits_answer};
ghost use Rattle.blocked.specs.Answers.{forbid_tests};
ghost use Rattle.blocked.specs.Demand.{Blocked, BlockedAccepted};
ghost use Rattle.blocked.specs.Minimal.{Caused};
ghost use Rattle.blocked.specs.Inner.First.{AnswerAt};
ghost use Rattle.blocked.specs.Inner.Start.{Started};
ghost use Rattle.blocked.specs.Inner.Tables.{FirstBy, ReadyBy};

use crate::Closed;
use crate::dropping::few;
use crate::tables::{Tables, fill};
use crate::users::{Denial, covering, first_denied};
use book::fields::restriction_count;
use book::testing::ensure;
use book::{Book, Refusal};
use search::idling::test_rule;

/// The test 26.
#[tactic(auto, unfolding(crate::specs::Answers::forbid_tests))]
fn test_forbids(rule: &[u8]) -> Result<(), Refusal>
    ensures { result ≡ first_failing (forbid_tests rule.now) }
{
    ensure(0 < restriction_count(rule), Refusal::RuleForbids)
}

/// The tests of the book, of the rule, of its restrictions: the accepted book, or the refusal that
/// comes first.
fn test_blocked<'a>(book: &'a [u8], rule: u32) -> Result<Book<'a>, Refusal>
    ensures bytes { IfOk result (λ accepted. accepted.bytes.now ≡ book.now) }
    ensures passed { OnOk result (Passes (blocked_tests book.now rule)) }
    ensures refused { IfErr result (λ refusal. first_failing (blocked_tests book.now rule) ≡ Err refusal) }
{
    let book = Book::new(book)?;
    test_rule(book.bytes, rule)?;
    test_forbids(book.rule((rule % 256) as u8))?;
    Ok(book)
}

/// The first user and association of a rule that stay closed, as cells, with the tables filled for it.
fn denied(tables: &mut Tables, book: &Book, rule: u8) -> Option<Denial>
    ensures filled { rule < rule_count book.now.bytes.now → Started book.now.bytes.now rule tables.new }
    ensures first { rule < rule_count book.now.bytes.now
        → ReadyBy tables.new → FirstBy tables.new rule result }
{
    fill(tables, book, rule);
    first_denied(tables, rule)
}

/// What Blocked answers for a rule.
fn blocking(book: &Book, rule: u8) -> Option<Closed>
    ensures { rule < rule_count book.now.bytes.now
        → Ok result ≡ blocking_of (first_closed book.now.bytes.now rule) }
{
    let mut tables = Tables::empty();
    let denial = denied(&mut tables, book, rule)?;
    Some(closed(denial))
}

/// The few rules that close that association together with the rule.
fn causes(book: &Book, rule: u8) -> Option<u32>
    ensures { rule < rule_count book.now.bytes.now
        → Ok result ≡ causes_of book.now.bytes.now rule (first_closed book.now.bytes.now rule) }
{
    let mut tables = Tables::empty();
    let denial = denied(&mut tables, book, rule)?;
    let rules = covering(&tables.covered, denial.user);
    let found = few(&tables, rule, rules, denial);
    // Sets are words of 64 bits, and a book has 32 rules: the cut takes nothing away.
    Some((found % 4294967296) as u32)
}

/// The byte of a cell that is not that of an absent reference.
fn datum_byte(c: usize) -> u32
    ensures { result ≡ 128 + c % 128 }
{
    // Cells are indices; the remainder shows that the cast fits.
    128 + (c % 128) as u32
}

/// The answer for three cells. Absent references stand first there, and last in the answer.
fn closed(denial: Denial) -> Closed
    ensures { AnswerAt denial.user denial.first denial.second denial.third result }
{
    // 128: absent references have a cell like others, so that no loop has a case for them.
    let user = u32::from(denial.user);
    if 128 <= denial.second {
        return Closed {
            user,
            first: datum_byte(denial.third),
            second: 0,
            third: 0,
        };
    }
    if 128 <= denial.first {
        return Closed {
            user,
            first: datum_byte(denial.second),
            second: datum_byte(denial.third),
            third: 0,
        };
    }
    Closed {
        user,
        first: datum_byte(denial.first),
        second: datum_byte(denial.second),
        third: datum_byte(denial.third),
    }
}

/// Blocked: nothing, when every covered user and every association in the rule's scope admit operations
/// under which no rule of the book is broken; otherwise the first user and association that do not.
pub fn blocked(book: &[u8], rule: u32) -> Result<Option<Closed>, Refusal>
    ensures answer { result ≡ blocked_answer book.now rule }
    ensures blocked { BlockedAccepted book.now rule → Blocked book.now rule result }
{
    let book = test_blocked(book, rule)?;
    // The low byte: the number of a rule that is there is below 32.
    Ok(blocking(&book, (rule % 256) as u8))
}

/// Culprits: nothing, when Blocked answers nothing; otherwise a mask of the other rules that, together
/// with the rule asked about, close the association that Blocked gives, dropped by trial from the
/// highest number down.
pub fn culprits(book: &[u8], rule: u32) -> Result<Option<u32>, Refusal>
    ensures answer { result ≡ culprits_answer book.now rule }
    ensures caused { BlockedAccepted book.now rule → Caused book.now rule result }
{
    let book = test_blocked(book, rule)?;
    // The low byte, as above.
    Ok(causes(&book, (rule % 256) as u8))
}
