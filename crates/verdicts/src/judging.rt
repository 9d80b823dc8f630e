//! Judge: the refusals in their order, then the mask of the rules that a user and a plan break. For
//! the crates above, the same mask for a set of accesses.
ghost use Rattle.std.specs.Prelude.{◌≡◌, Err, IfErr, IfOk, OnOk};
ghost use Rattle.book.specs.Tests.{first_failing, Passes};
ghost use Rattle.verdicts.specs.Accesses.{held_by};
ghost use Rattle.verdicts.specs.Answers.{judge_answer, judge_tests};
ghost use Rattle.verdicts.specs.Demand.{JudgeAccepted, Judges};
ghost use Rattle.verdicts.specs.Inner.Masks.{BrokenIfAccepted, BrokenIfSound, UserTested};

use crate::Broken;
use crate::breaking::breaks;
use book::fields::{rule_at, rule_count};
use book::rules::covered_users;
use book::sets::{contains, those_below};
use book::testing::ensure;
use book::words::Words;
use book::{Book, Refusal};
use lineage::accesses::accesses;
use lineage::rows::test_plan;

/// Whether a user and a set of accesses break a rule.
fn user_breaks(words: &Words, rule: &[u8], user: u32, accesses: &[u64; 32]) -> bool
    ensures { BrokenIfSound words.now rule.now user (held_by accesses.now) result }
{
    let covered = covered_users(words, rule);
    // `as`, here and below: `usize` has no `From<u32>`.
    contains(covered, user as usize) && breaks(words, rule, accesses)
}

// Bytes and words and no `Book`: a type asks more of callers than a premise does.
/// The mask of the rules of an accepted book that a user and a set of accesses break, by the words of
/// its head.
pub fn broken_by(book: &[u8], words: &Words, user: u32, accesses: &[u64; 32]) -> u32
    ensures { BrokenIfAccepted book.now words.now user (held_by accesses.now) result }
{
    let broken = those_below(rule_count(book), |r| {
        user_breaks(words, rule_at(book, r), user, accesses)
    });
    // Members are below 32: the remainder shows that the cast fits, `try_from` would be a branch.
    (broken % 4294967296) as u32
}

/// The test 20.
pub fn test_user(words: &Words, user: u32) -> Result<(), Refusal>
    ensures { UserTested words.now user result }
{
    ensure(contains(words.users.leaves, user as usize), Refusal::NoUser)
}

/// The tests of the book, of the user, of the plan: the accepted book, or the refusal that comes first.
pub fn test_judge<'a>(book: &'a [u8], user: u32, plan: &[u8]) -> Result<Book<'a>, Refusal>
    ensures bytes { IfOk result (λ accepted. accepted.bytes.now ≡ book.now) }
    ensures passed { OnOk result (Passes (judge_tests book.now user plan.now)) }
    ensures refused { IfErr result (λ refusal. first_failing (judge_tests book.now user plan.now) ≡ Err refusal) }
{
    let book = Book::new(book)?;
    test_user(&book.words, user)?;
    test_plan(book.head(), plan)?;
    Ok(book)
}

/// Judge: which rules the user and the plan break.
pub fn judge(book: &[u8], user: u32, plan: &[u8]) -> Result<Broken, Refusal>
    ensures answer { result ≡ judge_answer book.now user plan.now }
    ensures judges { JudgeAccepted book.now user plan.now → Judges book.now user plan.now result }
{
    let book = test_judge(book, user, plan)?;
    let given = accesses(book.bytes, &book.words, plan);
    let mask = broken_by(book.bytes, &book.words, user, &given);
    Ok(Broken { mask })
}
