//! The words of a user in the ledger: 32 for each user number, laid out as in Flows.
ghost use Rattle.std.specs.Prelude.{◌≡◌};
ghost use Rattle.book.specs.Tests.{first_failing};
ghost use Rattle.ledger.specs.Ledger.{joined_for, words_of};
ghost use Rattle.ledger.specs.Answers.{ledger_tests};

use book::Refusal;
use book::testing::ensure;

/// The test 27.
#[tactic(auto, unfolding(crate::specs::Answers::ledger_tests))]
pub fn test_ledger(ledger: &[u64]) -> Result<(), Refusal>
    ensures { result ≡ first_failing (ledger_tests ledger.now) }
{
    ensure(ledger.len() == 1024, Refusal::LedgerLength)
}

// The ledger is a flat slice: the C interface, and a form that document 01 names.

/// The words of a user; zero past the ledger's end.
pub fn words_of(ledger: &[u64], user: u32) -> [u64; 32]
    ensures { result ≡ words_of ledger.now user }
{
    let mut words = [0; 32];
    // `as`, here and below: `usize` has no `From<u32>`.
    if let Some(own) = ledger.get(32 * user as usize..) {
        let n = own.len().min(32);
        words[..n].copy_from_slice(&own[..n]);
    }
    words
}

/// Words joined to those of a user.
pub fn join_words(ledger: &mut [u64], user: u32, words: &[u64; 32])
    ensures { ledger.new ≡ joined_for ledger.old user words.now }
{
    let first = 32 * user as usize;
    // By number: a ledger may end among the user's words, and those that are there are joined.
    for (w, word) in words.iter().enumerate() {
        if first + w < ledger.len() {
            ledger[first + w] |= *word;
        }
    }
}
