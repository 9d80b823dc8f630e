//! The accesses of a plan as 32 words: bit d of word 16 × s + k for access (s, d, k).
ghost use Rattle.std.specs.Prelude.{◌≡◌, ℕ, ◌<◌, ◌+◌, ◌*◌, get_or};
ghost use Rattle.book.specs.Blocks.{head_of};
ghost use Rattle.lineage.specs.Accesses.{access_words};
ghost use Rattle.lineage.specs.Answers.{BothAccepted};
ghost use Rattle.book.specs.Inner.Words.{HeadWords};
ghost use Rattle.lineage.specs.Inner.Table.{GatheredAll, GatheredStep, word};

use crate::reach::{by_operation, fill_reach};
use crate::rows::given;
use book::fields::head_of;
use book::sets::join;
use book::words::Words;

/// What row i gives, joined to the words of its channel.
fn give(words: &mut [[u64; 16]; 2], plan: &[u8], reach: &[[u64; 17]; 64], i: u8)
    ensures { GatheredStep plan.now reach.now i words.old words.new }
{
    if let Some((channel, row)) = given(plan, i) {
        join(&mut words[channel.index()], &by_operation(reach, row));
    }
}

/// The words of both channels, one channel after the other.
fn flat(words: &[[u64; 16]; 2]) -> [u64; 32]
    ensures { (s k : ℕ) → s < 2 → k < 16 → get_or result (16 * s + k) 0 ≡ word words.now s k }
{
    let mut flat = [0u64; 32];
    flat[..16].copy_from_slice(&words[0]);
    flat[16..].copy_from_slice(&words[1]);
    flat
}

/// What the first n rows give.
fn gathered(plan: &[u8], reach: &[[u64; 17]; 64], n: u8) -> [u64; 32]
    ensures { GatheredAll plan.now reach.now n result }
{
    let mut words = [[0u64; 16]; 2];
    for i in 0..n {
        give(&mut words, plan, reach, i);
    }
    flat(&words)
}

// Bytes and words and no `Book`: a type asks more of callers than a premise does.
/// The accesses of an accepted plan for an accepted book, by the words of its head.
pub fn accesses(book: &[u8], words: &Words, plan: &[u8]) -> [u64; 32]
    ensures { HeadWords (head_of book.now) words.now
        → BothAccepted book.now plan.now
        → result ≡ access_words (head_of book.now) plan.now }
{
    let Ok(n) = u8::try_from(plan.len() / 4) else {
        return [0u64; 32];
    };
    let mut reach = [[0u64; 17]; 64];
    fill_reach(&mut reach, head_of(book), words, plan, n);
    gathered(plan, &reach, n)
}
