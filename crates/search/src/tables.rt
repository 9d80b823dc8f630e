//! The rules of a book as words, made once a call from the words of its head.
ghost use Rattle.std.specs.Prelude.{◌≡◌, ℕ, List, [], IfSome, IfNone, ◌/◌, ◌≤◌, ◌<◌, get_or, length};
ghost use Rattle.book.specs.Blocks.{head_of, rule_at, rule_count};
ghost use Rattle.book.specs.Refusals.{BookAccepted};
ghost use Rattle.book.specs.Inner.Words.{HeadWords};
ghost use Rattle.book.specs.Sets.{has};
ghost use Rattle.verdicts.specs.Inner.Words.{RuleSound};
ghost use Rattle.search.specs.Inner.Table.{ChannelWords, ReferenceWords, RestrictionWord, RuleHolds};
ghost use Rattle.search.specs.Inner.Table.{meets_words, takes_words, TableHolds, CoversHold};

use crate::obtaining::four;
use book::fields::{action, reference_count, restriction_count, restriction_mask, rule_at};
use book::rules::{covered_users, leaf_set};
use book::sets::word_if;
use book::words::Words;
use verdicts::actions::{Channel, channel_fits};
use verdicts::breaking::all_if_zero;

/// What the search reads of a rule: for each reference the places that meet it and, for each of eight
/// restrictions, the operations that it takes there, four times over.
#[derive(Clone, Copy)]
pub struct RuleTable {
    pub meets: [[u64; 33]; 3],
    pub takes: [[u64; 8]; 3],
}

/// No place meets it, and no restriction takes.
pub const NO_TABLE: RuleTable = RuleTable {
    meets: [[0; 33]; 3],
    takes: [[0; 8]; 3],
};

/// What is searched for: choices that break a rule of the tables. The references that it has stand
/// last, absent ones before them.
#[derive(Clone, Copy)]
pub struct Question<'a> {
    pub tables: &'a [RuleTable],
    pub rule: u8,
    pub references: u8,
}

// Two functions: one for both would take the width as a const and the field as a closure.

/// The words of the places that meet reference i of rule q: none past the last.
pub fn met_words(t: &[RuleTable], q: u8, i: u8) -> &[u64; 33]
    ensures { (w : ℕ) → get_or result.now w 0 ≡ get_or (meets_words t.now q i) w 0 }
{
    match t.get(usize::from(q)) {
        Some(table) => match table.meets.get(usize::from(i)) {
            Some(words) => words,
            None => &[0; 33],
        },
        None => &[0; 33],
    }
}

/// The operations that each restriction of rule q takes at reference i: none past the last.
pub fn taken_words(t: &[RuleTable], q: u8, i: u8) -> &[u64; 8]
    ensures { (j : ℕ) → get_or result.now j 0 ≡ get_or (takes_words t.now q i) j 0 }
{
    match t.get(usize::from(q)) {
        Some(table) => match table.takes.get(usize::from(i)) {
            Some(words) => words,
            None => &[0; 8],
        },
        None => &[0; 8],
    }
}

/// The first four leaves of a set, each with every operation.
pub fn spread(leaves: u64) -> u64
    ensures { (i : ℕ) → i < 64 → has result i ≡ has leaves (i / 16) }
{
    let marks = leaves % 2
        + 65536 * (leaves / 2 % 2)
        + 4294967296 * (leaves / 4 % 2)
        + 281474976710656 * (leaves / 8 % 2);
    65535 * marks
}

/// The words of the places of some leaves, with every operation: of projections, of conditions.
fn channel_words(leaves: u64, projected: bool, tested: bool) -> [u64; 33]
    ensures { ChannelWords leaves projected tested result }
{
    let mut words = [0u64; 33];
    // By index: a turn writes two words, sixteen apart.
    for w in 0..16usize {
        let word = spread(leaves >> (4 * w));
        words[w] = word_if(projected, word);
        words[16 + w] = word_if(tested, word);
    }
    words
}

/// The words of the places that meet reference i, all of them where it is absent.
fn reference_words(rule: &[u8], leaves: u64, i: u8) -> [u64; 33]
    ensures { ReferenceWords rule.now leaves i result }
{
    if reference_count(rule) <= usize::from(i) {
        return [u64::MAX; 33];
    }
    let named = action(rule, i);
    let projected = channel_fits(Channel::Projection, named);
    let tested = channel_fits(Channel::Condition, named);
    channel_words(leaves, projected, tested)
}

/// The operations that restriction j takes at reference i, four times over.
fn restriction_word(rule: &[u8], i: u8, j: u8) -> u64
    ensures { RestrictionWord rule.now i j result }
{
    if restriction_count(rule) <= usize::from(j) {
        return 0;
    }
    let mask = all_if_zero(restriction_mask(rule, j, i));
    four(mask, mask, mask, mask)
}

/// The operations that the restrictions take at reference i.
fn restriction_words(rule: &[u8], i: u8) -> [u64; 8]
    ensures { (j : ℕ) → j < 8 → RestrictionWord rule.now i j (get_or result j 0) }
{
    let mut words = [0u64; 8];
    for j in 0..8u8 {
        words[usize::from(j)] = restriction_word(rule, i, j);
    }
    words
}

/// The table of a rule.
fn rule_table(words: &Words, rule: &[u8]) -> RuleTable
    ensures { (head : List ℕ) → HeadWords head words.now → RuleHolds head rule.now result }
{
    let mut table = NO_TABLE;
    for i in 0..3u8 {
        table.meets[usize::from(i)] = reference_words(rule, leaf_set(words, rule, i), i);
        table.takes[usize::from(i)] = restriction_words(rule, i);
    }
    table
}

// Bytes and words and no `Book`, here and below: they speak of a book that is refused, too.
/// The tables of the first n rules, written where the caller keeps them.
pub fn fill_table(tables: &mut [RuleTable], book: &[u8], words: &Words, n: u8)
    ensures tables { HeadWords (head_of book.now) words.now
        → n ≤ 32 → length tables.old ≡ 32 → TableHolds book.now n tables.new }
    ensures sound { BookAccepted book.now
        → (q : ℕ) → q < rule_count book.now → RuleSound (head_of book.now) (rule_at book.now q) }
{
    if tables.len() < usize::from(n) {
        return;
    }
    for q in 0..n {
        tables[usize::from(q)] = rule_table(words, rule_at(book, q));
    }
}

// Beside the tables and not in them: a search and its promises read the tables alone.
/// For each of the first n rules the users that it covers; past the last rule none.
pub fn covered_by(book: &[u8], words: &Words, n: u8) -> [u64; 32]
    ensures { HeadWords (head_of book.now) words.now → CoversHold book.now n result }
{
    let mut covered = [0u64; 32];
    for r in 0..n.min(32) {
        covered[usize::from(r)] = covered_users(words, rule_at(book, r));
    }
    covered
}
