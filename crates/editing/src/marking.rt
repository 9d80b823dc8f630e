//! Which of some rules are idle. The tables are filled once for all of them, and a mark needs no shown
//! plan: that some user has places which break the rule alone is enough.
ghost use Rattle.std.specs.Prelude.{◌≡◌, ◌&&◌, ◌<◌, suc};
ghost use Rattle.book.specs.Blocks.{head_of, rule_count};
ghost use Rattle.book.specs.Refusals.{BookAccepted};
ghost use Rattle.book.specs.Inner.Words.{HeadWords};
ghost use Rattle.book.specs.Sets.{has};
ghost use Rattle.editing.specs.Marks.{arrival_marks, departure_marks, idle_at};
ghost use Rattle.editing.specs.Inner.Marking.{IdleAmong, TablesOf, WordsOf};

use book::fields::{head_of, reference_count, rule_at, rule_count};
use book::sets::{below, contains, those_below};
use book::words::Words;
use search::obtaining::obtainable;
use search::tables::{NO_TABLE, Question, RuleTable, covered_by, fill_table};
use search::users::first_user;

// search's `needs` asks of one rule alone, and so needs no struct for its tables.
/// A book and the words of its head, with the tables of its rules, the accesses that can be had, and the
/// users that each rule covers.
#[derive(Drop)]
struct Tables<'a> {
    book: &'a [u8],
    words: &'a Words,
    rules: &'a [RuleTable],
    had: &'a [u64; 32],
    covered: &'a [u64; 32],
    ghost of: { WordsOf book.now words.now → TablesOf book.now rules.now had.now covered.now },
}

impl Tables<'_> {
    /// Whether nobody breaks rule r alone, by the tables.
    fn is_idle(&self, r: u8) -> bool
        ensures { WordsOf self.now.book.now self.now.words.now
            → r < rule_count self.now.book.now → result ≡ idle_at self.now.book.now r }
    {
        // A count is a byte: the check proves that `as u8` fits.
        let ask = Question {
            tables: self.rules,
            rule: r,
            references: reference_count(rule_at(self.book, r)) as u8,
        };
        first_user(&ask, *self.had, self.covered).is_none()
    }

    /// Whether rule q is asked about and idle.
    fn is_marked(&self, asked: u64, q: u8) -> bool
        ensures { WordsOf self.now.book.now self.now.words.now → q < rule_count self.now.book.now
            → result ≡ (has asked q && idle_at self.now.book.now q) }
    {
        contains(asked, usize::from(q)) && self.is_idle(q)
    }

    /// The idle ones of the rules that are asked about.
    fn idle_by(&self, asked: u64) -> u64
        ensures { WordsOf self.now.book.now self.now.words.now
            → IdleAmong self.now.book.now asked (rule_count self.now.book.now) result }
    {
        those_below(rule_count(self.book), |q| self.is_marked(asked, q))
    }
}

// Bytes and words and no `Book`, here and below: a type asks more of callers than a premise does.
/// The idle ones of the rules of an accepted book that are asked about. Where none is, no table is
/// filled.
pub fn idle_among(book: &[u8], words: &Words, asked: u64) -> u64
    ensures { HeadWords (head_of book.now) words.now → BookAccepted book.now
        → IdleAmong book.now asked (rule_count book.now) result }
{
    if asked == 0 {
        return 0;
    }
    let n = rule_count(book);
    let mut rules = [NO_TABLE; 32];
    fill_table(&mut rules, book, words, n);
    let had = obtainable(head_of(book));
    let covered = covered_by(book, words, n);
    let tables = Tables {
        book,
        words,
        rules: &rules,
        had: &had,
        covered: &covered,
    };
    tables.idle_by(asked)
}

// The two masks stay two functions: what is kept and what is asked about differ in more than a constant.
// Both cut the word to 32 bits with `%` and `as`: `try_from` would be a branch that no book takes.
/// The mask after an arrival, of the book with the new rule behind n others: a set mark stays, as a rule
/// more leaves an idle rule idle.
pub fn arrival_marks(book: &[u8], words: &Words, n: u32, marks: u32) -> u32
    ensures { HeadWords (head_of book.now) words.now → BookAccepted book.now
        → rule_count book.now ≡ suc n → result ≡ arrival_marks book.now n marks }
{
    let kept = below(n as usize) & u64::from(marks);
    let asked = below(n as usize + 1) & !kept;
    ((kept | idle_among(book, words, asked)) % 4294967296) as u32
}

/// The mask after a departure, of the book without rule r: a clear mark stays, as a rule less leaves a
/// needed rule needed. Marks behind r move down.
pub fn departure_marks(book: &[u8], words: &Words, r: u32, marks: u32) -> u32
    ensures { HeadWords (head_of book.now) words.now → BookAccepted book.now
        → result ≡ departure_marks book.now r marks }
{
    let before = below(r as usize);
    let word = u64::from(marks);
    let asked = (word & before) | ((word >> 1) & !before);
    (idle_among(book, words, asked) % 4294967296) as u32
}
