//! What a search reads: the tables of an accepted book, and the scope of the rule asked about.
ghost use Rattle.std.specs.Prelude.{◌<◌};
ghost use Rattle.book.specs.Blocks.{rule_count};
ghost use Rattle.blocked.specs.Inner.Start.{Blank, Started};

use crate::pairs::fill_met;
use book::Book;
use book::fields::reference_count;
use book::sets::below;
use search::obtaining::obtainable;
use search::searching::candidates;
use search::tables::{NO_TABLE, Question, RuleTable, covered_by, fill_table};

// Not search's `Sets`: those are sifted by rules, and hold which rule took last.
/// The places that can be chosen for each reference of the rule asked about, absent ones first.
#[derive(Clone, Copy)]
pub struct Scope {
    pub firsts: [u64; 33],
    pub seconds: [u64; 33],
    pub thirds: [u64; 33],
}

/// The rules as words; for each cell and reference the rules whose reference its first place meets;
/// all rules of the book, and the users that each covers; the scope.
#[derive(Clone, Copy)]
pub struct Tables {
    pub rules: [RuleTable; 32],
    pub met: [[u64; 3]; 132],
    pub all: u64,
    pub covered: [u64; 32],
    pub scope: Scope,
}

/// The row of a first and a second cell.
#[derive(Clone, Copy)]
pub struct Row {
    pub first: usize,
    pub second: usize,
}

impl Tables {
    /// Tables that say nothing yet. They are filled where the caller keeps them.
    pub fn empty() -> Self
        ensures { Blank result }
    {
        Tables {
            rules: [NO_TABLE; 32],
            met: [[0; 3]; 132],
            all: 0,
            covered: [0; 32],
            scope: Scope {
                firsts: [0; 33],
                seconds: [0; 33],
                thirds: [0; 33],
            },
        }
    }
}

/// Fills the tables for a rule of a book.
pub fn fill(tables: &mut Tables, book: &Book, rule: u8)
    ensures { rule < rule_count book.now.bytes.now → Started book.now.bytes.now rule tables.new }
{
    let n = book.rule_count();
    fill_table(&mut tables.rules, book.bytes, &book.words, n);
    fill_met(&mut tables.met, &tables.rules);
    tables.all = below(usize::from(n));
    tables.covered = covered_by(book.bytes, &book.words, n);
    // A byte of the rule, which its readers give as an index.
    let references = reference_count(book.rule(rule)) as u8;
    let had = obtainable(book.head());
    let ask = Question {
        tables: &tables.rules,
        rule,
        references,
    };
    let firsts = candidates(&ask, had, 0);
    let seconds = candidates(&ask, had, 1);
    let thirds = candidates(&ask, had, 2);
    tables.scope = Scope {
        firsts,
        seconds,
        thirds,
    };
}
