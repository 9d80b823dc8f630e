//! Why something is refused: a case for each number of the papers, one enum for all crates, as C and the
//! Rust wrapper have one.
ghost use Rattle.std.specs.Prelude.{◌≡◌, ◌<◌};
ghost use Rattle.book.specs.Numbers.{number_of, place_of};

use std::fmt;

/// Why something is refused, with the place that goes with it: a block of a book, a row of a plan.
#[derive(Clone, Copy, Debug, PartialEq, Eq, Hash)]
pub enum Refusal {
    /// The length is not 512 times 4 to 36.
    BookLength,
    /// A block does not carry its check.
    BlockCheck { block: u8 },
    /// A block has not the kind of its place.
    BlockKind { block: u8 },
    /// A count outside its bounds, or a byte that should be zero.
    CountOrZero { block: u8 },
    /// A parent or an own operation against the law.
    ParentOrOwn { block: u8 },
    /// A label that is no leaf and not 255, or a function above 15.
    LabelOrFunction { block: u8 },
    /// A rule's category number, action or exclusion.
    RuleNumber { block: u8 },
    /// Two references of a rule share a leaf.
    SharedLeaf { block: u8 },
    /// A mask names an operation that it may not name.
    MaskOperation { block: u8 },
    /// A block to seal has not 512 bytes.
    BlockLength,
    /// The user is no leaf.
    NoUser,
    /// A plan's length is not 4 times 0 to 64.
    PlanLength,
    /// A row of a plan is faulty.
    FaultyRow { row: u8 },
    /// The buffer for accesses has not 32 words.
    WordCount,
    /// There is no such rule.
    NoRule,
    /// The buffer for a plan has under 36 bytes.
    BufferLength,
    /// The rule has no restriction: it forbids.
    RuleForbids,
    /// The ledger has not 1,024 words.
    LedgerLength,
    /// A user has asked a million times.
    CountsFull,
    /// The row is not there, or is no value row.
    NoValueRow,
    /// The tree has too many nodes, or its text does not fit the buffer.
    TreeSize,
    /// Eight plans are held.
    PlacesFull,
    /// No plan is held under this number for this user.
    NotHeld,
    /// The book has 32 rules or more.
    RulesFull,
}

impl Refusal {
    // Two methods and no `From`: number and place are a `u8` each.
    /// The papers' number.
    #[tactic(auto, unfolding(crate::specs::Numbers::number_of))]
    pub fn number(self) -> u8
        ensures number { result ≡ number_of self }
        ensures small { result < 64 }
    {
        match self {
            Refusal::BookLength => 1,
            Refusal::BlockCheck { .. } => 2,
            Refusal::BlockKind { .. } => 3,
            Refusal::CountOrZero { .. } => 4,
            Refusal::ParentOrOwn { .. } => 5,
            Refusal::LabelOrFunction { .. } => 6,
            Refusal::RuleNumber { .. } => 7,
            Refusal::SharedLeaf { .. } => 8,
            Refusal::MaskOperation { .. } => 9,
            Refusal::BlockLength => 10,
            Refusal::NoUser => 20,
            Refusal::PlanLength => 21,
            Refusal::FaultyRow { .. } => 22,
            Refusal::WordCount => 23,
            Refusal::NoRule => 24,
            Refusal::BufferLength => 25,
            Refusal::RuleForbids => 26,
            Refusal::LedgerLength => 27,
            Refusal::CountsFull => 28,
            Refusal::NoValueRow => 29,
            Refusal::TreeSize => 30,
            Refusal::PlacesFull => 31,
            Refusal::NotHeld => 32,
            Refusal::RulesFull => 33,
        }
    }

    // 0 and no `None`: the packed answer of the C interface has a number there.
    /// The block or the row; 0 where the papers name no place.
    #[tactic(auto, unfolding(crate::specs::Numbers::place_of))]
    pub fn place(self) -> u8
        ensures { result ≡ place_of self }
    {
        match self {
            Refusal::BlockCheck { block }
            | Refusal::BlockKind { block }
            | Refusal::CountOrZero { block }
            | Refusal::ParentOrOwn { block }
            | Refusal::LabelOrFunction { block }
            | Refusal::RuleNumber { block }
            | Refusal::SharedLeaf { block }
            | Refusal::MaskOperation { block } => block,
            Refusal::FaultyRow { row } => row,
            _ => 0,
        }
    }
}

impl fmt::Display for Refusal {
    fn fmt<W: fmt::Write>(&self, f: &mut fmt::Formatter<W>) -> fmt::Result {
        write!(f, "refusal {} at {}", self.number(), self.place())
    }
}
