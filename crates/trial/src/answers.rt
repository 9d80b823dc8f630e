//! Answers as text, and what there is in place of one.
use arrayvec::ArrayVec;
use book::Refusal;
use std::fmt;
use std::fmt::Write;

/// A text that takes so many bytes is cut.
const ROOM: usize = 512;

// Fixed memory: a program can't run out of it.
/// A text, cut where its room ends, which is no error.
#[derive(Drop)]
pub struct Text(ArrayVec<u8, ROOM>);

impl Text {
    pub fn of<D: fmt::Display + Drop>(shown: D) -> Text {
        let mut text = Text(ArrayVec::new());
        // no writing to a text fails
        let _ = text.write(shown);
        text
    }

    pub fn add(&mut self, bytes: &[u8]) {
        for byte in bytes {
            let _ = self.0.try_push(*byte);
        }
    }

    pub fn bytes(&self) -> &[u8] {
        self.0.as_slice()
    }

    /// Whether it is what a case expects. One that fills its room may have been cut, and is not.
    pub fn is(&self, expected: &[u8]) -> bool {
        !self.0.is_full() && self.bytes() == expected
    }
}

impl fmt::Write for Text {
    fn write_str(&mut self, s: &str) -> fmt::Result {
        self.add(s.as_bytes());
        Ok(())
    }
}

/// A case that is not written as it should be has no answer.
#[derive(Clone, Copy)]
pub struct Malformed;

/// An answer starts with a space.
pub type Answer = Result<Text, Malformed>;

/// A refusal as text. Its place is a block for the book, a row for a faulty one.
#[derive(Clone, Copy)]
pub struct Refused(pub Refusal);

impl fmt::Display for Refused {
    fn fmt<W: fmt::Write>(&self, f: &mut fmt::Formatter<W>) -> fmt::Result {
        let number = self.0.number();
        let kind = match self.0 {
            Refusal::FaultyRow { .. } => "row",
            // the papers' numbers 1 to 9 are the book's, and no plainer as nine cases
            _ if number < 10 => "block",
            _ => "place",
        };
        write!(f, " refused {number} {kind} {}", self.0.place())
    }
}

/// The one text or the other.
pub fn either(holds: bool, yes: &'static str, no: &'static str) -> &'static str {
    if holds { yes } else { no }
}
