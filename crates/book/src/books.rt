//! An accepted book: bytes that Book check refuses nothing of, with the words of its head.
ghost use Rattle.std.specs.Prelude.{◌≡◌, Err, IfErr, IfOk};
ghost use Rattle.book.specs.Blocks.{head_of, rule_at, rule_count};
ghost use Rattle.book.specs.Tests.{first_failing};
ghost use Rattle.book.specs.Refusals.{BookAccepted, book_tests};
ghost use Rattle.book.specs.Inner.Words.{HeadWords};

use crate::checking::test_book;
use crate::words::Words;
use crate::{Refusal, fields};

/// A book that nothing refuses.
#[derive(Drop)]
pub struct Book<'a> {
    pub bytes: &'a [u8],
    pub words: Words,
    ghost told: { HeadWords (head_of bytes.now) words },
    ghost accepted: { BookAccepted bytes.now },
}

impl<'a> Book<'a> {
    /// Checks some bytes, or gives the refusal that comes first.
    pub fn new(bytes: &'a [u8]) -> Result<Book<'a>, Refusal>
        ensures bytes { IfOk result (λ book. book.bytes.now ≡ bytes.now) }
        ensures refused { IfErr result (λ refusal. first_failing (book_tests bytes.now) ≡ Err refusal) }
    {
        let words = Words::of(fields::head_of(bytes));
        test_book(bytes, &words)?;
        Ok(Book { bytes, words })
    }

    /// The four head blocks.
    pub fn head(&self) -> &[u8]
        ensures { result.now ≡ head_of self.now.bytes.now }
    {
        fields::head_of(self.bytes)
    }

    /// How many rules the book has.
    pub fn rule_count(&self) -> u8
        ensures { result ≡ rule_count self.now.bytes.now }
    {
        fields::rule_count(self.bytes)
    }

    /// The block of rule r.
    pub fn rule(&self, r: u8) -> &[u8]
        ensures { result.now ≡ rule_at self.now.bytes.now r }
    {
        fields::rule_at(self.bytes, r)
    }
}
