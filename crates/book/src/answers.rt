// What is printed of a book.
ghost use Rattle.std.specs.Prelude.{◌≡◌, is_ok, IfOk};
ghost use Rattle.book.specs.Answers.{printed, is_listing};
ghost use Rattle.book.specs.Books.{book_answer};
ghost use Rattle.book.specs.Text.{answer_text};

use crate::analysis::analyse;
use std::alloc::{AllocError, Global};

/// The text that is printed of a book.
#[derive(Drop)]
pub enum Answer {
    /// The listing of a book that is accepted.
    Listing(String),
    /// The line of a book that is refused.
    Refused(String),
}

pub fn answer_of(heap: Global, book: &[u8]) -> Result<Answer, AllocError>
    ensures text { IfOk result (λ a. printed a ≡ answer_text (book_answer book.now)) }
    ensures accepted { IfOk result (λ a. is_listing a ≡ is_ok (book_answer book.now)) }
{
    match analyse(book) {
        Ok(analysis) => Ok(Answer::Listing(analysis.to_string(heap)?)),
        Err(refused) => Ok(Answer::Refused(refused.to_string(heap)?)),
    }
}
