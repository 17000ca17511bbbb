ghost use Rattle.std.specs.Prelude.{◌≡◌, ◌/◌, ◌≤◌, [], length};
ghost use Rattle.tables.specs.Tables.{curves};
ghost use Rattle.book.specs.Books.{whole, book_answer, book_result, chain_on};

use super::{Analysis, Refused};
use crate::chain::{first_pair, next_line};
use tables::{Pair, Refusal};

// Whether there are 1 to 32 whole blocks.
fn is_whole(book: &[u8]) -> bool
    ensures { result ≡ whole book.now }
{
    let (blocks, rest) = book.as_chunks::<512>();
    rest.is_empty() && (1..=32).contains(&blocks.len())
}

// The chain of the other blocks after a first one, which has the pair.
fn chain_of(first: Pair, others: &[u8]) -> Result<Analysis, Refused>
    requires { length others.now / 512 ≤ 31 }
    ensures { book_result result ≡ chain_on (curves first) [] (curves first) 1 (length others.now / 512) others.now }
{
    let mut analysis = Analysis::of(first);
    let mut pair = first;
    let (blocks, _) = others.as_chunks::<512>();
    for (n, block) in blocks.iter().enumerate() {
        let line = next_line(&pair, block).map_err(|refusal| Refused {
            refusal,
            block: n as u32 + 2,
        })?;
        analysis.add(line);
        pair = line.pair;
    }
    Ok(analysis)
}

/// The chain of a book, or the first block with a refusal and there the smallest number.
pub fn analyse(book: &[u8]) -> Result<Analysis, Refused>
    ensures { book_result result ≡ book_answer book.now }
{
    if !is_whole(book) {
        return Err(Refused {
            refusal: Refusal::Length,
            block: 0,
        });
    }
    let (first, others) = book.split_at(512);
    let pair = first_pair(first).map_err(|refusal| Refused { refusal, block: 1 })?;
    chain_of(pair, others)
}
