// Prints the bounds of the chain that a book on standard input describes.
#![tactic(auto)]

ghost use Rattle.std.specs.Prelude.{◌≡◌, ◌≤◌, true, length, is_ok, IfOk, OnOk};
ghost use Rattle.book.specs.Books.{book_answer};

use anyhow::anyhow;
use book::{Answer, answer_of};
use std::io;
use std::io::Read;
use std::process::ExitCode;

#[cfg(test)]
mod tests;

// The longest book, and one byte more, by which a longer one is known.
const ENOUGH: usize = 32 * 512 + 1;

// Reads until the buffer is full or the input ends, and says how far. A counted loop, and a buffer that is lent:
// what std reads to the end stands on the heap, where memory can run out before the book is looked at.
fn fill(input: &mut impl Read, buffer: &mut [u8]) -> io::Result<usize>
    ensures { IfOk result (λ n. n ≤ length buffer.old) }
{
    let mut filled = 0;
    for _ in 0..=buffer.len() {
        let got = input.read(&mut buffer[filled..])?;
        if got == 0 {
            break;
        }
        filled += got;
    }
    Ok(filled)
}

// Prints what comes of a book, and ends well only where it is accepted.
fn print_answer(rt: &HostRuntime, book: &[u8]) -> anyhow::Result<()>
    ensures { OnOk result (is_ok (book_answer book.now) ≡ true) }
{
    match answer_of(rt.alloc(), book)? {
        Answer::Listing(text) => Ok(rt.print(text.as_str())?),
        Answer::Refused(text) => {
            rt.print(text.as_str())?;
            Err(anyhow!("the book is refused"))
        }
    }
}

fn run(rt: &HostRuntime) -> anyhow::Result<()> {
    let mut buffer = [0; ENOUGH];
    let length = fill(&mut rt.stdin(), &mut buffer)?;
    print_answer(rt, &buffer[..length])
}

// Ends with status 0 or 1, and writes nothing to standard error.
fn main(rt: HostRuntime) -> ExitCode {
    match run(&rt) {
        Ok(()) => ExitCode::SUCCESS,
        Err(_) => ExitCode::FAILURE,
    }
}
