// What is printed of a book, and what its analysis holds.
ghost use Rattle.std.specs.Prelude.{◌≡◌, ℕ, ◌+◌, ◌<◌, is_ok, OnOk, slice_index};
ghost use Rattle.std.specs.List.{flat_map};
ghost use Rattle.book.specs.Answers.{is_listing, printed};
ghost use Rattle.book.specs.Books.{book_answer};
ghost use Rattle.book.specs.Text.{answer_text};

use super::blocks::{EVENTS, SERVICE, SHAPING, block};
use book::{Answer, analyse, answer_of};
use std::alloc::Global;
use std::array;
use std::test::Fail;

// Whether the answer is a listing, and its text.
fn parts(answer: &Answer) -> (bool, &str)
    ensures listing { result.0 ≡ is_listing answer.now }
    ensures text { result.1.now ≡ printed answer.now }
{
    match answer {
        Answer::Listing(text) => (true, text.as_str()),
        Answer::Refused(text) => (false, text.as_str()),
    }
}

// The book of the blocks is accepted or refused, as it is said, and prints the text.
fn check(heap: Global, blocks: &[[u8; 512]], accepted: bool, text: &str) -> Result<(), Fail>
    ensures { OnOk result ((is_ok (book_answer (flat_map (λ b. b) blocks.now)) ≡ accepted) × (answer_text (book_answer (flat_map (λ b. b) blocks.now)) ≡ text.now)) }
{
    let answer = answer_of(heap, blocks.as_flattened())?;
    let (is_listing, printed) = parts(&answer);
    if is_listing != accepted {
        return Err(Fail::new("the book is refused in place of accepted, or the other way round"));
    }
    if printed != text {
        return Err(Fail::new("another text is printed"));
    }
    Ok(())
}

#[test]
fn three_blocks(rt: HostRuntime) -> Result<(), Fail> {
    let blocks = [
        block(EVENTS, 4, &[2, 3, 3, 4], &[0, 0, 1, 2]),
        block(SERVICE, 4, &[2, 3, 4, 4], &[0, 1, 2, 4]),
        block(SHAPING, 4, &[1, 2, 3, 4], &[]),
    ];
    let text =
        "frame 4\n1 events most 2 3 3 4 least 0 0 1 2\n2 server most 2 3 4 4 least 0 0 0 1 wait 2 delay 2\n3 shaper most 1 2 3 4 least 0 0 0 1 wait 1 delay 1\ntotal wait 3 delay 3\n";
    check(rt.alloc(), &blocks, true, text)
}

#[test]
fn join(rt: HostRuntime) -> Result<(), Fail> {
    let blocks = [
        block(EVENTS, 2, &[1, 3], &[0, 1]),
        block(EVENTS, 2, &[2, 2], &[1, 1]),
    ];
    let text =
        "frame 2\n1 events most 1 3 least 0 1\n2 join most 3 5 least 1 2 wait 0 delay 0\ntotal wait 0 delay 0\n";
    check(rt.alloc(), &blocks, true, text)
}

#[test]
fn shortest_frame(rt: HostRuntime) -> Result<(), Fail> {
    let blocks = [
        block(EVENTS, 1, &[3], &[1]),
        block(SERVICE, 1, &[5], &[4]),
        block(SHAPING, 1, &[3], &[]),
    ];
    let text =
        "frame 1\n1 events most 3 least 1\n2 server most 3 least 1 wait 0 delay 0\n3 shaper most 3 least 1 wait 0 delay 0\ntotal wait 0 delay 0\n";
    check(rt.alloc(), &blocks, true, text)
}

// 1, 2 and on to 64.
fn rising() -> [u32; 64]
    ensures { (k : ℕ) → k < 64 → slice_index result k ≡ k + 1 }
{
    array::from_fn(|k| k as u32 + 1)
}

#[test]
fn longest_frame(rt: HostRuntime) -> Result<(), Fail> {
    let counts = rising();
    let blocks = [
        block(EVENTS, 64, &counts, &[]),
        block(SERVICE, 64, &counts, &counts),
        block(SHAPING, 64, &counts, &[]),
        block(EVENTS, 64, &counts, &counts),
    ];
    let analysis = analyse(blocks.as_flattened())?;
    assert_eq!(rt; analysis.first().most.entries(), counts.as_slice());
    assert_eq!(rt; analysis.first().least.frame(), 64);
    assert_eq!(rt; analysis.totals().wait, 0);
    assert_eq!(rt; analysis.totals().delay, 0);
    let lines = analysis.lines();
    assert!(rt; lines.len() == 3);
    assert_eq!(rt; lines[1].pair.most.entries(), counts.as_slice());
    assert_eq!(rt; lines[2].pair.most.at(64), 128);
    assert_eq!(rt; lines[2].pair.least.at(64), 64);
    Ok(())
}

#[test]
fn refusals(rt: HostRuntime) -> Result<(), Fail> {
    let heap = rt.alloc();
    let first = block(EVENTS, 1, &[1], &[0]);
    let second = block(SERVICE, 1, &[1], &[0]);
    check(heap, &[], false, "refused 1 block 0\n")?;
    check(heap, &[second], false, "refused 3 block 1\n")?;
    check(heap, &[first, second], false, "refused 7 block 2\n")
}
