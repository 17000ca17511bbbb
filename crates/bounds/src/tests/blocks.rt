// Blocks and books laid out for the tests.
ghost use Rattle.std.specs.Prelude.{◌≡◌, ℕ, ◌+◌, ◌<◌, ◌≤◌, true, ◌⊎◌, take, slice_index};
ghost use Rattle.std.specs.Option.{option_map};
ghost use Rattle.std.specs.Result.{result_err};
ghost use Rattle.tables.specs.Refusals.{number_of};
ghost use Rattle.book.specs.Books.{book_answer};
ghost use Rattle.book.specs.Layout.{checked};

use book::{analyse, check_sums};

// The numbers of the kinds, as they stand in a book.
pub const EVENTS: u8 = 1;

pub const SERVICE: u8 = 2;

pub const SHAPING: u8 = 3;

// Puts entries from a place on, three bytes each, high byte first.
fn put(bytes: &mut [u8; 508], place: usize, counts: &[u32])
    requires { place ≤ 200 }
    ensures { (i : ℕ) → (i < place) ⊎ (place + 192 ≤ i) → slice_index bytes.new i ≡ slice_index bytes.old i }
{
    for (k, count) in counts.iter().enumerate() {
        if k < 64 {
            let at = place + 3 * k;
            bytes[at..at + 3].copy_from_slice(&count.to_be_bytes()[1..]);
        }
    }
}

// The bytes, and their check sums after them.
pub(crate) fn summed(bytes: &[u8; 508]) -> [u8; 512]
    ensures front { take 508 result ≡ bytes.now }
    ensures checked { checked result ≡ true }
{
    let sums = check_sums(bytes);
    let [a, b] = sums.sum.to_be_bytes();
    let [c, d] = sums.running_sum.to_be_bytes();
    let mut block = [0; 512];
    block[0..508].copy_from_slice(bytes);
    block[508] = a;
    block[509] = b;
    block[510] = c;
    block[511] = d;
    block
}

// The bytes of a block before the check.
pub(crate) fn laid_out(kind: u8, frame: u8, most: &[u32], least: &[u32]) -> [u8; 508]
    ensures kind { slice_index result 0 ≡ kind }
    ensures frame { slice_index result 1 ≡ frame }
    ensures zeros { (i : ℕ) → 2 ≤ i → i < 8 → slice_index result i ≡ 0 }
    ensures last_zeros { (i : ℕ) → 392 ≤ i → slice_index result i ≡ 0 }
{
    let mut bytes = [0; 508];
    bytes[0] = kind;
    bytes[1] = frame;
    put(&mut bytes, 8, most);
    put(&mut bytes, 200, least);
    bytes
}

// A block with right check sums.
pub(crate) fn block(kind: u8, frame: u8, most: &[u32], least: &[u32]) -> [u8; 512]
    ensures kind { slice_index result 0 ≡ kind }
    ensures frame { slice_index result 1 ≡ frame }
    ensures checked { checked result ≡ true }
{
    summed(&laid_out(kind, frame, most, least))
}

// The number and the block of a refusal, as they are printed; `None` where the book is accepted.
pub(crate) fn refused(book: &[u8]) -> Option<(u8, u32)>
    ensures { result ≡ option_map (λ t. (number_of t.refusal, t.block)) (result_err (book_answer book.now)) }
{
    analyse(book)
        .err()
        .map(|refused| (refused.refusal.number(), refused.block))
}
