// Which refusal is given where several hold.
ghost use Rattle.std.specs.Prelude.{◌≡◌, bit_xor, slice_index, slice_set};

use super::blocks::{EVENTS, SERVICE, SHAPING, block, refused};

// A block whose check is wrong.
fn unchecked(block: [u8; 512]) -> [u8; 512]
    ensures { result ≡ slice_set block 511 (bit_xor (slice_index block 511) 1) }
{
    let mut wrong = block;
    wrong[511] ^= 1;
    wrong
}

// The length before all else.
#[test]
fn length_first(rt: HostRuntime) {
    let zeros = [0; 512];
    assert_eq!(rt; refused(&zeros[0..511]), Some((1, 0)));
    assert_eq!(rt; refused([zeros; 33].as_flattened()), Some((1, 0)));
}

// In the first block the smallest number.
#[test]
fn first_block(rt: HostRuntime) {
    let cases = [
        (unchecked(block(4, 0, &[2, 1], &[])), 2),
        (unchecked(block(SERVICE, 1, &[1], &[0])), 2),
        (unchecked(block(EVENTS, 0, &[], &[])), 2),
        (unchecked(block(EVENTS, 2, &[2, 1], &[])), 2),
        (block(4, 0, &[], &[]), 3),
        (block(4, 2, &[2, 1], &[]), 3),
        (block(SERVICE, 65, &[], &[]), 3),
        (block(SHAPING, 2, &[2, 1], &[]), 3),
        (block(EVENTS, 0, &[2, 1], &[]), 4),
        (block(EVENTS, 65, &[1_000_001], &[]), 4),
    ];
    for (first, number) in cases {
        assert_eq!(rt; refused(&first), Some((number, 1)));
    }
}

// In a later block the smallest number.
#[test]
fn later_block(rt: HostRuntime) {
    let first = block(EVENTS, 4, &[3, 3, 3, 900_000], &[0, 0, 0, 0]);
    let cases = [
        (unchecked(block(4, 4, &[], &[])), 2),
        (unchecked(block(SHAPING, 4, &[1, 1, 1, 3], &[])), 2),
        (block(4, 3, &[], &[]), 3),
        (block(0, 4, &[2, 1], &[]), 3),
        (block(EVENTS, 1, &[1_000_000], &[]), 4),
        (block(SERVICE, 2, &[2, 1], &[]), 4),
        (block(SHAPING, 3, &[1, 1, 3], &[]), 4),
        (block(EVENTS, 4, &[0, 0, 0, 1_000_001], &[]), 5),
        (block(SERVICE, 4, &[0, 0, 0, 0], &[1, 1, 1, 1]), 5),
        (block(SHAPING, 4, &[1, 1, 1, 3], &[1, 1, 1, 1]), 5),
        (block(SHAPING, 4, &[1, 1, 1, 1, 1], &[]), 5),
        (block(SHAPING, 4, &[1, 1, 1, 3], &[]), 6),
        (block(SHAPING, 4, &[1, 1, 2, 2], &[]), 7),
        (block(SERVICE, 4, &[2, 2, 2, 2], &[]), 7),
        (block(EVENTS, 4, &[0, 0, 0, 100_001], &[]), 8),
    ];
    for (second, number) in cases {
        assert_eq!(rt; refused([first, second].as_flattened()), Some((number, 2)));
    }
}

// The first block with a refusal, though a later one has a smaller number.
#[test]
fn earlier_block(rt: HostRuntime) {
    let events = block(EVENTS, 1, &[1], &[0]);
    let falling = block(EVENTS, 2, &[2, 1], &[]);
    let overload = block(SERVICE, 1, &[1], &[0]);
    let crowd = block(EVENTS, 1, &[1_000_000], &[0]);
    let wrong = unchecked(events);
    assert_eq!(rt; refused([falling, wrong].as_flattened()), Some((5, 1)));
    assert_eq!(rt;
        refused([events, overload, wrong].as_flattened()),
        Some((7, 2))
    );
    assert_eq!(rt;
        refused([events, crowd, overload].as_flattened()),
        Some((8, 2))
    );
    assert_eq!(rt;
        refused([events, events, overload, crowd].as_flattened()),
        Some((7, 3))
    );
}
