// Each refusal of a book, and the nearest book that is accepted.
use super::blocks::{EVENTS, SERVICE, SHAPING, block, laid_out, refused, summed};

#[test]
fn length(rt: HostRuntime) {
    let one = block(EVENTS, 1, &[1], &[0]);
    let blocks = [one; 2];
    let two = blocks.as_flattened();
    assert!(rt; two.len() == 1024);
    for length in [0, 1, 511, 513, 1023] {
        assert!(rt; length < 1024);
        assert_eq!(rt; refused(&two[0..length]), Some((1, 0)));
    }
    assert_eq!(rt; refused(&two[0..512]), None);
    assert_eq!(rt; refused(two), None);
    assert_eq!(rt; refused([one; 32].as_flattened()), None);
    assert_eq!(rt; refused([one; 33].as_flattened()), Some((1, 0)));
}

#[test]
fn check_sum(rt: HostRuntime) {
    let right = block(EVENTS, 1, &[1], &[0]);
    assert_eq!(rt; refused(&right), None);
    // The places of the check are what is meant, so they are counted.
    for place in 508..512 {
        let mut wrong = right;
        wrong[place] ^= 1;
        assert_eq!(rt; refused(&wrong), Some((2, 1)));
    }
    // Another entry, and two bytes that changed places, under the same check.
    let mut wrong = right;
    wrong[10] = 2;
    assert_eq!(rt; refused(&wrong), Some((2, 1)));
    wrong[10] = 0;
    wrong[9] = 1;
    assert_eq!(rt; refused(&wrong), Some((2, 1)));
    // A sum of 0 is not written as 65,535.
    let mut zeros = [0; 512];
    assert_eq!(rt; refused(&zeros), Some((3, 1)));
    zeros[508] = 255;
    zeros[509] = 255;
    assert_eq!(rt; refused(&zeros), Some((2, 1)));
}

#[test]
fn kind(rt: HostRuntime) {
    let first = block(EVENTS, 1, &[1], &[0]);
    for kind in [0, 2, 3, 4, 255] {
        assert_eq!(rt; refused(&block(kind, 1, &[1], &[0])), Some((3, 1)));
    }
    for kind in [0, 4, 255] {
        let blocks = [first, block(kind, 1, &[1], &[0])];
        assert_eq!(rt; refused(blocks.as_flattened()), Some((3, 2)));
    }
    // The places that are 0, before the entries and behind them: again places are meant.
    let right = laid_out(EVENTS, 1, &[1], &[0]);
    for place in 2..8 {
        let mut wrong = right;
        wrong[place] = 1;
        assert_eq!(rt; refused(&summed(&wrong)), Some((3, 1)));
    }
    for place in 392..508 {
        let mut wrong = right;
        wrong[place] = 1;
        assert_eq!(rt; refused(&summed(&wrong)), Some((3, 1)));
    }
}

#[test]
fn frame(rt: HostRuntime) {
    for frame in [0, 65, 255] {
        assert_eq!(rt; refused(&block(EVENTS, frame, &[], &[])), Some((4, 1)));
    }
    let first = block(EVENTS, 2, &[1, 1], &[0, 0]);
    for kind in [EVENTS, SERVICE, SHAPING] {
        for frame in [0, 1, 3, 65] {
            let blocks = [first, block(kind, frame, &[], &[])];
            assert_eq!(rt; refused(blocks.as_flattened()), Some((4, 2)));
        }
    }
}

#[test]
fn table(rt: HostRuntime) {
    let mut last = [0; 64];
    last[63] = 1;
    let wrong = [
        block(EVENTS, 2, &[2, 1], &[0, 0]),
        block(EVENTS, 2, &[2, 2], &[1, 0]),
        block(EVENTS, 2, &[1, 1_000_001], &[0, 0]),
        block(EVENTS, 2, &[1, 2], &[0, 3]),
        block(EVENTS, 2, &[0, 0], &[1, 1]),
        block(EVENTS, 2, &[1, 2, 3], &[0, 0]),
        block(EVENTS, 2, &[1, 2], &[0, 0, 1]),
        block(EVENTS, 2, &last, &[0, 0]),
        block(EVENTS, 2, &[0, 0], &last),
    ];
    for first in wrong {
        assert_eq!(rt; refused(&first), Some((5, 1)));
    }
    assert_eq!(rt; refused(&block(EVENTS, 2, &[1, 1_000_000], &[0, 0])), None);
    assert_eq!(rt; refused(&block(EVENTS, 2, &[1, 2], &[1, 2])), None);
    // The least of a shaping block is 0, within the frame and past it.
    let first = block(EVENTS, 2, &[1, 1], &[0, 0]);
    for least in [[1, 1, 0], [0, 1, 0], [0, 0, 1]] {
        let blocks = [first, block(SHAPING, 2, &[1, 2], &least)];
        assert_eq!(rt; refused(blocks.as_flattened()), Some((5, 2)));
    }
    let blocks = [first, block(SHAPING, 2, &[1, 2], &[])];
    assert_eq!(rt; refused(blocks.as_flattened()), None);
}

#[test]
fn shape(rt: HostRuntime) {
    let first = block(EVENTS, 4, &[1, 1, 1, 1], &[0, 0, 0, 0]);
    for counts in [[1, 1, 1, 3], [1, 1, 1, 2]] {
        let blocks = [first, block(SHAPING, 4, &counts, &[])];
        assert_eq!(rt; refused(blocks.as_flattened()), Some((6, 2)));
    }
    let blocks = [first, block(SHAPING, 4, &[1, 1, 2, 2], &[])];
    assert_eq!(rt; refused(blocks.as_flattened()), None);
}

#[test]
fn overload(rt: HostRuntime) {
    let one = block(EVENTS, 1, &[1], &[0]);
    let two = block(EVENTS, 1, &[2], &[0]);
    let wrong = [
        [one, block(SERVICE, 1, &[1], &[0])],
        [two, block(SERVICE, 1, &[2], &[1])],
        [two, block(SHAPING, 1, &[1], &[])],
    ];
    for blocks in wrong {
        assert_eq!(rt; refused(blocks.as_flattened()), Some((7, 2)));
    }
    let right = [
        [one, block(SERVICE, 1, &[1], &[1])],
        [two, block(SHAPING, 1, &[2], &[])],
    ];
    for blocks in right {
        assert_eq!(rt; refused(blocks.as_flattened()), None);
    }
}

#[test]
fn crowd(rt: HostRuntime) {
    let first = block(EVENTS, 2, &[1, 600_000], &[0, 0]);
    let fits = block(EVENTS, 2, &[2, 400_000], &[0, 0]);
    let crowds = block(EVENTS, 2, &[2, 400_001], &[0, 0]);
    assert_eq!(rt; refused([first, fits].as_flattened()), None);
    assert_eq!(rt; refused([first, crowds].as_flattened()), Some((8, 2)));
    assert_eq!(rt; refused([first, fits, fits].as_flattened()), Some((8, 3)));
}
