// The check sums of a block.
ghost use Rattle.std.specs.Prelude.{◌≡◌, ◌%◌};
ghost use Rattle.book.specs.Layout.{checked};
ghost use Rattle.book.specs.Sums.{total, running};

/// The sum of the bytes before the check, and the sum of all its running values, both modulo 65,535.
#[derive(Clone, Copy, PartialEq, Eq, Debug)]
pub struct CheckSums {
    pub sum: u16,
    pub running_sum: u16,
}

/// The bytes of a block before its check.
pub type Summed = [u8; 508];

/// The bytes of a block, with its check.
pub type BlockBytes = [u8; 512];

/// The check sums of a block's bytes.
pub fn check_sums(bytes: &Summed) -> CheckSums
    ensures sum { result.sum ≡ total bytes.now % 65535 }
    ensures running { result.running_sum ≡ running bytes.now % 65535 }
{
    // One loop for both sums: that they fit is known of a loop, and not of the closure of a fold.
    let mut sum: u32 = 0;
    let mut running_sum: u32 = 0;
    for byte in bytes {
        sum += u32::from(*byte);
        running_sum += sum;
    }
    CheckSums {
        sum: (sum % 65535) as u16,
        running_sum: (running_sum % 65535) as u16,
    }
}

// Whether the check of a block holds its sums.
pub fn is_checked(block: &BlockBytes) -> bool
    ensures { result ≡ checked block.now }
{
    let sums = check_sums(block.first_chunk::<508>().unwrap());
    let [a, b, c, d] = block.last_chunk::<4>().unwrap();
    sums.sum == u16::from_be_bytes([*a, *b]) && sums.running_sum == u16::from_be_bytes([*c, *d])
}
