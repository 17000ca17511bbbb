// From the frame to every length.
ghost use Rattle.std.specs.Prelude.{◌≡◌};
ghost use Rattle.courses.specs.Claims.{Frames, Subadditive};

// It answers a number, so that an edit can turn it.
/// What holds up to the frame holds at every length.
pub fn frames_stand() -> u8
    ensures value { result ≡ 0 }
    ensures law { Frames × Subadditive }
{
    0
}
