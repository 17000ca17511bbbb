// The laws of what is kept.
ghost use Rattle.std.specs.Prelude.{◌≡◌};
ghost use Rattle.courses.specs.Claims.{Kept};

// It answers a number, so that an edit can turn it.
/// What is kept later on, up to an earlier tick, and by a course that is the same.
pub fn kept_stands() -> u8
    ensures value { result ≡ 0 }
    ensures law { Kept }
{
    0
}
