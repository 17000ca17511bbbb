// The laws of the bottom flows.
ghost use Rattle.std.specs.Prelude.{◌≡◌};
ghost use Rattle.courses.specs.Claims.{Bottoms};

// It answers a number, so that an edit can turn it.
/// What the bottom flows keep.
pub fn bottoms_stand() -> u8
    ensures value { result ≡ 0 }
    ensures law { Bottoms }
{
    0
}
