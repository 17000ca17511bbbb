// The laws of what follows from what.
ghost use Rattle.std.specs.Prelude.{◌≡◌};
ghost use Rattle.courses.specs.Claims.{Causal};

// It answers a number, so that an edit can turn it.
/// What passes up to a tick follows from what came up to it.
pub fn causal_stands() -> u8
    ensures value { result ≡ 0 }
    ensures law { Causal }
{
    0
}
