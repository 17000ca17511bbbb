// The law of a join.
ghost use Rattle.std.specs.Prelude.{◌≡◌};
ghost use Rattle.courses.specs.Claims.{Join};

// It answers a number, so that an edit can turn it.
/// What a join keeps.
pub fn join_stands() -> u8
    ensures value { result ≡ 0 }
    ensures law { Join }
{
    0
}
