// The laws of single ticks.
ghost use Rattle.std.specs.Prelude.{◌≡◌};
ghost use Rattle.courses.specs.Claims.{Steps};

// It answers a number, so that an edit can turn it.
/// The stages tick by tick keep the rules, and go on from a state that they reached.
pub fn steps_stand() -> u8
    ensures value { result ≡ 0 }
    ensures law { Steps }
{
    0
}
