// The laws of a greedy shaper.
ghost use Rattle.std.specs.Prelude.{◌≡◌};
ghost use Rattle.courses.specs.Claims.{Shaped, Shaper, ShaperTables};

// It answers a number, so that an edit can turn it.
/// What a greedy shaper passes, and its bounds.
pub fn shaper_stands() -> u8
    ensures value { result ≡ 0 }
    ensures law { Shaped × Shaper × ShaperTables }
{
    0
}
