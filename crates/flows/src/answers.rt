// An answer as a number.
ghost use Rattle.std.specs.Prelude.{◌≡◌};
ghost use Rattle.flows.specs.Checks.{number_given};

use tables::Refusal;

/// The number of an answer as users know it: 0, or that of the refusal.
pub fn number_given<T: Drop>(answer: Result<T, Refusal>) -> u8
    ensures { result ≡ number_given answer }
{
    match answer {
        Ok(_) => 0,
        Err(refusal) => refusal.number(),
    }
}
