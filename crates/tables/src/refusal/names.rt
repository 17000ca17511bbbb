ghost use Rattle.std.specs.Prelude.{◌≡◌, Some};
ghost use Rattle.tables.specs.Refusals.{number_of, word_of};

use super::Refusal;
use std::fmt;

impl From<Refusal> for u8 {
    ghost from_gives = { λ r n. n ≡ number_of r };

    fn from(refusal: Refusal) -> u8 {
        refusal as u8
    }
}

impl fmt::Display for Refusal {
    ghost output = { λ s. Some (word_of s) };

    fn fmt<W: fmt::Write>(&self, f: &mut fmt::Formatter<W>) -> fmt::Result {
        f.write_str(self.word())
    }
}

impl Refusal {
    /// The number that users know it by.
    pub fn number(self) -> u8
        ensures { result ≡ number_of self }
    {
        u8::from(self)
    }

    pub fn word(self) -> &'static str
        ensures { result.now ≡ word_of self }
    {
        match self {
            Refusal::Length => "length",
            Refusal::Check => "check",
            Refusal::Kind => "kind",
            Refusal::Frame => "frame",
            Refusal::Table => "table",
            Refusal::Shape => "shape",
            Refusal::Overload => "overload",
            Refusal::Crowd => "crowd",
            Refusal::Promise => "promise",
            Refusal::Clock => "clock",
            Refusal::Log => "log",
            Refusal::List => "list",
            Refusal::Ring => "ring",
            Refusal::Step => "step",
        }
    }
}
