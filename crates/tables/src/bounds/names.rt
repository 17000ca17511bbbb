ghost use Rattle.std.specs.Prelude.{Some};
ghost use Rattle.tables.specs.Kinds.{kind_word};

use super::StageKind;
use std::fmt;

impl fmt::Display for StageKind {
    ghost output = { λ s. Some (kind_word s) };

    fn fmt<W: fmt::Write>(&self, f: &mut fmt::Formatter<W>) -> fmt::Result {
        match self {
            StageKind::Server => f.write_str("server"),
            StageKind::Shaper => f.write_str("shaper"),
            StageKind::Join => f.write_str("join"),
        }
    }
}
