ghost use Rattle.std.specs.Prelude.{◌≡◌, ◌+◌, ◌<◌, ◌≤◌, [], ◌∷◌, ◌++◌, map, length};
ghost use Rattle.tables.specs.Tables.{curves};
ghost use Rattle.book.specs.Books.{chained};
ghost use Rattle.book.specs.Chains.{staged};

use super::Analysis;
use crate::line::Line;
use tables::{Pair, StageKind};

impl Analysis {
    // A chain of its first block alone.
    pub(crate) fn of(first: Pair) -> Analysis
        ensures first { (chained result).first ≡ curves first }
        ensures stages { (chained result).stages ≡ [] }
        ensures count { result.count ≡ 0 }
    {
        let blank = Line {
            stage: StageKind::Join,
            wait: 0,
            delay: 0,
            pair: first,
        };
        Analysis {
            first,
            count: 0,
            lines: [blank; 31],
        }
    }

    // One stage more.
    pub(crate) fn add(&mut self, line: Line)
        requires { self.old.count < 31 }
        ensures first { (chained self.new).first ≡ (chained self.old).first }
        ensures stages { (chained self.new).stages ≡ (chained self.old).stages ++ staged line ∷ [] }
        ensures count { self.new.count ≡ self.old.count + 1 }
    {
        self.lines[self.count] = line;
        self.count += 1;
    }

    /// The pair of the first block.
    pub fn first(&self) -> &Pair
        ensures { result.now ≡ self.now.first }
    {
        &self.first
    }

    /// A line for each block after the first, in their order.
    pub fn lines(&self) -> &[Line]
        ensures value { map staged result.now ≡ (chained self.now).stages }
        ensures bound { length result.now ≤ 31 }
    {
        &self.lines[0..self.count]
    }
}
