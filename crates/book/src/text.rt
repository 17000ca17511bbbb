// The listing of a book.
ghost use Rattle.std.specs.Prelude.{◌≡◌, map, Some};
ghost use Rattle.tables.specs.Tables.{curves};
ghost use Rattle.book.specs.Books.{chained, turned};
ghost use Rattle.book.specs.Chains.{staged};
ghost use Rattle.book.specs.Text.{spaced, first_text, line_text, lines_text, totals_text, listing_text, refused_text};

use crate::analysis::{Analysis, Refused, Totals};
use crate::line::Line;
use std::fmt;
use std::fmt::Display;
use tables::Pair;

// Counts in a row, each after one space.
#[derive(Clone, Copy)]
struct Row<'a>(&'a [u32]);

impl fmt::Display for Row<'_> {
    ghost output = { λ r. Some (spaced r.0.now) };

    fn fmt<W: fmt::Write>(&self, f: &mut fmt::Formatter<W>) -> fmt::Result {
        for count in self.0 {
            write!(f, " {count}")?;
        }
        Ok(())
    }
}

// The frame, and the pair of the first block.
#[derive(Clone, Copy)]
struct First<'a>(&'a Pair);

impl fmt::Display for First<'_> {
    ghost output = { λ x. Some (first_text (curves x.0.now)) };

    fn fmt<W: fmt::Write>(&self, f: &mut fmt::Formatter<W>) -> fmt::Result {
        let Pair { most, least, .. } = self.0;
        writeln!(
            f,
            "frame {}\n1 events most{} least{}",
            most.frame(),
            Row(most.entries()),
            Row(least.entries())
        )
    }
}

// A line with its place in the book.
#[derive(Clone, Copy)]
struct Placed<'a> {
    place: usize,
    line: &'a Line,
}

impl fmt::Display for Placed<'_> {
    ghost output = { λ x. Some (line_text x.place (staged x.line.now)) };

    fn fmt<W: fmt::Write>(&self, f: &mut fmt::Formatter<W>) -> fmt::Result {
        let line = self.line;
        writeln!(
            f,
            "{} {} most{} least{} wait {} delay {}",
            self.place,
            line.stage,
            Row(line.pair.most.entries()),
            Row(line.pair.least.entries()),
            line.wait,
            line.delay
        )
    }
}

impl fmt::Display for Refused {
    ghost output = { λ x. Some (refused_text (turned x)) };

    fn fmt<W: fmt::Write>(&self, f: &mut fmt::Formatter<W>) -> fmt::Result {
        writeln!(f, "refused {} block {}", self.refusal.number(), self.block)
    }
}

impl fmt::Display for Totals {
    ghost output = { λ t. Some (totals_text t.wait t.delay) };

    fn fmt<W: fmt::Write>(&self, f: &mut fmt::Formatter<W>) -> fmt::Result {
        writeln!(f, "total wait {} delay {}", self.wait, self.delay)
    }
}

// The lines of the blocks after the first, one after another.
#[derive(Clone, Copy)]
struct Lines<'a>(&'a [Line]);

impl fmt::Display for Lines<'_> {
    ghost output = { λ x. Some (lines_text 2 (map staged x.0.now)) };

    fn fmt<W: fmt::Write>(&self, f: &mut fmt::Formatter<W>) -> fmt::Result {
        for (i, line) in self.0.iter().enumerate() {
            Placed { place: 2 + i, line }.fmt(f)?;
        }
        Ok(())
    }
}

impl fmt::Display for Analysis {
    ghost output = { λ a. Some (listing_text (chained a)) };

    fn fmt<W: fmt::Write>(&self, f: &mut fmt::Formatter<W>) -> fmt::Result {
        write!(
            f,
            "{}{}{}",
            First(self.first()),
            Lines(self.lines()),
            self.totals()
        )
    }
}
