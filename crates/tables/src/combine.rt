// Tables made of other tables.
ghost use Rattle.std.specs.Prelude.{◌≡◌, ℕ, ◌+◌, ◌-◌, ◌≤◌};
ghost use Rattle.tables.specs.Curves.{convolved, deconvolved, excess, growth};
ghost use Rattle.tables.specs.Limits.{limit};
ghost use Rattle.tables.specs.Tables.{at, Shows};

use crate::sweeps::{convolved_at, excess_at, growth_at, rise_at};
use crate::table::Table;

// The min-plus convolution of two tables of one frame.
pub fn convolved_table(first: &Table, then: &Table) -> Table
    requires { first.now.frame ≡ then.now.frame }
    ensures { Shows result first.now.frame (convolved (at first.now) (at then.now)) }
{
    Table::of(first.frame(), |length| convolved_at(first, then, length))
}

// How far one table comes above another, at each length.
pub fn excess_table(of: &Table, over: &Table) -> Table
    ensures { Shows result of.now.frame (excess (at of.now) (at over.now)) }
{
    Table::of(of.frame(), |length| excess_at(of, over, length))
}

// The least growth of a table, at each length.
pub fn growth_table(h: &Table) -> Table
    ensures { Shows result h.now.frame (growth (h.now.frame - 1) (at h.now)) }
{
    Table::of(h.frame(), |length| growth_at(h, length))
}

// The largest growth of a table, at each length.
pub fn rise_table(h: &Table) -> Table
    ensures { Shows result h.now.frame (deconvolved (h.now.frame - 1) (at h.now) (at h.now)) }
{
    Table::of(h.frame(), |length| rise_at(h, length))
}

// The sum of two tables, where it keeps the limit.
pub fn sum_table(a: &Table, b: &Table) -> Table
    requires { at a.now a.now.frame + at b.now a.now.frame ≤ limit }
    ensures { Shows result a.now.frame (λ k. at a.now k + at b.now k) }
{
    Table::of(a.frame(), |length| a.near(length) + b.near(length))
}
