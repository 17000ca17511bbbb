// Worked examples, each shown true of the definitions that the contracts cite.
#![tactic(auto)]

mod list;

pub use list::examples;
