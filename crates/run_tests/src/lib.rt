// Tests of runs, in a crate of their own.
#![tactic(auto)]

#[cfg(test)]
mod tests;
