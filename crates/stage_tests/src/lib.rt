// Tests of the stages, in a crate of their own.
#![tactic(auto)]

#[cfg(test)]
mod tests;
