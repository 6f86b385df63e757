//! Tests of plans, over public calls.
#![tactic(auto)]

#[cfg(test)]
mod tests;
