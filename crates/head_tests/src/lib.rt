//! Tests of the heads that connections give.
#![tactic(auto)]

#[cfg(test)]
mod heads;
