//! Tests of what heads and bodies of requests ask for, over their public calls.
#![tactic(auto)]

#[cfg(test)]
mod requests;
