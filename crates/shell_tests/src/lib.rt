//! Tests of the shell over its one public call: what no script can show.
#![tactic(auto)]

#[cfg(test)]
mod faults;
