//! Tests of the words of the command line, over the public call.
#![tactic(auto)]

#[cfg(test)]
mod lists;
#[cfg(test)]
mod modes;
#[cfg(test)]
mod refusals;
