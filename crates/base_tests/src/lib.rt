//! Tests of the crates at the bottom, over their public calls.
#![tactic(auto)]

#[cfg(test)]
mod distances;
#[cfg(test)]
mod literals;
#[cfg(test)]
mod memory;
#[cfg(test)]
mod readers;
#[cfg(test)]
mod texts;
#[cfg(test)]
mod tokens;
