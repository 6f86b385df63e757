//! Tests of the plain engine over its public calls.
#![tactic(auto)]

#[cfg(test)]
mod cursors;
#[cfg(test)]
mod steps;
#[cfg(test)]
mod tests;
#[cfg(test)]
mod transactions;
