//! Searches over tables with columns of each kind.
#![tactic(auto)]

#[cfg(test)]
mod bits;
#[cfg(test)]
mod documents;
#[cfg(test)]
mod refusals;
#[cfg(test)]
mod search;
#[cfg(test)]
mod wide;
