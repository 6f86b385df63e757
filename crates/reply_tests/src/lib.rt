//! Tests of the answers of the HTTP server, over the public calls.
#![tactic(auto)]

#[cfg(test)]
mod bad;
#[cfg(test)]
mod refused;
#[cfg(test)]
mod rows;
#[cfg(test)]
mod small;
