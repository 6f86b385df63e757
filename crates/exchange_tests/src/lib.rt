//! Tests of what connections ask for, over the public calls.
#![tactic(auto)]

#[cfg(test)]
mod connections;
#[cfg(test)]
mod long;
#[cfg(test)]
mod requests;
#[cfg(test)]
mod tables;
