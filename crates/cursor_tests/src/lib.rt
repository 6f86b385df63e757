//! Tests of cursors.
#![tactic(auto)]

#[cfg(test)]
mod kept_rows;
#[cfg(test)]
mod pages;
#[cfg(test)]
mod scans;
#[cfg(test)]
mod three_rows;
