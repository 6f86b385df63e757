//! Tests of the shelf of versions.
#![tactic(auto)]

#[cfg(test)]
mod catalogs;
#[cfg(test)]
mod places;
#[cfg(test)]
mod tables;
#[cfg(test)]
mod versions;
