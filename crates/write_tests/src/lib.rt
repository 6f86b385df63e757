//! Tests of the writes on a table.
#![tactic(auto)]

#[cfg(test)]
mod deletes;
#[cfg(test)]
mod inserts;
#[cfg(test)]
mod tables;
#[cfg(test)]
mod updates;
