//! Tests of the bodies of records.
#![tactic(auto)]

#[cfg(test)]
mod forms;
#[cfg(test)]
mod records;
#[cfg(test)]
mod rows;
