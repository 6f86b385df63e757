//! Tests of records of comma-separated fields, over public calls.
#![tactic(auto)]

#[cfg(test)]
mod fields;
#[cfg(test)]
mod records;
