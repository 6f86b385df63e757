//! Tests of the answers of SELECTs over tables in chunks, and of cursors over their rows.
#![tactic(auto)]

#[cfg(test)]
mod answers;
#[cfg(test)]
mod scans;
#[cfg(test)]
mod tables;
