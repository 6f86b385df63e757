//! Tests of the pages of tables: shared lists, counters of work, bitmaps, the index of rows, chunks, their metadata, and used places.
#![tactic(auto)]

#[cfg(test)]
mod chunks;
#[cfg(test)]
mod index;
#[cfg(test)]
mod metadata;
#[cfg(test)]
mod places;
#[cfg(test)]
mod tests;
