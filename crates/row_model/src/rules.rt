//! The rules on the form of a WHERE, by the numbers that refusals name.

/// More than one MATCH.
pub const SECOND_MATCH: u8 = 1;

/// MATCH on a column that is no vector column.
pub const MATCH_OF_NO_VECTOR: u8 = 2;

/// MATCH without `k` and LIMIT, or with both or several of them.
pub const MATCH_WITHOUT_ONE_COUNT: u8 = 3;

/// `k` without MATCH.
pub const COUNT_WITHOUT_MATCH: u8 = 4;

/// `distance` as an item or as the order without MATCH.
pub const DISTANCE_WITHOUT_MATCH: u8 = 5;

/// MATCH with the rowid as the order.
pub const MATCH_BY_ROWID: u8 = 6;

/// A term on an auxiliary column beside MATCH.
pub const AUXILIARY_BESIDE_MATCH: u8 = 7;

/// An operator or IN on a vector column.
pub const VECTOR_COMPARED: u8 = 8;

/// An operator that a BOOLEAN or an auxiliary column does not take.
pub const UNTAKEN_OPERATOR: u8 = 9;

/// UPDATE or DELETE with MATCH or `k`.
pub const CHANGE_BY_MATCH: u8 = 10;

/// `distance` in a WHERE without MATCH, or not as a bound.
pub const DISTANCE_BESIDE_BOUNDS: u8 = 11;

/// `k` with anything but `=`.
pub const COUNT_WITHOUT_EQUAL: u8 = 12;
