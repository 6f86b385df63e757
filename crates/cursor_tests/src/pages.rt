//! What pages hold.
use vec_base::{List, Value};

/// The number that a row has as its first value.
fn number(row: &List<Value>) -> Option<i64> {
    match row.as_slice().first()? {
        Value::Int(number) => Some(*number),
        _ => None,
    }
}

/// The numbers of the first three rows of a page.
pub fn numbers(page: &List<List<Value>>) -> [Option<i64>; 3] {
    let mut numbers = [None; 3];
    for (into, row) in numbers.iter_mut().zip(page.as_slice()) {
        *into = number(row);
    }
    numbers
}
