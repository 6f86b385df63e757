//! Rows by their distance from a vector.
ghost use Rattle.std.specs.Prelude.{◌≡◌, ◌<◌, ◌≤◌, length, IfOk, Some, map, take, [], true, if◌then◌else◌};
ghost use Rattle.std.specs.List.{list_all, AllByRecursion};
ghost use Rattle.vec_base.specs.Ranks.{first_ranked, placed};
ghost use Rattle.vec_base.specs.inner.Offers.{offered};
ghost use Rattle.topk_merge.specs.Hits.{is_before as is_hit_before};
ghost use Rattle.plain_engine.specs.inner.RowHits.{hit_to, near_at, row_with};
ghost use Rattle.row_model.specs.Answer.{Near as NearRow, Target as TargetValue, is_before, near_to, target_of, counted, counts, vector_of, distance_by, distance_in, distance_at};
ghost use Rattle.row_model.specs.inner.ComparableVectors.{IsComparable};
ghost use Rattle.row_model.specs.Rows.{has_rowid, is_rising};
ghost use Rattle.row_model.specs.Schemas.{is_vector};
ghost use Rattle.row_model.specs.Values.{value_at};
ghost use Rattle.row_model.specs.declared.schema.TheConstants.{MOST_COLUMNS};
ghost use Rattle.vec_base.specs.declared.limits.TheConstants.{MOST_DIMENSIONS};

use crate::meet::{meets_bounds, meets_row_terms};
use distance_kernels::{hamming, l1, l2_squared};
use row_model::{Column, Constraint, Kind, Metric, Place, Row, Test};
use std::alloc::Global;
use std::marker::Model;
use topk_merge::{Best, Hit};
use vec_base::{Memory, Value};

/// A row with its distance, which is 0 where none is asked for.
#[derive(Drop)]
pub(crate) struct Near<'a> {
    pub distance: u32,
    pub row: &'a Row,
}

impl<'a> Model for Near<'a> {
    ghost Value = { NearRow };

    ghost view = { λ near. record { distance = near.distance; row = near.row.now } };
}

/// The vector of a MATCH, with its column's place.
#[derive(Drop)]
pub(crate) struct Target<'a> {
    place: Place,
    query: &'a Value,
}

impl<'a> Model for Target<'a> {
    ghost Value = { TargetValue };

    ghost view = { λ target. record { place = target.place; query = target.query.now } };
}

/// The first MATCH among the terms.
pub(crate) fn target_of<'a>(columns: &[Column], terms: &'a [Constraint]) -> Option<Target<'a>>
    requires narrow { length columns.now ≤ MOST_COLUMNS }
    ensures { result ≡ target_of columns.now terms.now }
{
    let Some((term, more)) = terms.split_first() else {
        return None;
    };
    match &term.test {
        Test::Match(query) => Some(Target {
            place: Place::of(columns, &term.column),
            query,
        }),
        _ => target_of(columns, more),
    }
}

/// The bytes of a vector.
fn vector_of(value: &Value) -> &[u8]
    ensures { result.now ≡ vector_of value.now }
{
    match value {
        Value::Int8(bytes) => bytes.as_slice(),
        Value::Bits(bytes) => bytes.as_slice(),
        _ => &[],
    }
}

/// The bytes of the row's vector at a place.
fn vector_at(place: Place, row: &Row) -> &[u8]
    ensures { result.now ≡ vector_of (value_at place row.now) }
{
    match place {
        Place::Declared(_, Kind::IntKey) => &[],
        Place::Declared(number, _) => {
            let values = row.values.as_slice();
            let at = number.saturating_sub(1) as usize;
            if at < values.len() {
                vector_of(&values[at])
            } else {
                &[]
            }
        }
        _ => &[],
    }
}

fn distance_by(metric: Metric, a: &[u8], b: &[u8]) -> u32
    requires same_length { length a.now ≡ length b.now }
    requires short { length a.now ≤ MOST_DIMENSIONS }
    ensures { result ≡ distance_by metric a.now b.now }
{
    match metric {
        Metric::L1 => l1(a, b),
        Metric::L2 => l2_squared(a, b),
    }
}

/// The distance of two vectors of a vector column.
fn distance_in(kind: Kind, a: &[u8], b: &[u8]) -> u32
    requires column { is_vector kind ≡ true }
    requires same_length { length a.now ≡ length b.now }
    requires short { length a.now ≤ MOST_DIMENSIONS }
    ensures { result ≡ distance_in kind a.now b.now }
{
    match kind {
        Kind::Int8Vector(_, metric) => distance_by(metric, a, b),
        Kind::BitVector(_) => hamming(a, b),
        _ => unreachable!(),
    }
}

/// The distance of the row's vector from the target.
fn distance_at(target: &Target, row: &Row) -> u32
    requires comparable { IsComparable target.now row.now }
    ensures { result ≡ distance_at target.now.place target.now.query row.now }
{
    match target.place {
        Place::Declared(_, kind) => distance_in(
            kind,
            vector_at(target.place, row),
            vector_of(target.query),
        ),
        _ => unreachable!(),
    }
}

/// The row's distance from the target, with its rowid.
fn hit_to(target: &Target, row: &Row) -> Hit
    requires comparable { IsComparable target.now row.now }
    ensures { result ≡ hit_to target.now row.now }
{
    Hit {
        distance: distance_at(target, row),
        rowid: row.rowid,
    }
}

/// Offers the hit of a row that counts. Its distance is taken only where it meets the terms that look at it, and the bounds
/// are tested on this distance.
#[tactic(auto, using(crate::proofs::BoundLaws::counts_split))]
fn offer_row(best: &mut Best, columns: &[Column], terms: &[Constraint], target: &Target, row: &Row)
    requires narrow { length columns.now ≤ MOST_COLUMNS }
    requires comparable { IsComparable target.now row.now }
    ensures room { best.new.room ≡ best.old.room }
    ensures hits { best.new.hits ≡ (if counts columns.now terms.now (near_to target.now row.now) then take best.old.room (placed is_hit_before (hit_to target.now row.now) best.old.hits) else best.old.hits) }
{
    if !meets_row_terms(columns, terms, row) {
        return;
    }
    let hit = hit_to(target, row);
    if meets_bounds(columns, terms, hit.distance) {
        best.offer(hit);
    }
}

/// The first k hits of the rows that count.
fn best_hits(
    alloc: Global,
    columns: &[Column],
    terms: &[Constraint],
    target: &Target,
    k: u16,
    rows: &[Row],
) -> Result<Best, Memory>
    requires narrow { length columns.now ≤ MOST_COLUMNS }
    requires comparable { AllByRecursion (IsComparable target.now) rows.now }
    ensures { IfOk result (λ best. best.hits ≡ offered is_hit_before k [] (map (hit_to target.now) (counted columns.now terms.now (Some target.now) rows.now))) }
{
    let mut best = Best::with_room(alloc, k)?;
    for row in rows {
        offer_row(&mut best, columns, terms, target, row);
    }
    Ok(best)
}

/// The row of the rowid, which is there.
fn row_with<'a>(rows: &'a [Row], rowid: &i64) -> &'a Row
    requires rising { is_rising rows.now ≡ true }
    requires there { has_rowid rowid.now rows.now ≡ true }
    ensures { result.now ≡ row_with rowid.now rows.now }
{
    match rows.binary_search_by(|row| row.rowid.cmp(rowid)) {
        Ok(at) => &rows[at],
        Err(_) => unreachable!(),
    }
}

/// The rows of the hits, each at its hit's distance.
fn rows_of<'a>(alloc: Global, hits: &[Hit], rows: &'a [Row]) -> Result<Vec<Near<'a>>, Memory>
    requires rising { is_rising rows.now ≡ true }
    requires there { list_all (λ hit. has_rowid hit.rowid rows.now) hits.now ≡ true }
    ensures { IfOk result (λ nears. nears.items ≡ map (near_at rows.now) hits.now) }
{
    let mut nears = Vec::with_capacity(alloc, hits.len())?;
    for hit in hits {
        nears.push(Near {
            distance: hit.distance,
            row: row_with(rows, &hit.rowid),
        })?;
    }
    Ok(nears)
}

/// Of the rows that count the k nearest to the target, in order.
pub(crate) fn nearest<'a>(
    alloc: Global,
    columns: &[Column],
    terms: &[Constraint],
    target: &Target,
    k: u16,
    rows: &'a [Row],
) -> Result<Vec<Near<'a>>, Memory>
    requires narrow { length columns.now ≤ MOST_COLUMNS }
    requires comparable { AllByRecursion (IsComparable target.now) rows.now }
    requires rising { is_rising rows.now ≡ true }
    ensures { IfOk result (λ nears. nears.items ≡ first_ranked is_before k (map (near_to target.now) (counted columns.now terms.now (Some target.now) rows.now))) }
{
    let best = best_hits(alloc, columns, terms, target, k, rows)?;
    rows_of(alloc, best.hits(), rows)
}
