//! Each call of a store of rows once on its happy path.
ghost use Rattle.std.specs.Prelude.{◌≡◌, [], ◌∷◌, IfOk};
ghost use Rattle.row_model.specs.declared.schema.Kind.TheVariants.{IntMeta};
ghost use Rattle.row_store.specs.Touches.{HasSameShape};

use row_chunks::Field;
use row_model::{Column, Kind, Metric};
use row_store::RowStore;
use std::alloc::Global;
use std::test::Fail;
use vec_base::{Bytes, List, Memory, Steps, Txt, Value};

/// Vectors of two bytes.
fn widths(alloc: Global) -> Result<List<u16>, Memory>
    ensures { IfOk result (λ widths. widths ≡ 2 ∷ []) }
{
    let mut widths = List::new(alloc);
    widths.push(2u16)?;
    Ok(widths)
}

/// Numbers as cells.
fn kinds(alloc: Global) -> Result<List<Kind>, Memory>
    ensures { IfOk result (λ kinds. kinds ≡ IntMeta ∷ []) }
{
    let mut kinds = List::new(alloc);
    kinds.push(Kind::IntMeta)?;
    Ok(kinds)
}

/// No rows, in chunks of 8 slots.
fn store(alloc: Global) -> Result<RowStore, Memory>
    ensures rows { IfOk result (λ store. store.rows ≡ []) }
    ensures widths { IfOk result (λ store. store.widths ≡ 2 ∷ []) }
    ensures kinds { IfOk result (λ store. store.kinds ≡ IntMeta ∷ []) }
{
    RowStore::new(alloc, 8, widths(alloc)?, kinds(alloc)?)
}

/// Puts in the first row, with the id "a", a vector of 1 and 2, and the number 3.
fn put(alloc: Global, store: &mut RowStore, rowid: i64) -> Result<(), Memory>
    requires rows { store.old.rows ≡ [] }
    requires widths { store.old.widths ≡ 2 ∷ [] }
    requires kinds { store.old.kinds ≡ IntMeta ∷ [] }
    ensures { HasSameShape store.old store.new }
{
    let columns = [
        Column {
            name: Txt::from_text(alloc, "v")?,
            kind: Kind::Int8Vector(2, Metric::L2),
        },
        Column {
            name: Txt::from_text(alloc, "n")?,
            kind: Kind::IntMeta,
        },
    ];
    let vector = Bytes::from_slice(alloc, &[1, 2])?;
    let values = [Value::Int8(vector), Value::Int(3)];
    store.put(
        alloc,
        &rowid,
        Some("a"),
        &List::new(alloc),
        &columns,
        &values,
    )
}

/// A store with one row.
fn store_of(alloc: Global, rowid: i64) -> Result<RowStore, Memory>
    ensures widths { IfOk result (λ store. store.widths ≡ 2 ∷ []) }
    ensures kinds { IfOk result (λ store. store.kinds ≡ IntMeta ∷ []) }
{
    let mut store = store(alloc)?;
    put(alloc, &mut store, rowid)?;
    Ok(store)
}

/// What is seen of a row: the first byte of its vector, and its number.
type Held = Option<(Option<u8>, Option<i64>)>;

/// What a row holds, if it is there.
fn held(store: &RowStore, rowid: i64) -> Held
    requires widths { store.now.widths ≡ 2 ∷ [] }
    requires kinds { store.now.kinds ≡ IntMeta ∷ [] }
{
    let row = store.row(&rowid)?;
    let mut steps = Steps::new();
    let vector = row.slots.slots().vector(row.slot, 0, &mut steps);
    let number = match row.slots.cell(row.slot, 0) {
        Field::Int(number) => Some(number),
        _ => None,
    };
    Some((vector.first().copied(), number))
}

/// Sets the vector of a row to 7 and 8, and its number to 9. Answers whether the row is there, each time.
fn set(alloc: Global, store: &mut RowStore, rowid: i64) -> Result<(bool, bool), Memory>
    requires widths { store.old.widths ≡ 2 ∷ [] }
    requires kinds { store.old.kinds ≡ IntMeta ∷ [] }
    ensures { HasSameShape store.old store.new }
{
    let vector = store.set_vector(alloc, &rowid, 0, &[7, 8])?;
    let number = store.set_cell(alloc, &rowid, 0, &Value::Int(9))?;
    Ok((vector, number))
}

/// What is answered to the changes of a row where the row 5 is, what that row holds then, and what a copy from before holds of it.
fn changed(alloc: Global, rowid: i64) -> Result<((bool, bool), Held, Held), Memory> {
    let mut store = store_of(alloc, 5)?;
    let shared = store.share(alloc)?;
    let set = set(alloc, &mut store, rowid)?;
    Ok((set, held(&store, 5), held(&shared, 5)))
}

#[test]
fn a_row_changes_in_its_place(rt: HostRuntime) -> Result<(), Fail> {
    let (set, held, before) = changed(rt.alloc(), 5).or(Err("no memory"))?;
    assert_eq!(rt; set, (true, true));
    assert_eq!(rt;
        (held, before),
        (Some((Some(7), Some(9))), Some((Some(1), Some(3))))
    );
    Ok(())
}

#[test]
fn a_row_that_is_not_there_does_not_change(rt: HostRuntime) -> Result<(), Fail> {
    let (set, held, before) = changed(rt.alloc(), 6).or(Err("no memory"))?;
    assert_eq!(rt; set, (false, false));
    assert_eq!(rt;
        (held, before),
        (Some((Some(1), Some(3))), Some((Some(1), Some(3))))
    );
    Ok(())
}

/// The first row, the row of an id, the first chunk, and how many rows there are.
type Seen = (Option<i64>, Option<i64>, Option<u32>, u64);

/// What is seen of a store.
fn seen(store: &RowStore) -> Seen {
    (
        store.next(None),
        store.rowid_of("a"),
        store.next_chunk(0),
        store.len(),
    )
}

/// What is seen before and after the only row goes, and what is answered when it is to go twice.
fn removed(alloc: Global) -> Result<(Seen, Seen, (bool, bool)), Memory> {
    let mut store = store_of(alloc, 5)?;
    let before = seen(&store);
    let answers = (store.remove(alloc, &5)?, store.remove(alloc, &5)?);
    Ok((before, seen(&store), answers))
}

#[test]
fn a_row_is_found_and_goes(rt: HostRuntime) -> Result<(), Fail> {
    let (before, after, answers) = removed(rt.alloc()).or(Err("no memory"))?;
    assert_eq!(rt; before, (Some(5), Some(5), Some(1), 1));
    assert_eq!(rt; after, (None, None, None, 0));
    assert_eq!(rt; answers, (true, false));
    Ok(())
}

/// Whether a chunk has slots, and whether it has partition values.
fn parts(alloc: Global, chunk: u32) -> Result<(bool, bool), Memory> {
    let store = store_of(alloc, 5)?;
    Ok((
        store.slots(chunk).is_some(),
        store.partition(chunk).is_some(),
    ))
}

#[test]
fn a_chunk_is_there_with_its_row(rt: HostRuntime) -> Result<(), Fail> {
    let there = parts(rt.alloc(), 1).or(Err("no memory"))?;
    let other = parts(rt.alloc(), 2).or(Err("no memory"))?;
    assert_eq!(rt; (there, other), ((true, true), (false, false)));
    Ok(())
}
