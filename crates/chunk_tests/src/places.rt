//! The used places of a table: each call on its happy path.
use slot_alloc::{Place, Places, same_values};
use std::alloc::Global;
use std::test::Fail;
use vec_base::{List, Memory, Value};

/// The list of one number.
fn number(alloc: Global, number: i64) -> Result<List<Value>, Memory> {
    let mut values = List::new(alloc);
    values.push(Value::Int(number))?;
    Ok(values)
}

/// Gives back a place, where it is used.
fn give_back(places: &mut Places, chunk: u32, slot: u16) -> Result<Option<bool>, Memory> {
    if places.partition_at(chunk, slot).is_none() {
        return Ok(None);
    }
    Ok(Some(places.give_back(chunk, slot)?))
}

#[test]
fn the_lowest_place_is_taken(rt: HostRuntime) -> Result<(), Fail> {
    let alloc = rt.alloc();
    let none = List::new(alloc);
    let mut places = Places::with_chunk_size(alloc, 8).or(Err("no memory"))?;
    assert_eq!(rt; places.take(alloc, &none), Ok(Place::NewChunk(1)));
    assert_eq!(rt; places.take(alloc, &none), Ok(Place::Slot(1, 1)));
    assert_eq!(rt; give_back(&mut places, 1, 0), Ok(Some(false)));
    let shared = places.share().or(Err("no memory"))?;
    assert_eq!(rt; give_back(&mut places, 1, 1), Ok(Some(true)));
    assert_eq!(rt;
        (places.next_chunk(0), shared.next_chunk(0)),
        (None, Some(1))
    );
    assert!(rt; places.partition_at(1, 1).is_none() && shared.partition_at(1, 1).is_some());
    Ok(())
}

#[test]
fn an_occupied_chunk_is_filled(rt: HostRuntime) -> Result<(), Fail> {
    let alloc = rt.alloc();
    let none = List::new(alloc);
    let mut places = Places::with_chunk_size(alloc, 8).or(Err("no memory"))?;
    places.occupy(alloc, 2, 0, &none).or(Err("no memory"))?;
    for slot in 1..8u16 {
        assert_eq!(rt; places.take(alloc, &none), Ok(Place::Slot(2, slot)));
    }
    assert_eq!(rt; places.take(alloc, &none), Ok(Place::NewChunk(1)));
    assert_eq!(rt; places.size(), 8);
    Ok(())
}

#[test]
fn partitions_have_chunks_of_their_own(rt: HostRuntime) -> Result<(), Fail> {
    let alloc = rt.alloc();
    let five = number(alloc, 5).or(Err("no memory"))?;
    let seven = number(alloc, 7).or(Err("no memory"))?;
    let mut places = Places::with_chunk_size(alloc, 8).or(Err("no memory"))?;
    assert_eq!(rt; places.take(alloc, &seven), Ok(Place::NewChunk(1)));
    assert_eq!(rt; places.take(alloc, &five), Ok(Place::NewChunk(2)));
    assert_eq!(rt; places.take(alloc, &seven), Ok(Place::Slot(1, 1)));
    assert_eq!(rt; give_back(&mut places, 1, 0), Ok(Some(false)));
    assert_eq!(rt; places.take(alloc, &seven), Ok(Place::Slot(1, 0)));
    assert_eq!(rt;
        (places.next_chunk(1), places.next_chunk(2)),
        (Some(2), None)
    );
    assert!(rt; matches!(places.partition(2), Some(values) if same_values(values, &five)));
    assert!(rt; places.partition(3).is_none());
    Ok(())
}
