//! Each call of a chunk once on its happy path.
use chunk_slots::Chunk;
use shared_leaves::{Copied, Shared};
use std::test::Fail;
use vec_base::{Bytes, Steps, Value};

#[test]
fn a_shared_chunk_stays(rt: HostRuntime) -> Result<(), Fail> {
    let alloc = rt.alloc();
    let mut chunk = Chunk::with_shape(alloc, 8, &[2]).or(Err("no memory"))?;
    chunk.place(0, 5).or(Err("no memory"))?;
    let shared = chunk.share(alloc).or(Err("no memory"))?;
    assert_eq!(rt; (chunk.used(), shared.used()), (1, 1));
    chunk.drop_slot(0).or(Err("no memory"))?;
    assert_eq!(rt; (chunk.used(), shared.used()), (0, 1));
    assert_eq!(rt; shared.rowid(0), Some(5));
    Ok(())
}

#[test]
fn a_vector_is_changed(rt: HostRuntime) -> Result<(), Fail> {
    let alloc = rt.alloc();
    let mut chunk = Chunk::with_shape(alloc, 8, &[2]).or(Err("no memory"))?;
    chunk.place(0, 5).or(Err("no memory"))?;
    chunk.set_vector(0, 0, &[1, 2]).or(Err("no memory"))?;
    let mut steps = Steps::new();
    assert_eq!(rt; chunk.vector(0, 0, &mut steps), [1, 2].as_slice());
    assert_eq!(rt; (steps.reads, steps.pieces), (1, 0));
    Ok(())
}

#[test]
fn a_row_takes_a_slot(rt: HostRuntime) -> Result<(), Fail> {
    let alloc = rt.alloc();
    let vector = Bytes::from_slice(alloc, &[1, 2]).or(Err("no memory"))?;
    let bits = Bytes::from_slice(alloc, &[9]).or(Err("no memory"))?;
    let values = [Value::Int8(vector), Value::Int(3), Value::Bits(bits)];
    let mut chunk = Chunk::with_shape(alloc, 16, &[2, 1]).or(Err("no memory"))?;
    chunk.place_row(9, 7, &values).or(Err("no memory"))?;
    assert_eq!(rt; chunk.vector(9, 1, &mut Steps::new()), [9].as_slice());
    assert_eq!(rt; (chunk.size(), chunk.first_free()), (16, Some(0)));
    assert_eq!(rt; chunk.valid().as_bytes(), [0, 2].as_slice());
    Ok(())
}

#[test]
fn a_copied_chunk_is_equal(rt: HostRuntime) -> Result<(), Fail> {
    let alloc = rt.alloc();
    let mut chunk = Chunk::with_shape(alloc, 8, &[1]).or(Err("no memory"))?;
    chunk.place(2, -1).or(Err("no memory"))?;
    let copy = chunk.copied(alloc).or(Err("no memory"))?;
    let shared = Shared::new(alloc, copy).or(Err("no memory"))?;
    chunk.free(2);
    assert_eq!(rt; (chunk.used(), shared.get().used()), (0, 1));
    Ok(())
}
