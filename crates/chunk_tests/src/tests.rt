//! Each call once on its happy path.
use chunk_bitmap::Bitmap;
use shared_leaves::{Copied, Edit, Leaves, Shared, Within};
use std::alloc::Global;
use std::test::Fail;
use vec_base::{Bytes, Memory, Steps, Txt, Value};

/// The items of a list, by their places.
fn items(alloc: Global, list: &Leaves<i64>) -> Result<Vec<i64>, Memory> {
    let mut items = Vec::new(alloc);
    for at in 0..list.len() {
        items.push(*list.get(at))?;
    }
    Ok(items)
}

#[test]
fn a_shared_list_stays(rt: HostRuntime) -> Result<(), Fail> {
    let alloc = rt.alloc();
    let mut list = Leaves::new(alloc);
    list.insert(0, 5).or(Err("no memory"))?;
    list.insert(1, 7).or(Err("no memory"))?;
    let shared = list.share().or(Err("no memory"))?;
    list.set(0, 9).or(Err("no memory"))?;
    list.remove(1).or(Err("no memory"))?;
    assert_eq!(rt;
        items(alloc, &list).or(Err("no memory"))?.as_slice(),
        [9].as_slice()
    );
    assert_eq!(rt;
        items(alloc, &shared).or(Err("no memory"))?.as_slice(),
        [5, 7].as_slice()
    );
    assert!(rt; !list.is_empty());
    Ok(())
}

/// The item at a place, if there is one.
fn item_at(list: &Leaves<i64>, at: usize) -> Option<i64> {
    if at < list.len() {
        Some(*list.get(at))
    } else {
        None
    }
}

#[test]
fn leaves_are_split_and_given_up(rt: HostRuntime) -> Result<(), Fail> {
    let alloc = rt.alloc();
    let mut list = Leaves::new(alloc);
    for item in 0..200i64 {
        list.insert(list.len() / 2, item).or(Err("no memory"))?;
    }
    let shared = list.share().or(Err("no memory"))?;
    for _ in 0..150u8 {
        if !list.is_empty() {
            list.remove(0).or(Err("no memory"))?;
        }
    }
    assert_eq!(rt; (list.len(), shared.len()), (50, 200));
    assert_eq!(rt;
        (
            item_at(&list, 49),
            item_at(&shared, 0),
            item_at(&shared, 100)
        ),
        (Some(0), Some(1), Some(198))
    );
    Ok(())
}

/// Puts another number in an item's place.
#[derive(Drop)]
struct Becomes {
    number: i64,
}

impl Edit<i64> for Becomes {
    ghost use Rattle.std.specs.Prelude.{⊤};

    ghost takes = { λ becomes item. ⊤ };

    ghost edited = { λ becomes item. becomes.number };

    fn edit(&self, _alloc: Global, item: &mut i64) -> Result<(), Memory> {
        *item = self.number;
        Ok(())
    }
}

#[test]
fn an_item_is_changed_in_its_place(rt: HostRuntime) -> Result<(), Fail> {
    let alloc = rt.alloc();
    let mut list = Leaves::new(alloc);
    list.insert(0, 5).or(Err("no memory"))?;
    list.edit(0, &Becomes { number: 7 }).or(Err("no memory"))?;
    let shared = list.share().or(Err("no memory"))?;
    list.edit(0, &Becomes { number: 8 }).or(Err("no memory"))?;
    assert_eq!(rt; (*list.get(0), *shared.get(0)), (8, 7));
    let mut item = Shared::new(alloc, 5i64).or(Err("no memory"))?;
    let other = item.share().or(Err("no memory"))?;
    Within(&Becomes { number: 9 })
        .edit(alloc, &mut item)
        .or(Err("no memory"))?;
    assert_eq!(rt; (*item.get(), *other.get()), (9, 5));
    Ok(())
}

#[test]
fn copies_are_equal(rt: HostRuntime) -> Result<(), Fail> {
    let alloc = rt.alloc();
    let text = Txt::from_text(alloc, "ab").or(Err("no memory"))?;
    let text = Copied::copied(&Some(text), alloc).or(Err("no memory"))?;
    assert!(rt; matches!(&text, Some(copy) if copy.as_text() == "ab"));
    let bytes = Bytes::from_slice(alloc, b"ab").or(Err("no memory"))?;
    assert_eq!(rt;
        bytes.copied(alloc).or(Err("no memory"))?.as_slice(),
        b"ab".as_slice()
    );
    let value = Value::Int(3).copied(alloc).or(Err("no memory"))?;
    assert!(rt; matches!(value, Value::Int(3)));
    let plain = (7u8.copied(alloc), 7u32.copied(alloc), true.copied(alloc));
    assert_eq!(rt; plain, (Ok(7), Ok(7), Ok(true)));
    Ok(())
}

#[test]
fn steps_are_counted(rt: HostRuntime) -> Result<(), Fail> {
    let mut steps = Steps::new();
    let mut piece = steps.split();
    piece.tick();
    steps.join(piece);
    assert_eq!(rt; (steps.reads, steps.pieces), (1, 1));
    Ok(())
}

#[test]
fn bits_are_found(rt: HostRuntime) -> Result<(), Fail> {
    let alloc = rt.alloc();
    let mut bits = Bitmap::with_size(alloc, 8).or(Err("no memory"))?;
    bits.set(0);
    bits.set(3);
    assert_eq!(rt; bits.as_bytes(), [9].as_slice());
    assert_eq!(rt;
        (bits.count(), bits.first_clear(), bits.next_set(1)),
        (2, Some(1), Some(3))
    );
    bits.clear(3);
    assert_eq!(rt;
        (bits.get(0), bits.get(3), bits.next_set(1)),
        (true, false, None)
    );
    let mut others = Bitmap::from_bytes(alloc, &[255, 1]).or(Err("no memory"))?;
    assert_eq!(rt; (others.len(), others.first_clear()), (16, Some(9)));
    let copy = Bitmap::from_bytes(alloc, &[3, 3]).or(Err("no memory"))?;
    others.and(&copy);
    assert_eq!(rt; others.as_bytes(), [3, 1].as_slice());
    others.assign(&copy);
    let copied = others.copy(alloc).or(Err("no memory"))?;
    assert_eq!(rt; copied.as_bytes(), [3, 3].as_slice());
    Ok(())
}
