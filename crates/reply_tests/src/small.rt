//! Answers with replies that have no rows.

use http_replies::{reply_bytes, small_reply};
use row_model::{Reply, Shape};
use std::alloc::Global;
use std::test::Fail;

/// Whether the answer is the wanted one, in memory and in a room.
fn gives(alloc: Global, reply: &Reply, wanted: &str) -> Result<bool, Fail> {
    let bytes = reply_bytes(alloc, reply).or(Err("no memory"))?;
    Ok(bytes.as_slice() == wanted.as_bytes())
}

/// Whether the answer in a room is the wanted one.
fn holds(count: usize, room: &[u8; 512], wanted: &str) -> bool {
    match room.get(..count) {
        Some(bytes) => bytes == wanted.as_bytes(),
        None => false,
    }
}

const DONE: &str =
    "HTTP/1.1 200 OK\r\nContent-Type: application/json\r\nContent-Length: 16\r\nConnection: close\r\n\r\n{\"reply\":\"done\"}";

const SESSION: &str =
    "HTTP/1.1 200 OK\r\nContent-Type: application/json\r\nContent-Length: 31\r\nConnection: close\r\n\r\n{\"reply\":\"session\",\"session\":1}";

const INSERTED: &str =
    "HTTP/1.1 200 OK\r\nContent-Type: application/json\r\nContent-Length: 39\r\nConnection: close\r\n\r\n{\"count\":1,\"last\":1,\"reply\":\"inserted\"}";

const LEAST: &str =
    "HTTP/1.1 200 OK\r\nContent-Type: application/json\r\nContent-Length: 77\r\nConnection: close\r\n\r\n{\"count\":18446744073709551615,\"last\":-9223372036854775808,\"reply\":\"inserted\"}";

const CHANGED: &str =
    "HTTP/1.1 200 OK\r\nContent-Type: application/json\r\nContent-Length: 29\r\nConnection: close\r\n\r\n{\"count\":0,\"reply\":\"changed\"}";

const PLANNED: &str =
    "HTTP/1.1 200 OK\r\nContent-Type: application/json\r\nContent-Length: 33\r\nConnection: close\r\n\r\n{\"plan\":\"nearest\",\"reply\":\"plan\"}";

const CURSOR: &str =
    "HTTP/1.1 200 OK\r\nContent-Type: application/json\r\nContent-Length: 38\r\nConnection: close\r\n\r\n{\"cursor\":4294967295,\"reply\":\"cursor\"}";

#[test]
fn answers_stand_in_a_room(rt: HostRuntime) -> Result<(), Fail> {
    let mut room = [7; 512];
    let count = small_reply(&Reply::Done, &mut room);
    assert!(rt; holds(count, &room, DONE));
    let count = small_reply(&Reply::Session(1), &mut room);
    assert!(rt; holds(count, &room, SESSION));
    let count = small_reply(&Reply::Inserted(1, 1), &mut room);
    assert!(rt; holds(count, &room, INSERTED));
    let count = small_reply(&Reply::Inserted(u64::MAX, i64::MIN), &mut room);
    assert!(rt; holds(count, &room, LEAST));
    Ok(())
}

#[test]
fn further_answers_stand_in_a_room(rt: HostRuntime) -> Result<(), Fail> {
    let mut room = [7; 512];
    let count = small_reply(&Reply::Changed(0), &mut room);
    assert!(rt; holds(count, &room, CHANGED));
    let count = small_reply(&Reply::Planned(Shape::Nearest), &mut room);
    assert!(rt; holds(count, &room, PLANNED));
    let count = small_reply(&Reply::Cursor(u32::MAX), &mut room);
    assert!(rt; holds(count, &room, CURSOR));
    Ok(())
}

#[test]
fn answers_are_made_in_memory(rt: HostRuntime) -> Result<(), Fail> {
    let alloc = rt.alloc();
    assert!(rt; gives(alloc, &Reply::Done, DONE)?);
    assert!(rt; gives(alloc, &Reply::Session(1), SESSION)?);
    assert!(rt; gives(alloc, &Reply::Inserted(1, 1), INSERTED)?);
    assert!(rt; gives(alloc, &Reply::Inserted(u64::MAX, i64::MIN), LEAST)?);
    assert!(rt; gives(alloc, &Reply::Changed(0), CHANGED)?);
    assert!(rt; gives(alloc, &Reply::Planned(Shape::Nearest), PLANNED)?);
    assert!(rt; gives(alloc, &Reply::Cursor(u32::MAX), CURSOR)?);
    Ok(())
}
