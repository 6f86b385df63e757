//! Whole answers.

ghost use Rattle.std.specs.Prelude.{◌≡◌, ◌≤◌, ℕ, List as Seq, length, take, IfOk};
ghost use Rattle.http_replies.specs.Bodies.{bad_body, body};
ghost use Rattle.http_replies.specs.Statuses.{IsBadStatus};
ghost use Rattle.http_replies.specs.Wire.{IsSmall, answer, bad_wire, head, wire};
ghost use Rattle.http_replies.specs.inner.Phrases.{IsPhrased};
ghost use Rattle.http_replies.specs.inner.Rooms.{Holds, Puts};

use crate::body::{put_bad_body, put_body};
use crate::head::put_head;
use crate::room::Room;
use crate::short::body_short;
use crate::status::reply_status;
use http::StatusCode;
use row_model::Reply;
use std::alloc::Global;
use vec_base::{Bytes, Memory};

/// The answer with a reply.
///
/// # Errors
/// There was no memory for its bytes.
pub fn reply_bytes(alloc: Global, reply: &Reply) -> Result<Bytes, Memory>
    ensures { IfOk result (λ bytes. bytes ≡ wire reply.now) }
{
    let mut body = String::new(alloc);
    put_body(&mut body, reply)?;
    let mut answer = String::new(alloc);
    put_head(&mut answer, reply_status(reply), body.len() as u64)?;
    answer.push_str(body.as_str())?;
    Ok(Bytes::from_vec(answer.into_bytes()))
}

/// Writes the answer with a reply that has no rows, and answers how many bytes it has. It takes no memory.
pub fn small_reply(reply: &Reply, room: &mut [u8; 512]) -> usize
    requires small { IsSmall reply.now }
    ensures fits { length (wire reply.now) ≤ 512 }
    ensures count { result ≡ length (wire reply.now) }
    ensures bytes { take (length (wire reply.now)) room.new ≡ wire reply.now }
{
    body_short(reply);
    let mut body = Room::new();
    add_body(&mut body, reply);
    put_answer(reply_status(reply), &body, room)
}

/// Writes the answer to what is no request, and answers how many bytes it has. It takes no memory.
pub fn bad_bytes(status: u16, room: &mut [u8; 512]) -> usize
    requires bad { IsBadStatus status }
    ensures fits { length (bad_wire status) ≤ 512 }
    ensures count { result ≡ length (bad_wire status) }
    ensures bytes { take (length (bad_wire status)) room.new ≡ bad_wire status }
{
    let mut body = Room::new();
    add_bad_body(&mut body, status);
    let Ok(status) = StatusCode::from_u16(status) else {
        unreachable!()
    };
    put_answer(status, &body, room)
}

/// Writes an answer with a status and a body.
fn put_answer(status: StatusCode, body: &Room, room: &mut [u8; 512]) -> usize
    requires phrased { IsPhrased status }
    ensures { (bytes : Seq ℕ) → Holds bytes body.now → length (answer status bytes) ≤ 512 →
        (result ≡ length (answer status bytes)) × (take (length (answer status bytes)) room.new ≡ answer status bytes) }
{
    let mut answer = Room::new();
    add_head(&mut answer, status, body.filled as u64);
    answer.add(body.content());
    *room = answer.bytes;
    answer.filled
}

/// Adds the body of the answer with a reply.
fn add_body(room: &mut Room, reply: &Reply)
    ensures { Puts (body reply.now) room.old room.new }
{
    let _ = put_body(room, reply);
}

/// Adds the body of the answer to what is no request.
fn add_bad_body(room: &mut Room, status: u16)
    ensures { Puts (bad_body status) room.old room.new }
{
    let _ = put_bad_body(room, status);
}

/// Adds the head of an answer with a status, whose body has this many bytes.
fn add_head(room: &mut Room, status: StatusCode, size: u64)
    requires { IsPhrased status }
    ensures { Puts (head status size) room.old room.new }
{
    let _ = put_head(room, status, size);
}
