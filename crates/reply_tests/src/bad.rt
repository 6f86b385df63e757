//! Answers to what is no request.

use http_replies::bad_bytes;
use std::test::Fail;

/// Whether the answer in a room is the wanted one.
fn holds(count: usize, room: &[u8; 512], wanted: &str) -> bool {
    match room.get(..count) {
        Some(bytes) => bytes == wanted.as_bytes(),
        None => false,
    }
}

#[test]
fn what_is_no_request_is_answered(rt: HostRuntime) -> Result<(), Fail> {
    let mut room = [7; 512];
    let count = bad_bytes(411, &mut room);
    let wanted =
        "HTTP/1.1 411 Length Required\r\nContent-Type: application/json\r\nContent-Length: 28\r\nConnection: close\r\n\r\n{\"reply\":\"bad\",\"status\":411}";
    assert!(rt; holds(count, &room, wanted));
    let count = bad_bytes(400, &mut room);
    let wanted =
        "HTTP/1.1 400 Bad Request\r\nContent-Type: application/json\r\nContent-Length: 28\r\nConnection: close\r\n\r\n{\"reply\":\"bad\",\"status\":400}";
    assert!(rt; holds(count, &room, wanted));
    Ok(())
}

#[test]
fn further_statuses_are_answered(rt: HostRuntime) -> Result<(), Fail> {
    let mut room = [7; 512];
    let count = bad_bytes(404, &mut room);
    let wanted =
        "HTTP/1.1 404 Not Found\r\nContent-Type: application/json\r\nContent-Length: 28\r\nConnection: close\r\n\r\n{\"reply\":\"bad\",\"status\":404}";
    assert!(rt; holds(count, &room, wanted));
    let count = bad_bytes(405, &mut room);
    let wanted =
        "HTTP/1.1 405 Method Not Allowed\r\nContent-Type: application/json\r\nContent-Length: 28\r\nConnection: close\r\n\r\n{\"reply\":\"bad\",\"status\":405}";
    assert!(rt; holds(count, &room, wanted));
    let count = bad_bytes(413, &mut room);
    let wanted =
        "HTTP/1.1 413 Payload Too Large\r\nContent-Type: application/json\r\nContent-Length: 28\r\nConnection: close\r\n\r\n{\"reply\":\"bad\",\"status\":413}";
    assert!(rt; holds(count, &room, wanted));
    Ok(())
}
