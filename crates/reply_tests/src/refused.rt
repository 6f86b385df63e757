//! Answers with refusals.

use http_replies::small_reply;
use row_model::Reply;
use std::test::Fail;
use vec_base::Refusal;

/// Whether the answer with a refusal begins with the status line and ends with the body.
fn answers(refusal: Refusal, line: &str, body: &str) -> bool {
    let mut room = [7; 512];
    let count = small_reply(&Reply::Refused(refusal), &mut room);
    match room.get(..count) {
        Some(bytes) => bytes.starts_with(line.as_bytes()) && bytes.ends_with(body.as_bytes()),
        None => false,
    }
}

#[test]
fn refusals_have_their_statuses(rt: HostRuntime) -> Result<(), Fail> {
    assert!(rt;
        answers(
            Refusal::NoTable,
            "HTTP/1.1 404 Not Found\r\n",
            "\r\nContent-Length: 47\r\nConnection: close\r\n\r\n{\"error\":5,\"reply\":\"refused\",\"text\":\"no table\"}"
        )
    );
    assert!(rt;
        answers(
            Refusal::Busy(7),
            "HTTP/1.1 409 Conflict\r\n",
            "{\"error\":15,\"reply\":\"refused\",\"text\":\"busy session 7\"}"
        )
    );
    assert!(rt;
        answers(
            Refusal::Parameter(1),
            "HTTP/1.1 422 Unprocessable Entity\r\n",
            "{\"error\":3,\"reply\":\"refused\",\"text\":\"parameter 1\"}"
        )
    );
    Ok(())
}

#[test]
fn further_refusals_have_their_statuses(rt: HostRuntime) -> Result<(), Fail> {
    assert!(rt;
        answers(
            Refusal::Full(2, 200_001),
            "HTTP/1.1 507 Insufficient Storage\r\n",
            "{\"error\":19,\"reply\":\"refused\",\"text\":\"full limit 2 count 200001\"}"
        )
    );
    assert!(rt;
        answers(
            Refusal::StoreFault,
            "HTTP/1.1 503 Service Unavailable\r\n",
            "{\"error\":24,\"reply\":\"refused\",\"text\":\"store fault\"}"
        )
    );
    assert!(rt;
        answers(
            Refusal::WantOfMemory,
            "HTTP/1.1 500 Internal Server Error\r\n",
            "{\"error\":25,\"reply\":\"refused\",\"text\":\"want of memory\"}"
        )
    );
    Ok(())
}

#[test]
fn the_longest_texts_fit(rt: HostRuntime) -> Result<(), Fail> {
    assert!(rt;
        answers(
            Refusal::OldSnapshot(u64::MAX, u64::MAX),
            "HTTP/1.1 409 Conflict\r\n",
            "{\"error\":16,\"reply\":\"refused\",\"text\":\"old snapshot 18446744073709551615 latest 18446744073709551615\"}"
        )
    );
    assert!(rt;
        answers(
            Refusal::VectorShape(53, u32::MAX, u32::MAX),
            "HTTP/1.1 422 Unprocessable Entity\r\n",
            "{\"error\":10,\"reply\":\"refused\",\"text\":\"vector column 53 wants 4294967295 got 4294967295\"}"
        )
    );
    Ok(())
}
