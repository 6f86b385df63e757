//! Searches by several workers.
use crate::memory_engine::{answered, engine_over};
use crate::reply::put_reply;
use crate::request::read_request;
use crate::script::played;
use std::alloc::Global;
use std::marker::Sync;
use std::sync::atomic::{AtomicU32, Ordering};
use std::test::Fail;
use std::thread::Threads;
use topk_merge::Gate;
use vec_base::{Memory, Steps};

const CHUNKS: &str = "\
open => session 1
1 CREATE VIRTUAL TABLE v USING vec0(a int8[2], p integer partition key, chunk_size=8)
1 INSERT INTO v(a, p) VALUES (vec_int8('[1,0]'), 1), (vec_int8('[2,0]'), 1), (vec_int8('[3,0]'), 1)
1 INSERT INTO v(a, p) VALUES (vec_int8('[4,0]'), 1), (vec_int8('[5,0]'), 1), (vec_int8('[6,0]'), 1)
1 INSERT INTO v(a, p) VALUES (vec_int8('[7,0]'), 1), (vec_int8('[8,0]'), 1), (vec_int8('[9,0]'), 1)
1 DELETE FROM v WHERE rowid IN (2, 4, 6)
1 INSERT INTO v(a, p) VALUES (vec_int8('[10,0]'), 2), (vec_int8('[11,0]'), 2), (vec_int8('[12,0]'), 2)
";

/// A gate that counts the pieces.
#[derive(Drop)]
struct Counting {
    pieces: AtomicU32,
}

impl Gate for Counting {
    fn enter(&self, _piece: u32) {
        self.pieces.fetch_add(1, Ordering::SeqCst);
    }
}

/// What a request is answered by so many workers, how many pieces the gate is told, and what is counted.
fn searched<R: Threads + Sync>(
    rt: &R,
    alloc: Global,
    text: &str,
    workers: u8,
) -> Result<String, Memory> {
    let mut engine = engine_over(alloc, &[])?;
    played(rt, alloc, &mut engine, CHUNKS)?;
    let gate = Counting {
        pieces: AtomicU32::new(0),
    };
    let mut steps = Steps::new();
    let mut told = String::new(alloc);
    if let Ok(request) = read_request(alloc, text) {
        let reply = answered(rt, &mut engine, request, workers.max(1), &gate, &mut steps);
        put_reply(&mut told, &reply)?;
    }
    let pieces = gate.pieces.load(Ordering::SeqCst);
    Ok(format!(in alloc;
        "{told}, told {pieces}, pieces {}, reads {}",
        steps.pieces, steps.reads
    )?)
}

/// The same rows by 1, 2, 3 and 64 workers; each worker has a piece, but for those without a chunk.
#[test]
fn pieces_are_searched(rt: HostRuntime) -> Result<(), Fail> {
    let alloc = rt.alloc();
    let text = "1 SELECT rowid, distance FROM v WHERE a MATCH vec_int8('[0,0]') AND k = 4";
    for (workers, pieces) in [(1, 1), (2, 2), (3, 3), (64, 3)] {
        let told = searched(&rt, alloc, text, workers)?;
        let wanted = format!(in alloc;
            "1|1 / 3|9 / 5|25 / 7|49 / rows 4, told {pieces}, pieces {pieces}, reads 9"
        )?;
        assert_eq!(rt; told, wanted);
    }
    Ok(())
}

/// Of three chunks only the one of the partition makes a piece.
#[test]
fn the_piece_of_a_partition_is_searched(rt: HostRuntime) -> Result<(), Fail> {
    let text =
        "1 SELECT rowid, distance FROM v WHERE a MATCH vec_int8('[0,0]') AND p = 2 AND k = 2";
    for workers in [1, 2, 3, 64] {
        let told = searched(&rt, rt.alloc(), text, workers)?;
        assert_eq!(rt;
            told.as_str(),
            "10|100 / 11|121 / rows 2, told 1, pieces 1, reads 3"
        );
    }
    Ok(())
}

/// A cursor is filled by a search as well.
#[test]
fn a_cursor_is_searched(rt: HostRuntime) -> Result<(), Fail> {
    let text = "1 cursor SELECT rowid FROM v WHERE a MATCH vec_int8('[0,0]') AND k = 4";
    let told = searched(&rt, rt.alloc(), text, 64)?;
    assert_eq!(rt; told.as_str(), "cursor 1, told 3, pieces 3, reads 9");
    Ok(())
}

/// What is no search has no piece.
#[test]
fn a_scan_has_no_piece(rt: HostRuntime) -> Result<(), Fail> {
    let told = searched(&rt, rt.alloc(), "1 SELECT rowid FROM v WHERE p = 2", 64)?;
    assert_eq!(rt;
        told.as_str(),
        "10 / 11 / 12 / rows 3, told 0, pieces 0, reads 0"
    );
    Ok(())
}
