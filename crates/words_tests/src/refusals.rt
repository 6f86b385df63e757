//! Words that spell none.
use crate::lists::refused;
use std::alloc::Global;

/// Whether all these lists of words are refused.
fn all_refused(alloc: Global, lists: &[&[&str]]) -> bool {
    for list in lists {
        if !refused(alloc, list) {
            return false;
        }
    }
    true
}

#[test]
fn forms(rt: HostRuntime) {
    let alloc = rt.alloc();
    let lists: [&[&str]; 12] = [
        &[],
        &["x"],
        &["shell", "shell"],
        &["shell", "--"],
        &["shell", "-h"],
        &["shell", "--help"],
        &["shell", "--journal", "-"],
        &["shell", "--journal", "-x"],
        &["shell", "--journal"],
        &["shell", "--worker", "4"],
        &["--mode=shell"],
        &["shell", "--workers", "2", "--workers=2"],
    ];
    assert!(rt; all_refused(alloc, &lists));
}

#[test]
fn values(rt: HostRuntime) {
    let alloc = rt.alloc();
    let lists: [&[&str]; 12] = [
        &["shell", "--workers", "0"],
        &["shell", "--workers", "65"],
        &["shell", "--workers", "+4"],
        &["shell", "--workers="],
        &["serve", "--exchanges", "0"],
        &["serve", "--exchanges", "4294967296"],
        &["sample", "--seed", "18446744073709551616", "--rows", "1"],
        &["sample", "--seed", "7", "--rows", "100001"],
        &["sample", "--seed", "7", "--rows", "000000000000000000001"],
        &["load", "--table", "select"],
        &["load", "--table", "1a"],
        &["shell", "--journal="],
    ];
    assert!(rt; all_refused(alloc, &lists));
}

#[test]
fn company(rt: HostRuntime) {
    let alloc = rt.alloc();
    let lists: [&[&str]; 8] = [
        &["load"],
        &["sample", "--seed", "7"],
        &["sample", "--rows", "7"],
        &["shell", "--journal", "x", "--sqlite", "y"],
        &["shell", "--table", "v"],
        &["serve", "--seed", "7"],
        &["dump", "--table", "v", "--listen", "x"],
        &["sample", "--seed", "7", "--rows", "1", "--exchanges", "1"],
    ];
    assert!(rt; all_refused(alloc, &lists));
}
