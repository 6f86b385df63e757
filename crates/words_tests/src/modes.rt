//! Words that spell a configuration.
use crate::lists::spelled;
use std::alloc::Global;
use vec_words::{Config, Mode, Store};

/// Whether the words spell the mode `shell` in memory with so many workers.
fn is_shell(alloc: Global, texts: &[&str], workers: u8) -> bool {
    match spelled(alloc, texts) {
        Some(
            Config {
                mode: Mode::Shell,
                store: Store::InMemory,
                workers: found,
                listen,
            },
        ) => found == workers && listen.as_text() == "127.0.0.1:8080",
        _ => false,
    }
}

/// Whether the words spell the mode `serve` with so many connections at this address.
fn is_serve(alloc: Global, texts: &[&str], exchanges: u32, address: &str) -> bool {
    match spelled(alloc, texts) {
        Some(
            Config {
                mode: Mode::Serve(found),
                listen,
                ..
            },
        ) => found == exchanges && listen.as_text() == address,
        _ => false,
    }
}

/// Whether the mode is `load` for this table.
fn loads(mode: &Mode, table: &str) -> bool {
    match mode {
        Mode::Load(name) => name.as_text() == table,
        _ => false,
    }
}

/// Whether the mode is `dump` for this table.
fn dumps(mode: &Mode, table: &str) -> bool {
    match mode {
        Mode::Dump(name) => name.as_text() == table,
        _ => false,
    }
}

/// Whether the store is a journal at this path.
fn is_journal(store: &Store, path: &str) -> bool {
    match store {
        Store::Journal(journal) => journal.as_text() == path,
        _ => false,
    }
}

/// Whether the store is a database at this path.
fn is_database(store: &Store, path: &str) -> bool {
    match store {
        Store::Sqlite(database) => database.as_text() == path,
        _ => false,
    }
}

/// Whether the words spell the mode `load` for this table, with a journal at this path.
fn is_load(alloc: Global, texts: &[&str], table: &str, path: &str) -> bool {
    match spelled(alloc, texts) {
        Some(config) => loads(&config.mode, table) && is_journal(&config.store, path),
        None => false,
    }
}

/// Whether the words spell the mode `dump` for this table, with a database at this path.
fn is_dump(alloc: Global, texts: &[&str], table: &str, path: &str) -> bool {
    match spelled(alloc, texts) {
        Some(config) => dumps(&config.mode, table) && is_database(&config.store, path),
        None => false,
    }
}

/// Whether the words spell the mode `sample` with this seed and so many rows.
fn is_sample(alloc: Global, texts: &[&str], seed: u64, rows: u32) -> bool {
    match spelled(alloc, texts) {
        Some(
            Config {
                mode: Mode::Sample(found, count),
                ..
            },
        ) => found == seed && count == rows,
        _ => false,
    }
}

#[test]
fn shell(rt: HostRuntime) {
    let alloc = rt.alloc();
    assert!(rt; is_shell(alloc, &["shell"], 1));
    assert!(rt; is_shell(alloc, &["shell", "--workers=4"], 4));
    assert!(rt; is_shell(alloc, &["--workers", "064", "shell"], 64));
}

#[test]
fn serve(rt: HostRuntime) {
    let alloc = rt.alloc();
    assert!(rt; is_serve(alloc, &["serve"], 4294967295, "127.0.0.1:8080"));
    assert!(rt;
        is_serve(
            alloc,
            &["--exchanges", "1", "serve", "--listen=-x"],
            1,
            "-x"
        )
    );
    assert!(rt; is_serve(alloc, &["serve", "--listen="], 4294967295, ""));
}

#[test]
fn tables(rt: HostRuntime) {
    let alloc = rt.alloc();
    assert!(rt;
        is_load(
            alloc,
            &["load", "--table", "Docs_1", "--journal=-a=b"],
            "docs_1",
            "-a=b"
        )
    );
    assert!(rt; is_dump(alloc, &["--sqlite", "x y", "--table=v", "dump"], "v", "x y"));
}

#[test]
fn sample(rt: HostRuntime) {
    let alloc = rt.alloc();
    assert!(rt; is_sample(alloc, &["sample", "--seed", "7", "--rows", "5000"], 7, 5000));
    assert!(rt;
        is_sample(
            alloc,
            &["--seed=18446744073709551615", "--rows=100000", "sample"],
            18446744073709551615,
            100000
        )
    );
}
