//! Batches, made on tables in memory straight from the bytes of a journal.
ghost use Rattle.std.specs.Prelude.{◌≡◌, ◌<◌, ◌≤◌, ◌+◌, ◌^◌, Some, None, if◌then◌else◌, length, IfOk};
ghost use Rattle.shadow_keeper.specs.Keeping.{tables_of};
ghost use Rattle.journal_format.specs.Reading.{batch_of};
ghost use Rattle.journal_tables.specs.Making.{tables_after, MakesBatch, BlockIs, StopsAt};

use crate::change::make_change;
use journal_format::{change_view, read_number};
use std::alloc::Global;
use std::collections::BTreeMap;
use vec_base::{List, Memory, ShadowKey};

/// What stands behind an open gate.
#[derive(Clone, Copy, Debug, PartialEq, Eq)]
pub(crate) enum Block {
    /// A batch with a body of this length. It is made.
    Made(usize),
    /// No batch that may stand there.
    Damaged,
    /// The bytes are too few to tell: so many have to stand behind the gate.
    Short(u64),
}

/// Where the batches among some bytes end.
#[derive(Clone, Copy, Debug, PartialEq, Eq)]
pub enum Stop {
    /// At a closed gate.
    Closed,
    /// At an open gate without a batch that may stand there.
    Damaged,
    /// At an open gate whose batch reaches past the bytes: so many have to stand behind the gate.
    Short(u64),
}

/// How far the batches among some bytes were made: up to the gate at this place, and the batch behind it is to have this number.
#[derive(Clone, Copy, Debug, PartialEq, Eq)]
pub struct Step {
    pub at: usize,
    pub number: u64,
    pub stop: Stop,
}

/// Makes the changes that the bytes are, or answers false where the bytes are none or one does not apply.
fn make_changes(
    alloc: Global,
    tables: &mut BTreeMap<ShadowKey, List<u8>>,
    bytes: &[u8],
) -> Result<bool, Memory>
    ensures { IfOk result (λ made. tables_after bytes.now (tables_of tables.old.entries)
        ≡ (if made then Some (tables_of tables.new.entries) else None)) }
{
    let mut rest = bytes;
    while !rest.is_empty() {
        let Some((change, behind)) = change_view(rest) else {
            return Ok(false);
        };
        if !make_change(alloc, tables, change)? {
            return Ok(false);
        }
        rest = behind;
    }
    Ok(true)
}

/// Makes the batch with this body, or answers false where it is not the batch with this number or does not apply.
fn make_batch(
    alloc: Global,
    tables: &mut BTreeMap<ShadowKey, List<u8>>,
    body: &[u8],
    number: u64,
) -> Result<bool, Memory>
    ensures batch { IfOk result (λ made.
        MakesBatch (batch_of body.now number (tables_of tables.old.entries)) (tables_of tables.old.entries) made (tables_of tables.new.entries)) }
{
    let Some((given, changes)) = read_number(body) else {
        return Ok(false);
    };
    if given != number {
        return Ok(false);
    }
    make_changes(alloc, tables, changes)
}

/// Makes the batch at the front of the bytes behind an open gate.
fn make_block(
    alloc: Global,
    tables: &mut BTreeMap<ShadowKey, List<u8>>,
    bytes: &[u8],
    number: u64,
) -> Result<Block, Memory>
    ensures block { IfOk result (λ block. BlockIs bytes.now number (tables_of tables.old.entries) (tables_of tables.new.entries) block) }
{
    let Some((len, rest)) = read_number(bytes) else {
        return Ok(Block::Short(8));
    };
    if rest.len() as u64 <= len {
        return Ok(Block::Short(len.saturating_add(9)));
    }
    let len = len as usize;
    if make_batch(alloc, tables, &rest[..len], number)? {
        return Ok(Block::Made(len));
    }
    Ok(Block::Damaged)
}

/// Makes the batches that lie whole among the bytes, which begin with a gate.
pub fn make_blocks(
    alloc: Global,
    tables: &mut BTreeMap<ShadowKey, List<u8>>,
    bytes: &[u8],
    number: u64,
) -> Result<Step, Memory>
    requires gate { 0 < length bytes.now }
    requires low { number ≤ 2 ^ 62 }
    ensures within { IfOk result (λ step. step.at < length bytes.now) }
    ensures count { IfOk result (λ step. step.number ≤ number + step.at) }
    ensures stops { IfOk result (λ step. StopsAt bytes.now number (tables_of tables.old.entries) step.at step.number (tables_of tables.new.entries) step.stop) }
{
    let mut at = 0usize;
    let mut next = number;
    while bytes[at] == 1 {
        match make_block(alloc, tables, &bytes[at + 1..], next)? {
            Block::Made(len) => {
                at += 9 + len;
                next += 1;
            }
            Block::Damaged => {
                return Ok(Step {
                    at,
                    number: next,
                    stop: Stop::Damaged,
                });
            }
            Block::Short(needed) => {
                return Ok(Step {
                    at,
                    number: next,
                    stop: Stop::Short(needed),
                });
            }
        }
    }
    Ok(Step {
        at,
        number: next,
        stop: Stop::Closed,
    })
}
