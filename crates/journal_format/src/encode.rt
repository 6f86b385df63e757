//! Making the bytes of batches.
ghost use Rattle.std.specs.Prelude.{◌≡◌, ◌≤◌, ◌<◌, ◌^◌, ◌+◌, ◌++◌, ◌∷◌, [], take, drop, length, OnOk};
ghost use Rattle.std.specs.Int.{w64, to_le_bytes};
ghost use Rattle.std.specs.List.{flat_map};
ghost use Rattle.shadow_keeper.specs.Keeping.{IsShort, AreShort};
ghost use Rattle.journal_format.specs.Format.{key_bytes, counted, change_bytes, body_bytes, block, IsKey, IsWhole, AreWhole};

use vec_base::{Change, Memory, ShadowKey};

/// A journal without batches: the header and a closed gate.
pub const EMPTY_JOURNAL: [u8; 17] = [86, 69, 67, 48, 74, 82, 78, 76, 1, 0, 0, 0, 0, 0, 0, 0, 0];

#[tactic(auto, unfolding(crate::specs::Format::key_bytes))]
fn put_key(out: &mut Vec<u8>, key: &ShadowKey) -> Result<(), Memory>
    ensures ok { OnOk result (out.new.items ≡ out.old.items ++ key_bytes key.now) }
    ensures whole { OnOk result (IsKey key.now) }
{
    out.extend_from_slice(&key.table.to_le_bytes())?;
    out.push(key.kind)?;
    out.extend_from_slice(&key.a.to_le_bytes())?;
    out.extend_from_slice(&key.b.to_le_bytes())?;
    Ok(())
}

#[tactic(auto, unfolding(crate::specs::Format::counted))]
fn put_counted(out: &mut Vec<u8>, bytes: &[u8]) -> Result<(), Memory>
    requires { length bytes.now < 2 ^ 32 }
    ensures { OnOk result (out.new.items ≡ out.old.items ++ counted bytes.now) }
{
    out.extend_from_slice(&(bytes.len() as u32).to_le_bytes())?;
    out.extend_from_slice(bytes)?;
    Ok(())
}

fn put_change(out: &mut Vec<u8>, change: &Change) -> Result<(), Memory>
    requires { IsShort change.now }
    ensures ok { OnOk result (out.new.items ≡ out.old.items ++ change_bytes change.now) }
    ensures whole { OnOk result (IsWhole change.now) }
{
    match change {
        Change::Put(key, body) => {
            out.push(1)?;
            put_key(out, key)?;
            put_counted(out, body.as_slice())
        }
        Change::Fill(key, count) => {
            out.push(2)?;
            put_key(out, key)?;
            out.extend_from_slice(&count.to_le_bytes())?;
            Ok(())
        }
        Change::Remove(key) => {
            out.push(3)?;
            put_key(out, key)
        }
        Change::Patch(key, at, bytes) => {
            out.push(4)?;
            put_key(out, key)?;
            out.extend_from_slice(&at.to_le_bytes())?;
            put_counted(out, bytes.as_slice())
        }
    }
}

fn put_changes(out: &mut Vec<u8>, changes: &[Change]) -> Result<(), Memory>
    requires { AreShort changes.now }
    ensures ok { OnOk result (out.new.items ≡ out.old.items ++ flat_map change_bytes changes.now) }
    ensures whole { OnOk result (AreWhole changes.now) }
{
    for change in changes {
        put_change(out, change)?;
    }
    Ok(())
}

/// Writes a number over the 8 bytes from a place on.
fn write_number(out: &mut [u8], at: usize, number: u64)
    requires { at + 8 ≤ length out.old }
    ensures { out.new ≡ take at out.old ++ (to_le_bytes w64 number ++ drop (at + 8) out.old) }
{
    out[at..at + 8].copy_from_slice(&number.to_le_bytes());
}

/// Adds the block of a batch and a closed gate behind it. After want of memory the bytes that were added mean nothing.
pub fn put_batch(out: &mut Vec<u8>, number: u64, changes: &[Change]) -> Result<(), Memory>
    requires { AreShort changes.now }
    ensures ok { OnOk result (out.new.items ≡ out.old.items ++ (block number changes.now ++ 0 ∷ [])) }
    ensures whole { OnOk result (AreWhole changes.now) }
    ensures small { OnOk result (length (body_bytes number changes.now) < 2 ^ 64) }
{
    let start = out.len();
    out.extend_from_slice(&[0; 8])?;
    out.extend_from_slice(&number.to_le_bytes())?;
    put_changes(out, changes)?;
    let len = (out.len() - start - 8) as u64;
    write_number(out, start, len);
    out.push(0)?;
    Ok(())
}
