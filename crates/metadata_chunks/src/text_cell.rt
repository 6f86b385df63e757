//! Texts of which the length and the first bytes are at hand.
ghost use Rattle.std.specs.Prelude.{◌≡◌, ◌^◌, ◌<◌, ◌++◌, IfOk, OnOk, length};
ghost use Rattle.vec_base.specs.Comparison.{bytes_cmp};
ghost use Rattle.vec_base.specs.declared.value.Value.TheVariants.{Text};
ghost use Rattle.shadow_records.specs.Cells.{long_text, text_view};
ghost use Rattle.metadata_chunks.specs.inner.Fronts.{front_of};

use shadow_records::TEXT_VIEW_BYTES;
use shared_leaves::{Copied, Shared};
use std::alloc::Global;
use std::cmp::Ordering;
use std::marker::Model;
use std::str;
use vec_base::{Bytes, Memory, Txt};

/// The first bytes of a text, filled up with zeros.
fn front_of(text: &[u8]) -> [u8; TEXT_VIEW_BYTES]
    ensures { result ≡ front_of TEXT_VIEW_BYTES text.now }
{
    let mut front = [0; TEXT_VIEW_BYTES];
    let count = text.len().min(TEXT_VIEW_BYTES);
    front[..count].copy_from_slice(&text[..count]);
    front
}

/// A text that the texts of cells are compared with.
#[derive(Drop)]
pub(crate) struct Probe<'a> {
    text: &'a str,
    front: [u8; TEXT_VIEW_BYTES],
}

impl<'a> Model for Probe<'a> {
    ghost use Rattle.std.specs.Prelude.{◌≡◌, List, ℕ};
    ghost use Rattle.shadow_records.specs.declared.kinds.TheConstants.{TEXT_VIEW_BYTES};
    ghost use Rattle.metadata_chunks.specs.inner.Fronts.{front_of};

    ghost Value = { List ℕ };

    ghost view = { λ probe. probe.text.now };

    ghost invariant = { λ probe. probe.front ≡ front_of TEXT_VIEW_BYTES probe.text.now };
}

impl Probe<'_> {
    pub(crate) fn of(text: &str) -> Probe<'_>
        ensures { result ≡ text.now }
    {
        Probe {
            text,
            front: front_of(text.as_bytes()),
        }
    }
}

/// A text, of which other holders may hold what is longer than its first bytes.
#[derive(Drop)]
pub(crate) struct TextCell {
    len: u32,
    front: [u8; TEXT_VIEW_BYTES],
    /// The whole text, where its first bytes are not all.
    whole: Option<Shared<Txt>>,
}

impl Model for TextCell {
    ghost use Rattle.std.specs.Prelude.{List, ℕ};
    ghost use Rattle.metadata_chunks.specs.inner.Fronts.{text_in, IsTextCell};

    ghost Value = { List ℕ };

    ghost view = { λ cell. text_in cell.len cell.front cell.whole };

    ghost invariant = { λ cell. IsTextCell cell.len cell.front cell.whole };
}

/// The whole text, where its first bytes are not all.
fn whole_of(alloc: Global, text: &str) -> Result<Option<Shared<Txt>>, Memory>
    ensures { IfOk result (λ whole. whole ≡ long_text (Text text.now)) }
{
    if text.len() <= TEXT_VIEW_BYTES {
        return Ok(None);
    }
    let whole = Shared::new(alloc, Txt::from_text(alloc, text)?)?;
    Ok(Some(whole))
}

impl TextCell {
    pub(crate) fn of(alloc: Global, text: &str) -> Result<TextCell, Memory>
        requires { length text.now < 2 ^ 32 }
        ensures { IfOk result (λ cell. cell ≡ text.now) }
    {
        let whole = whole_of(alloc, text)?;
        Ok(TextCell {
            len: text.len() as u32,
            front: front_of(text.as_bytes()),
            whole,
        })
    }

    pub(crate) fn as_text(&self) -> &str
        ensures { result.now ≡ self.now }
    {
        match &self.whole {
            Some(text) => text.get().as_text(),
            None => match str::from_utf8(&self.front[..self.len as usize]) {
                Ok(text) => text,
                Err(_) => unreachable!(),
            },
        }
    }

    /// How the text stands to another one. Where their first bytes differ, no whole text is looked at.
    #[inline]
    pub(crate) fn compared(&self, probe: &Probe<'_>) -> Ordering
        ensures { result ≡ bytes_cmp self.now probe.now }
    {
        match self.front.cmp(&probe.front) {
            Ordering::Equal => self.whole_compared(probe.text),
            order => order,
        }
    }

    /// How the text stands to one with the same first bytes.
    fn whole_compared(&self, text: &str) -> Ordering
        requires { front_of TEXT_VIEW_BYTES self.now ≡ front_of TEXT_VIEW_BYTES text.now }
        ensures { result ≡ bytes_cmp self.now text.now }
    {
        match &self.whole {
            Some(whole) => whole.get().as_text().cmp(text),
            None => (self.len as usize).cmp(&text.len()),
        }
    }

    /// Adds the length in four bytes and the first bytes at the end.
    pub(crate) fn put_to(&self, bytes: &mut Bytes) -> Result<(), Memory>
        ensures { OnOk result (bytes.new ≡ bytes.old ++ text_view self.now) }
    {
        bytes.extend(&self.len.to_le_bytes())?;
        bytes.extend(&self.front)?;
        Ok(())
    }
}

impl Copied for TextCell {
    fn copied(&self, alloc: Global) -> Result<TextCell, Memory> {
        Ok(TextCell {
            len: self.len,
            front: self.front,
            whole: Copied::copied(&self.whole, alloc)?,
        })
    }
}
