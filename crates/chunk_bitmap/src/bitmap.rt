//! Bitmaps: lists of truth values that contracts see as such.
ghost use Rattle.std.specs.Prelude.{◌≡◌, ◌≤◌, ◌<◌, ◌*◌, ◌/◌, ◌%◌, ◌&&◌, Bool, true, false, length, slice_index_or, slice_set, replicate, IfOk};
ghost use Rattle.std.specs.List.{count_by};
ghost use Rattle.std.specs.Simd.Lanes.{zip2};
ghost use Rattle.chunk_bitmap.specs.BitsOfBytes.{bits_of, first_clear_of, next_set_of};

use crate::bits::{self, MOST_BYTES};
use std::alloc::Global;
use std::marker::Model;
use vec_base::{MOST_CHUNK_SIZE, Memory};

/// Truth values, 8 to 4,096 of them and a multiple of 8.
#[derive(Drop)]
pub struct Bitmap {
    bytes: Vec<u8>,
}

impl Model for Bitmap {
    ghost use Rattle.std.specs.Prelude.{◌≤◌, Bool, List as Seq, length};
    ghost use Rattle.chunk_bitmap.specs.BitsOfBytes.{bits_of};
    ghost use Rattle.chunk_bitmap.specs.declared.bits.TheConstants.{MOST_BYTES};

    ghost Value = { Seq Bool };

    ghost view = { λ bitmap. bits_of bitmap.bytes.items };

    ghost invariant = { λ bitmap. length bitmap.bytes.items ≤ MOST_BYTES };
}

impl Bitmap {
    /// All places are false.
    pub fn with_size(alloc: Global, size: u16) -> Result<Bitmap, Memory>
        requires eights { size % 8 ≡ 0 }
        requires short { size ≤ MOST_CHUNK_SIZE }
        ensures { IfOk result (λ bitmap. bitmap ≡ replicate size false) }
    {
        Ok(Bitmap {
            bytes: Vec::from_elem(alloc, 0, usize::from(size / 8))?,
        })
    }

    /// The bitmap of bytes: place i is bit i % 8 of byte i / 8, the lowest bit first.
    pub fn from_bytes(alloc: Global, bytes: &[u8]) -> Result<Bitmap, Memory>
        requires { length bytes.now ≤ MOST_CHUNK_SIZE / 8 }
        ensures { IfOk result (λ bitmap. bitmap ≡ bits_of bytes.now) }
    {
        Ok(Bitmap {
            bytes: Vec::from_slice(alloc, bytes)?,
        })
    }

    /// An equal bitmap.
    pub fn copy(&self, alloc: Global) -> Result<Bitmap, Memory>
        ensures { IfOk result (λ bitmap. bitmap ≡ self.now) }
    {
        Ok(Bitmap {
            bytes: Vec::from_slice(alloc, self.bytes.as_slice())?,
        })
    }

    /// The bytes of the bitmap.
    #[inline]
    pub fn as_bytes(&self) -> &[u8]
        ensures { bits_of result.now ≡ self.now }
    {
        self.bytes.as_slice()
    }

    /// The number of places.
    #[tactic(auto, using(crate::proofs::BitLaws::length_bits))]
    pub fn len(&self) -> usize
        ensures { result ≡ length self.now }
    {
        8 * self.bytes.len()
    }

    /// The truth value at a place.
    #[inline]
    pub fn get(&self, place: u16) -> bool
        requires { place < length self.now }
        ensures { result ≡ slice_index_or self.now place false }
    {
        bits::is_set(self.bytes.as_slice(), usize::from(place))
    }

    /// Makes a place true.
    #[inline]
    pub fn set(&mut self, place: u16)
        requires { place < length self.old }
        ensures { self.new ≡ slice_set self.old place true }
    {
        bits::set(self.bytes.as_mut_slice(), usize::from(place));
    }

    /// Makes a place false.
    #[inline]
    pub fn clear(&mut self, place: u16)
        requires { place < length self.old }
        ensures { self.new ≡ slice_set self.old place false }
    {
        bits::clear(self.bytes.as_mut_slice(), usize::from(place));
    }

    /// How many places are true.
    pub fn count(&self) -> u16
        ensures { result ≡ count_by (λ bit. bit) self.now }
    {
        bits::count(self.bytes.as_slice())
    }

    /// The least place that is false.
    pub fn first_clear(&self) -> Option<u16>
        ensures { result ≡ first_clear_of self.now }
    {
        bits::first_clear(self.bytes.as_slice())
    }

    /// The least place from one on that is true.
    #[tactic(auto, using(crate::proofs::BitLaws::length_bits))]
    pub fn next_set(&self, from: u16) -> Option<u16>
        requires { from ≤ length self.now }
        ensures { result ≡ next_set_of from self.now }
    {
        bits::next_set(self.bytes.as_slice(), from)
    }

    /// Leaves true what is true in both.
    pub fn and(&mut self, other: &Bitmap)
        requires { length self.old ≡ length other.now }
        ensures { self.new ≡ zip2 (λ a b. a && b) self.old other.now }
    {
        bits::and(self.bytes.as_mut_slice(), other.bytes.as_slice());
    }

    /// Takes over the truth values of another bitmap. It takes no memory.
    pub fn assign(&mut self, other: &Bitmap)
        requires { length self.old ≡ length other.now }
        ensures { self.new ≡ other.now }
    {
        self.bytes
            .as_mut_slice()
            .copy_from_slice(other.bytes.as_slice());
    }
}
