//! The first hits of those that are offered.
ghost use Rattle.std.specs.Prelude.{◌≡◌, ◌≤◌, ◌==◌, false, true, [], length, take, IfOk};
ghost use Rattle.std.specs.Bool.{Decides};
ghost use Rattle.std.specs.List.{All};
ghost use Rattle.std.specs.List.Sorted.{IsSortedBy, IsPartitionPoint};
ghost use Rattle.vec_base.specs.Ranks.{placed, all_placed};
ghost use Rattle.topk_merge.specs.Hits.{is_before};

use crate::hit::Hit;
use std::alloc::Global;
use std::marker::Model;
use vec_base::{List, Memory};

/// The first hits of those that were offered, at most as many as it has room for, in order.
#[derive(Drop)]
pub struct Best {
    hits: Vec<Hit>,
    room: usize,
}

impl Model for Best {
    ghost use Rattle.std.specs.Prelude.{◌≤◌, length};
    ghost use Rattle.std.specs.List.Sorted.{IsSortedBy};
    ghost use Rattle.std.specs.Vec.{vec_capacity};
    ghost use Rattle.topk_merge.specs.Hits.{is_before};
    ghost use Rattle.topk_merge.specs.Ranking.{Ranking};

    ghost Value = { Ranking };

    ghost view = { λ best. record { room = best.room; hits = best.hits.items } };

    ghost invariant = { λ best. (length best.hits.items ≤ best.room) × (best.room ≤ vec_capacity best.hits) × IsSortedBy is_before best.hits.items };
}

impl Best {
    /// No hits, with room for k of them. It is the only call that takes memory.
    pub fn with_room(alloc: Global, k: u16) -> Result<Best, Memory>
        ensures room { IfOk result (λ best. best.room ≡ k) }
        ensures hits { IfOk result (λ best. best.hits ≡ []) }
    {
        let room = usize::from(k);
        let hits = Vec::with_capacity(alloc, room)?;
        Ok(Best { hits, room })
    }

    /// Keeps the first of the hits and this one. It takes no memory.
    #[inline]
    pub fn offer(&mut self, hit: Hit)
        ensures room { self.new.room ≡ self.old.room }
        ensures hits { self.new.hits ≡ take self.old.room (placed is_before hit self.old.hits) }
    {
        if is_left_out(self.hits.as_slice(), self.room, &hit) {
            return;
        }
        let at = place(self.hits.as_slice(), &hit);
        self.hits.truncate(self.room - 1);
        let _ = self.hits.insert(at, hit);
    }

    /// Keeps the first of the hits and those of the other list. It takes no memory.
    pub fn merge(&mut self, other: &Best)
        ensures room { self.new.room ≡ self.old.room }
        ensures hits { self.new.hits ≡ take self.old.room (all_placed is_before self.old.hits other.now.hits) }
    {
        let _ = &self.hits;
        for hit in &other.hits {
            self.offer(*hit);
        }
    }

    /// The hits that are kept, in order.
    pub fn hits(&self) -> &[Hit]
        ensures hits { result.now ≡ self.now.hits }
        ensures sorted { IsSortedBy is_before result.now }
        ensures fits { length result.now ≤ self.now.room }
    {
        self.hits.as_slice()
    }

    pub fn len(&self) -> usize
        ensures { result ≡ length self.now.hits }
    {
        self.hits.len()
    }

    pub fn is_empty(&self) -> bool
        ensures { result ≡ (length self.now.hits == 0) }
    {
        self.hits.is_empty()
    }

    /// The hits in order.
    pub fn into_sorted(self) -> List<Hit>
        ensures hits { result ≡ self.hits }
        ensures sorted { IsSortedBy is_before result }
        ensures fits { length result ≤ self.room }
    {
        List::from_vec(self.hits)
    }
}

// Whether a list of at most `room` hits is full, and the hit comes before none of them.
#[inline]
fn is_left_out(hits: &[Hit], room: usize, hit: &Hit) -> bool
    requires fits { length hits.now ≤ room }
    requires sorted { IsSortedBy is_before hits.now }
    ensures { Decides result ((length hits.now ≡ room) × All (λ other. is_before hit.now other ≡ false) hits.now) }
{
    if hits.len() < room {
        return false;
    }
    match hits.last() {
        Some(last) => !hit.is_before(last),
        None => true,
    }
}

// The place of the first hit that this one comes before, or the end.
fn place(hits: &[Hit], hit: &Hit) -> usize
    requires { IsSortedBy is_before hits.now }
    ensures bound { result ≤ length hits.now }
    ensures parted { IsPartitionPoint (λ other. is_before hit.now other ≡ false) (λ other. is_before hit.now other ≡ true) hits.now result }
{
    hits.partition_point(|other| !hit.is_before(other))
}
