//! The entries of the buckets, in segments of 64. The first store into a segment makes the segment.
//! To `buckets.rt` the entries are one flat list. A look-up reads one entry. A store writes one
//! entry, and the first store into a segment writes all 64.
ghost use Rattle.std.specs.Prelude.{◌≡◌, ℕ, ◌-◌, ◌*◌, ◌<◌, ◌≤◌, ◌^◌, ◌∷◌, List, Option, Some, None, length, replicate, slice_index_or, slice_set, IfOk, OnErr};
ghost use Rattle.bucket_table.specs.Segments.{LacksSegment, Puts};

use crate::fill::vec_of;
use node_list::{NodeRef, PackedRef};
use std::alloc::{AllocError, Global};
use std::marker::Model;

/// The number of entries of a segment.
const WIDTH: usize = 64;

/// The entries of 64 consecutive buckets, of 4 bytes each.
#[derive(Drop)]
struct Segment {
    entries: Vec<PackedRef>,
}

impl Model for Segment {
    ghost use Rattle.std.specs.Prelude.{ℕ, List, Option};
    ghost use Rattle.bucket_table.specs.Segments.{IsSegment};

    ghost Value = { List (Option ℕ) };

    ghost view = { λ s. s.entries.items };

    ghost invariant = { λ s. IsSegment s.entries.items };
}

impl Segment {
    /// A segment with this dummy at this place and no dummy at any other place.
    fn new(alloc: Global, place: usize, dummy: NodeRef) -> Result<Self, AllocError>
        requires { place < 64 }
        ensures { IfOk result (λ segment. Puts None (Some segment) place dummy) }
    {
        let mut entries = vec_of(alloc, 64, PackedRef::none())?;
        entries[place] = PackedRef::of(dummy);
        Ok(Segment { entries })
    }

    /// The dummy at a place, if one is stored there.
    fn get(&self, place: usize) -> Option<NodeRef>
        ensures { result ≡ slice_index_or self.now place None }
    {
        match self.entries.get(place) {
            Some(entry) => entry.node(),
            None => None,
        }
    }

    /// Stores a dummy at a place.
    fn set(&mut self, place: usize, dummy: NodeRef)
        requires { place < 64 }
        ensures { Puts (Some self.old) (Some self.new) place dummy }
    {
        self.entries[place] = PackedRef::of(dummy);
    }
}

/// The dummies of the stored buckets, in a row of segments. A segment is there exactly if one of
/// its buckets is stored.
///
/// A contract sees them as the flat list of all entries.
#[derive(Drop)]
pub(crate) struct Segments {
    alloc: Global,
    limit: u32,
    row: Vec<Option<Segment>>,
}

impl Model for Segments {
    ghost use Rattle.std.specs.Prelude.{ℕ, List, Option};
    ghost use Rattle.bucket_table.specs.Segments.{bucket_entries, IsRow};

    ghost Value = { List (Option ℕ) };

    ghost view = { λ s. bucket_entries s.limit s.row.items };

    ghost invariant = { λ s. IsRow s.limit s.row.items };
}

impl Segments {
    /// The entries of `limit` buckets. Only bucket 0 is stored, with the dummy `first`. Takes
    /// memory for the row and for the first segment.
    pub(crate) fn new(alloc: Global, limit: u32, first: NodeRef) -> Result<Self, AllocError>
        requires { 0 < limit }
        ensures { IfOk result (λ entries. entries ≡ Some first ∷ replicate (limit - 1) None) }
    {
        let mut entries = Segments::empty(alloc, limit)?;
        entries.set(0, first)?;
        Ok(entries)
    }

    /// The entries of `limit` buckets, none of them stored. Takes memory for the row.
    fn empty(alloc: Global, limit: u32) -> Result<Self, AllocError>
        ensures { IfOk result (λ entries. entries ≡ replicate limit None) }
    {
        let row = missing(alloc, (limit as usize).div_ceil(WIDTH))?;
        Ok(Segments { alloc, limit, row })
    }

    /// The number of entries.
    pub(crate) fn limit(&self) -> u32
        ensures { result ≡ length self.now }
    {
        self.limit
    }

    /// The dummy of a bucket, if the bucket is stored.
    pub(crate) fn get(&self, bucket: u32) -> Option<NodeRef>
        ensures { result ≡ slice_index_or self.now bucket None }
    {
        if bucket >= self.limit {
            return None;
        }
        match &self.row[bucket as usize / WIDTH] {
            Some(segment) => segment.get(bucket as usize % WIDTH),
            None => None,
        }
    }

    /// Stores a bucket with its dummy. Takes memory only if no bucket of the bucket's segment is
    /// stored.
    ///
    /// # Errors
    ///
    /// `AllocError` if memory is refused. Then nothing has changed.
    pub(crate) fn set(&mut self, bucket: u32, dummy: NodeRef) -> Result<(), AllocError>
        requires { bucket < length self.old }
        ensures ok { IfOk result (λ done. self.new ≡ slice_set self.old bucket (Some dummy)) }
        ensures unchanged { OnErr result (self.new ≡ self.old) }
        ensures lacks { OnErr result (LacksSegment self.old bucket) }
    {
        let segment = &mut self.row[bucket as usize / WIDTH];
        put(self.alloc, segment, bucket as usize % WIDTH, dummy)
    }
}

/// Stores a dummy at a place of a segment. If the segment is missing, it is made first.
fn put(
    alloc: Global,
    segment: &mut Option<Segment>,
    place: usize,
    dummy: NodeRef,
) -> Result<(), AllocError>
    requires { place < 64 }
    ensures ok { IfOk result (λ done. Puts segment.old segment.new place dummy) }
    ensures unchanged { OnErr result (segment.new ≡ segment.old) }
    ensures missing { OnErr result (segment.old ≡ None) }
{
    if let Some(segment) = segment {
        segment.set(place, dummy);
        return Ok(());
    }
    *segment = Some(Segment::new(alloc, place, dummy)?);
    Ok(())
}

/// A row of missing segments.
fn missing(alloc: Global, count: usize) -> Result<Vec<Option<Segment>>, AllocError>
    ensures { IfOk result (λ row. row.items ≡ replicate count None) }
{
    let mut row = Vec::with_capacity(alloc, count)?;
    for _ in 0..count {
        row.push(None)?;
    }
    Ok(row)
}
