//! The chunks of a spine, in groups.
ghost use Rattle.std.specs.Prelude.{◌≡◌, ◌+◌, ◌-◌, ◌<◌, ◌≤◌, [], ◌++◌, length, slice_index_or, slice_set, take, drop, All, IfOk, OnOk, OnErr};
ghost use Rattle.segments.specs.Joined.{joined, counts_of};

use crate::Shared;
use crate::chunk::Chunk;
use mk_value::Memory;
use segments::{Segments, Splice, replace_parts};
use std::alloc::{AllocError, Global};
use std::marker::Model;
use std::rc::Rc;

/// How many chunks a group has at most. An edit of a shared list copies a count for each group and one for each chunk of a group, and
/// of four million tables there are about as many groups as chunks in one.
const GROUP_MOST: usize = 64;

/// The chunks of a group, one after another. A caller sees the tables of each.
#[cycle(table)]
#[derive(Drop)]
struct ChunkList {
    items: Vec<Chunk>,
}

/// A group of chunks, which copies share. An edit by one of its holders leaves it as it is for the others.
#[cycle(table)]
#[derive(Drop)]
struct Group {
    list: Rc<ChunkList>,
}

/// A list of chunks in groups of at most 64: a copy of the list counts the groups, and an edit of a copied list copies the groups that
/// it touches, and no other. A caller sees the tables of each chunk.
#[cycle(table)]
#[derive(Drop)]
pub(crate) struct Groups {
    groups: Vec<Group>,
    ends: Segments<GROUP_MOST>,
}

impl Model for ChunkList {
    ghost use Rattle.std.specs.Prelude.{List};
    ghost use Rattle.tables.specs.Columns.{chunks_code};
    ghost use Rattle.tables.specs.Sizes.{chunks_size};
    ghost use Rattle.tables.specs.Tables.{StoredTable};

    ghost Value = { List (List StoredTable) };

    ghost coded = { chunks_code };

    ghost view = { λ l. l.items.items };

    ghost size = { chunks_size };

    ghost use Rattle.tables.specs.Falls.{chunks_fall};

    ghost size_decreases = { λ l _. chunks_fall l };
}

impl Model for Group {
    ghost use Rattle.std.specs.Prelude.{List};
    ghost use Rattle.tables.specs.Columns.{chunks_code};
    ghost use Rattle.tables.specs.Sizes.{group_size};
    ghost use Rattle.tables.specs.Tables.{StoredTable};

    ghost Value = { List (List StoredTable) };

    ghost coded = { chunks_code };

    ghost view = { λ g. g.list.value };

    ghost size = { group_size };

    ghost use Rattle.tables.specs.Falls.{group_falls};

    ghost size_decreases = { λ g _. group_falls g };
}

impl Model for Groups {
    ghost use Rattle.std.specs.Prelude.{◌≡◌, List};
    ghost use Rattle.segments.specs.Joined.{joined, counts_of};
    ghost use Rattle.tables.specs.Columns.{chunks_code};
    ghost use Rattle.tables.specs.Sizes.{groups_size};
    ghost use Rattle.tables.specs.Tables.{StoredTable};

    ghost Value = { List (List StoredTable) };

    ghost coded = { chunks_code };

    ghost view = { λ g. joined g.groups.items };

    ghost invariant = { λ g. g.ends ≡ counts_of g.groups.items };

    ghost size = { groups_size };

    ghost use Rattle.tables.specs.Falls.{groups_fall};

    ghost size_decreases = { λ g _. groups_fall g };
}

impl Clone for ChunkList {
    ghost is_clone = { λ a b. b ≡ a };

    fn clone(&self) -> Result<ChunkList, AllocError> {
        Ok(ChunkList {
            items: Vec::from_clones(*self.items.allocator(), &self.items)?,
        })
    }
}

impl Clone for Group {
    ghost is_clone = { λ a b. b ≡ a };

    /// One more holder of the group.
    fn clone(&self) -> Result<Group, AllocError> {
        Ok(Group {
            list: self.list.clone()?,
        })
    }
}

impl Clone for Groups {
    ghost is_clone = { λ a b. b ≡ a };

    fn clone(&self) -> Result<Groups, AllocError> {
        Ok(Groups {
            groups: Vec::from_clones(*self.groups.allocator(), &self.groups)?,
            ends: self.ends.clone()?,
        })
    }
}

impl Group {
    /// The group of these chunks.
    fn of(alloc: Global, chunks: &[Chunk]) -> Result<Group, Memory>
        ensures { IfOk result (λ group. group ≡ chunks.now) }
    {
        let items = Vec::from_clones(alloc, chunks)?;
        Ok(Group {
            list: Rc::new(alloc, ChunkList { items })?,
        })
    }

    /// The chunks.
    fn list(&self) -> &ChunkList
        ensures { result.now ≡ self.now }
    {
        &self.list
    }

    /// How many chunks there are.
    fn len(&self) -> usize
        ensures { result ≡ length self.now }
    {
        self.list.items.len()
    }

    /// The chunk of this number.
    fn get(&self, k: usize) -> &Chunk
        requires { k < length self.now }
        ensures { result.now ≡ slice_index_or self.now k result.now }
    {
        &self.list.items[k]
    }

    /// Puts a table in place of the one at a place of chunk `k`. Other holders of the group keep it.
    fn set(&mut self, k: usize, at: usize, table: Shared) -> Result<(), Memory>
        requires chunk { k < length self.old }
        requires at { at < length (slice_index_or self.old k []) }
        ensures ok { OnOk result (self.new ≡ slice_set self.old k (slice_set (slice_index_or self.old k []) at table)) }
        ensures len { length self.new ≡ length self.old }
        ensures err { OnErr result (self.new ≡ self.old) }
    {
        let list = Rc::make_mut(&mut self.list)?;
        list.items[k].set(at, table)
    }
}

impl Groups {
    /// The list of these chunks.
    pub(crate) fn of_chunks(chunks: Vec<Chunk>) -> Result<Groups, Memory>
        requires { length chunks.items ≤ 16777216 }
        ensures { IfOk result (λ groups. groups ≡ chunks.items) }
    {
        let alloc = *chunks.allocator();
        let groups = grouped(alloc, &chunks)?;
        let counts = counts(alloc, &groups)?;
        Ok(Groups {
            groups,
            ends: Segments::from_counts(alloc, &counts)?,
        })
    }

    pub(crate) fn allocator(&self) -> Global {
        *self.groups.allocator()
    }

    /// How many chunks there are.
    pub(crate) fn len(&self) -> usize
        ensures len { result ≡ length self.now }
        ensures few { result ≤ 16777216 }
    {
        self.ends.len()
    }

    /// The chunk of this number.
    pub(crate) fn get(&self, k: usize) -> &Chunk
        requires { k < length self.now }
        ensures { result.now ≡ slice_index_or self.now k result.now }
    {
        let place = self.ends.find(k);
        let group = &self.groups[place.segment];
        group.get(place.offset)
    }

    /// Puts a table in place of the one at a place of chunk `k`. Other owners of the chunk and of its group keep them.
    pub(crate) fn set(&mut self, k: usize, at: usize, table: Shared) -> Result<(), Memory>
        requires chunk { k < length self.old }
        requires at { at < length (slice_index_or self.old k []) }
        ensures ok { OnOk result (self.new ≡ slice_set self.old k (slice_set (slice_index_or self.old k []) at table)) }
        ensures err { OnErr result (self.new ≡ self.old) }
    {
        let place = self.ends.find(k);
        let group = &mut self.groups[place.segment];
        group.set(place.offset, at, table)
    }

    /// Puts chunks in place of those from `first` up to `after`. Other owners of the groups keep them.
    pub(crate) fn replace(
        &mut self,
        first: usize,
        after: usize,
        fresh: Vec<Chunk>,
    ) -> Result<(), Memory>
        requires order { first ≤ after }
        requires in_range { after ≤ length self.old }
        requires few { first + length fresh.items + (length self.old - after) ≤ 16777216 }
        ensures ok { OnOk result (self.new ≡ take first self.old ++ (fresh.items ++ drop after self.old)) }
        ensures err { OnErr result (self.new ≡ self.old) }
    {
        let splice = Splice {
            at: first,
            end: after,
            count: fresh.len(),
        };
        let replaced = self.ends.replaced(&splice);
        let old = &self.groups[replaced.first..replaced.after];
        let groups = regrouped(old, first - replaced.start, after - replaced.start, fresh)?;
        let counts = counts(self.allocator(), &groups)?;
        let ends = self.ends.spliced(replaced.first, replaced.after, &counts)?;
        replace_parts(&mut self.groups, replaced.first, replaced.after, groups)?;
        self.ends = ends;
        Ok(())
    }
}

/// The chunks of these groups with others in place of those from `first` up to `after`, in new groups.
fn regrouped(
    groups: &[Group],
    first: usize,
    after: usize,
    fresh: Vec<Chunk>,
) -> Result<Vec<Group>, Memory>
    requires order { first ≤ after }
    requires in_range { after ≤ length (joined groups.now) }
    ensures chunks { IfOk result (λ new. joined new.items ≡ take first (joined groups.now) ++ (fresh.items ++ drop after (joined groups.now))) }
    ensures few { IfOk result (λ new. All (λ n. n ≤ 64) (counts_of new.items)) }
{
    let alloc = *fresh.allocator();
    let mut chunks = chunks_of(alloc, groups)?;
    replace_parts(&mut chunks, first, after, fresh)?;
    grouped(alloc, &chunks)
}

/// These chunks in groups, all full but the last.
fn grouped(alloc: Global, chunks: &[Chunk]) -> Result<Vec<Group>, Memory>
    ensures chunks { IfOk result (λ groups. joined groups.items ≡ chunks.now) }
    ensures few { IfOk result (λ groups. All (λ n. n ≤ 64) (counts_of groups.items)) }
{
    let mut groups = Vec::new(alloc);
    let mut from = 0;
    while from < chunks.len() {
        let to = from + (chunks.len() - from).min(GROUP_MOST);
        groups.push(Group::of(alloc, &chunks[from..to])?)?;
        from = to;
    }
    Ok(groups)
}

/// The chunks of all groups, in order.
fn chunks_of(alloc: Global, groups: &[Group]) -> Result<Vec<Chunk>, Memory>
    ensures { IfOk result (λ chunks. chunks.items ≡ joined groups.now) }
{
    let mut chunks = Vec::new(alloc);
    for group in groups {
        let mut list = group.list().clone()?;
        chunks.append(&mut list.items)?;
    }
    Ok(chunks)
}

/// How many chunks each group has.
fn counts(alloc: Global, groups: &[Group]) -> Result<Vec<usize>, Memory>
    ensures { IfOk result (λ counts. counts.items ≡ counts_of groups.now) }
{
    let mut counts = Vec::with_capacity(alloc, groups.len())?;
    for group in groups {
        counts.push(group.len())?;
    }
    Ok(counts)
}
