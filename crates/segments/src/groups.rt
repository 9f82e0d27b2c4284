//! A list of parts that copies share in groups.
ghost use Rattle.std.specs.Prelude.{◌≡◌, ℕ, ◌+◌, ◌-◌, ◌<◌, ◌≤◌, List, [], ◌∷◌, ◌++◌, length, slice_index_or, slice_set, take, drop, All, IfOk, IfSome, OnOk, OnErr};
ghost use Rattle.std.specs.Bool.{OnTrue};
ghost use Rattle.std.specs.Option.{OnSome, IfNone};
ghost use Rattle.segments.specs.Joined.{joined, counts_of};
ghost use Rattle.segments.specs.Groups.{HasLastRoom};

use crate::parts::replace_parts;
use crate::segments::Segments;
use crate::shared::Shared;
use crate::splice::Splice;
use mk_value::Memory;
use std::alloc::{AllocError, Global};
use std::marker::Model;

/// The most parts of one group.
const GROUP_MOST: usize = 64;

/// Some parts of a list, in order.
#[derive(Drop)]
struct Group<T> {
    parts: Vec<Shared<T>>,
}

impl<T> Model for Group<T> {
    ghost use Rattle.std.specs.Prelude.{List};
    ghost use Rattle.std.specs.Coded.{coded_list};

    ghost Value = { List T };

    ghost coded = { coded_list T.code };

    ghost view = { λ g. g.parts.items };
}

impl<T: Drop> Clone for Group<T> {
    ghost is_clone = { λ a b. b ≡ a };

    fn clone(&self) -> Result<Group<T>, AllocError> {
        Ok(Group {
            parts: Vec::from_clones(*self.parts.allocator(), &self.parts)?,
        })
    }
}

impl<T: Drop> Group<T> {
    ghost use Rattle.std.specs.Borrow.{Lends, LendsIfOk, sem};
    ghost use Rattle.segments.specs.contracts.groups.Group.{the_row};
    ghost use Rattle.segments.specs.contracts.shared.Shared.{the_row as shared_row};

    /// How many parts there are.
    fn len(&self) -> usize
        ensures { result ≡ length self.now }
    {
        self.parts.len()
    }

    /// Adds a part at the end.
    fn push(&mut self, part: Shared<T>) -> Result<(), Memory>
        ensures ok { OnOk result (self.new ≡ self.old ++ part ∷ []) }
        ensures err { OnErr result (self.new ≡ self.old) }
    {
        self.parts.push(part)?;
        Ok(())
    }

    /// The part of this number, to be written to.
    #[inline]
    fn part(&mut self, k: usize) -> &mut Shared<T>
        requires { k < length self.old }
        ensures* writes_back { sem 𝓛 (Lends (the_row T.row) (shared_row T.row) self.entry result (λ w. slice_set self.entry.now k w)) }
        ensures value { result.now ≡ slice_index_or self.old k result.now }
    {
        &mut self.parts[k]
    }

    /// The part of this number of a group, to be written to, after the group has become its owner's own.
    #[inline]
    fn own_part(group: &mut Shared<Group<T>>, k: usize) -> Result<&mut Shared<T>, AllocError>
        requires { k < length group.old }
        ensures* writes_back { sem 𝓛 (LendsIfOk (shared_row (the_row T.row)) (shared_row T.row) group.entry result (λ w. slice_set group.entry.now k w) group.entry.now) }
        ensures value { IfOk result (λ x. x.now ≡ slice_index_or group.old k x.now) }
    {
        let own = group.own()?;
        Ok(own.part(k))
    }
}

/// A list of shared parts in groups of at most 64, each behind a count of its owners: a copy of the list counts the groups, and an edit of a
/// copied list copies the groups that it touches, and no other. A caller sees the list of the parts.
#[derive(Drop)]
pub struct Groups<T> {
    groups: Vec<Shared<Group<T>>>,
    ends: Segments<GROUP_MOST>,
}

impl<T> Model for Groups<T> {
    ghost use Rattle.std.specs.Prelude.{◌≡◌, List};
    ghost use Rattle.std.specs.Coded.{coded_list};
    ghost use Rattle.segments.specs.Joined.{joined, counts_of};

    ghost Value = { List T };

    ghost coded = { coded_list T.code };

    ghost view = { λ g. joined g.groups.items };

    ghost invariant = { λ g. g.ends ≡ counts_of g.groups.items };
}

impl<T: Drop> Clone for Groups<T> {
    ghost is_clone = { λ a b. b ≡ a };

    #[cold]
    #[inline(never)]
    fn clone(&self) -> Result<Groups<T>, AllocError> {
        Ok(Groups {
            groups: Vec::from_clones(*self.groups.allocator(), &self.groups)?,
            ends: self.ends.clone()?,
        })
    }
}

impl<T: Drop> Groups<T> {
    ghost use Rattle.std.specs.Borrow.{LendsIfOk, sem};
    ghost use Rattle.segments.specs.contracts.groups.Groups.{the_row};
    ghost use Rattle.segments.specs.contracts.shared.Shared.{the_row as shared_row};

    /// A list of no parts. It takes no memory.
    pub fn new(alloc: Global) -> Groups<T>
        ensures { result ≡ [] }
    {
        Groups {
            groups: Vec::new(alloc),
            ends: Segments::new(alloc),
        }
    }

    /// The list of these parts.
    ///
    /// # Errors
    ///
    /// `Memory`.
    pub fn from_parts(parts: Vec<Shared<T>>) -> Result<Groups<T>, Memory>
        requires { length parts.items ≤ 16777216 }
        ensures { IfOk result (λ list. list ≡ parts.items) }
    {
        let alloc = *parts.allocator();
        let groups = grouped(alloc, &parts)?;
        let counts = counts(alloc, &groups)?;
        Ok(Groups {
            groups,
            ends: Segments::from_counts(alloc, &counts)?,
        })
    }

    pub fn allocator(&self) -> Global {
        *self.groups.allocator()
    }

    /// How many parts there are.
    pub fn len(&self) -> usize
        ensures len { result ≡ length self.now }
        ensures few { result ≤ 16777216 }
    {
        self.ends.len()
    }

    /// The part of this number.
    #[inline]
    pub fn get(&self, k: usize) -> &T
        requires { k < length self.now }
        ensures { result.now ≡ slice_index_or self.now k result.now }
    {
        self.shared(k).get()
    }

    /// The last part, if there is one.
    pub fn last(&self) -> Option<&T>
        ensures some { OnSome result (0 < length self.now) }
        ensures value { IfSome result (λ x. x.now ≡ slice_index_or self.now (length self.now - 1) x.now) }
        ensures none { IfNone result (length self.now ≡ 0) }
    {
        let len = self.len();
        if len == 0 {
            return None;
        }
        Some(self.get(len - 1))
    }

    /// The part of this number, with the count of its owners.
    #[inline]
    fn shared(&self, k: usize) -> &Shared<T>
        requires { k < length self.now }
        ensures { result.now ≡ slice_index_or self.now k result.now }
    {
        let place = self.ends.find(k);
        let group = self.groups[place.segment].get();
        &group.parts[place.offset]
    }

    /// The part of this number, to be written to, after its group has become the list's own. Copies of the list keep it.
    ///
    /// # Errors
    ///
    /// Want of memory, and the list is as it was.
    #[inline]
    pub fn slot(&mut self, k: usize) -> Result<&mut Shared<T>, AllocError>
        requires { k < length self.old }
        ensures* writes_back { sem 𝓛 (LendsIfOk (the_row T.row) (shared_row T.row) self.entry result (λ w. slice_set self.entry.now k w) self.entry.now) }
        ensures value { IfOk result (λ x. x.now ≡ slice_index_or self.old k x.now) }
    {
        let place = self.ends.find(k);
        let group = &mut self.groups[place.segment];
        Group::own_part(group, place.offset)
    }

    /// Adds a part at the end. Copies of the list stay as they are.
    ///
    /// # Errors
    ///
    /// `Memory`, and the list is as it was.
    pub fn push(&mut self, part: Shared<T>) -> Result<(), Memory>
        requires { length self.old < 16777216 }
        ensures ok { OnOk result (self.new ≡ self.old ++ part ∷ []) }
        ensures err { OnErr result (self.new ≡ self.old) }
    {
        if has_last_room(&self.groups) {
            let last = self.groups.len() - 1;
            push_shared(&mut self.groups[last], part)?;
            self.ends.extend_last();
            return Ok(());
        }
        let len = self.len();
        let one = Vec::from_array(self.allocator(), [part])?;
        self.replace(len, len, one)
    }

    /// Puts parts in place of those from `first` up to `after`. Copies of the list stay as they are.
    ///
    /// # Errors
    ///
    /// `Memory`, and the list is as it was.
    pub fn replace(
        &mut self,
        first: usize,
        after: usize,
        fresh: Vec<Shared<T>>,
    ) -> Result<(), Memory>
        requires order { first ≤ after }
        requires in_range { after ≤ length self.old }
        requires few { first + length fresh.items + (length self.old - after) ≤ 16777216 }
        ensures ok { OnOk result (self.new ≡ take first self.old ++ (fresh.items ++ drop after self.old)) }
        ensures err { OnErr result (self.new ≡ self.old) }
    {
        let splice = Splice {
            at: first,
            end: after,
            count: fresh.len(),
        };
        let replaced = self.ends.replaced(&splice);
        let old = &self.groups[replaced.first..replaced.after];
        let groups = regrouped(old, first - replaced.start, after - replaced.start, fresh)?;
        let counts = counts(self.allocator(), &groups)?;
        let ends = self.ends.spliced(replaced.first, replaced.after, &counts)?;
        replace_parts(&mut self.groups, replaced.first, replaced.after, groups)?;
        self.ends = ends;
        Ok(())
    }

    /// The list of the parts before the last.
    ///
    /// # Errors
    ///
    /// `Memory`.
    pub fn without_last(&self) -> Result<Groups<T>, Memory>
        requires { 0 < length self.now }
        ensures { IfOk result (λ list. list ≡ take (length self.now - 1) self.now) }
    {
        let len = self.len();
        let mut list = self.clone()?;
        list.replace(len - 1, len, Vec::new(self.allocator()))?;
        Ok(list)
    }
}

/// The parts of these groups with others in place of those from `first` up to `after`, in new groups.
fn regrouped<T: Drop>(
    groups: &[Shared<Group<T>>],
    first: usize,
    after: usize,
    fresh: Vec<Shared<T>>,
) -> Result<Vec<Shared<Group<T>>>, Memory>
    requires order { first ≤ after }
    requires in_range { after ≤ length (joined groups.now) }
    ensures parts { IfOk result (λ new. joined new.items ≡ take first (joined groups.now) ++ (fresh.items ++ drop after (joined groups.now))) }
    ensures few { IfOk result (λ new. All (λ n. n ≤ 64) (counts_of new.items)) }
{
    let alloc = *fresh.allocator();
    let mut parts = parts_of(alloc, groups)?;
    replace_parts(&mut parts, first, after, fresh)?;
    grouped(alloc, &parts)
}

/// These parts in groups, all full but the last.
fn grouped<T: Drop>(alloc: Global, parts: &[Shared<T>]) -> Result<Vec<Shared<Group<T>>>, Memory>
    ensures parts { IfOk result (λ groups. joined groups.items ≡ parts.now) }
    ensures few { IfOk result (λ groups. All (λ n. n ≤ 64) (counts_of groups.items)) }
{
    let mut groups = Vec::new(alloc);
    let mut from = 0;
    while from < parts.len() {
        let to = from + (parts.len() - from).min(GROUP_MOST);
        groups.push(group_of(alloc, &parts[from..to])?)?;
        from = to;
    }
    Ok(groups)
}

/// The group of these parts.
fn group_of<T: Drop>(alloc: Global, parts: &[Shared<T>]) -> Result<Shared<Group<T>>, Memory>
    ensures { IfOk result (λ group. group ≡ parts.now) }
{
    let parts = Vec::from_clones(alloc, parts)?;
    Shared::of(alloc, Group { parts })
}

/// The parts of all groups, in order.
fn parts_of<T: Drop>(alloc: Global, groups: &[Shared<Group<T>>]) -> Result<Vec<Shared<T>>, Memory>
    ensures { IfOk result (λ parts. parts.items ≡ joined groups.now) }
{
    let mut parts = Vec::new(alloc);
    for shared in groups {
        let mut group = shared.get().clone()?;
        parts.append(&mut group.parts)?;
    }
    Ok(parts)
}

/// How many parts each group has.
fn counts<T: Drop>(alloc: Global, groups: &[Shared<Group<T>>]) -> Result<Vec<usize>, Memory>
    ensures { IfOk result (λ counts. counts.items ≡ counts_of groups.now) }
{
    let mut counts = Vec::with_capacity(alloc, groups.len())?;
    for shared in groups {
        counts.push(shared.get().len())?;
    }
    Ok(counts)
}

/// Whether there is a last group, and it has room.
fn has_last_room<T: Drop>(groups: &[Shared<Group<T>>]) -> bool
    ensures { OnTrue result (HasLastRoom groups.now) }
{
    match groups.last() {
        None => false,
        Some(last) => last.get().len() < GROUP_MOST,
    }
}

/// Adds a part to a group. Other owners keep it as it was.
fn push_shared<T: Drop>(group: &mut Shared<Group<T>>, part: Shared<T>) -> Result<(), Memory>
    ensures ok { OnOk result (group.new ≡ group.old ++ part ∷ []) }
    ensures err { OnErr result (group.new ≡ group.old) }
{
    match group.sole() {
        Some(own) => own.push(part),
        None => group.own()?.push(part),
    }
}
