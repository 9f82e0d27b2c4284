//! Which keys of an index another has: the groups of both are gone along once, since both ascend by key.
ghost use Rattle.std.specs.Prelude.{◌≡◌, ◌<◌, ◌≤◌, ◌&&◌, [], All, length, map, nat_lt, slice_index_or, IfOk};
ghost use Rattle.std.specs.Ordering.{is_eq};
ghost use Rattle.relations.specs.Equality.{is_row_among};
ghost use Rattle.relations.specs.WholeOrder.{whole_row_cmp};
ghost use Rattle.grouping.specs.Index.{keys_less, keys_of};
ghost use Rattle.grouping.specs.Marks.{marked};

use crate::key_index::KeyIndex;
use mk_value::{Memory, TableRead};
use std::alloc::Global;

impl<'a, T: TableRead> KeyIndex<'a, T> {
    /// For each row whether another index has its key. It costs as many comparisons of keys as both have groups.
    pub fn shared<U: TableRead>(
        &self,
        alloc: Global,
        other: &KeyIndex<'_, U>,
    ) -> Result<Vec<bool>, Memory>
        ensures { IfOk result (λ shared. shared.items ≡ map (is_row_among other.now) self.now) }
    {
        let mut shared = vec![in alloc; false; self.rows()]?;
        self.mark_shared(other, &mut shared);
        Ok(shared)
    }

    /// Writes for each row whether another index has its key.
    fn mark_shared<U: TableRead>(&self, other: &KeyIndex<'_, U>, shared: &mut [bool])
        requires { length shared.old ≡ length self.now }
        ensures { shared.new ≡ map (is_row_among other.now) self.now }
    {
        let mut place = 0;
        for group in 0..self.groups() {
            place = other.reach(place, self, group);
            let found = other.is_at(place, self, group);
            mark(self.group(group), found, shared);
        }
    }

    /// The number of groups whose keys are less than that of another index's group, of which these many are known to be.
    fn reach<U: TableRead>(&self, known: usize, other: &KeyIndex<'_, U>, group: usize) -> usize
        requires group_in { group < length (keys_of other.now) }
        requires known { known ≤ keys_less self.now (slice_index_or (keys_of other.now) group []) }
        ensures { result ≡ keys_less self.now (slice_index_or (keys_of other.now) group []) }
    {
        let groups = self.groups();
        for place in known..groups {
            if !self.cmp_groups(place, other, group).is_lt() {
                return place;
            }
        }
        groups
    }

    /// Whether there is a group at a place, and its key is that of another index's group.
    fn is_at<U: TableRead>(&self, place: usize, other: &KeyIndex<'_, U>, group: usize) -> bool
        requires group_in { group < length (keys_of other.now) }
        ensures { result ≡ (nat_lt place (length (keys_of self.now)) && is_eq (whole_row_cmp (slice_index_or (keys_of self.now) place []) (slice_index_or (keys_of other.now) group []))) }
    {
        place < self.groups() && self.cmp_groups(place, other, group).is_eq()
    }
}

/// Writes a mark at each of these places.
fn mark(places: &[u32], value: bool, marks: &mut [bool])
    requires { All (λ i. i < length marks.old) places.now }
    ensures { marks.new ≡ marked places.now value marks.old }
{
    for place in places {
        marks[*place as usize] = value;
    }
}
