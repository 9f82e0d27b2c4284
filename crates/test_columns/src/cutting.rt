//! Segments of at most four items: where each item stands, what an edit replaces, and the segments after it.
//!
//! What is expected is counted by hand.
ghost use Rattle.std.specs.Prelude.{◌+◌, ◌≤◌, length};

use segments::{Replaced, Segments, Shared, Splice, replace_parts};
use std::alloc::{AllocError, Global};
use std::process::Abort;
use std::test::Fail;

/// Asserts where the item at a place stands.
fn stands<R: Abort>(rt: &R, segments: &Segments<4>, at: usize, segment: usize, offset: usize) {
    assert!(rt; at < segments.len());
    let place = segments.find(at);
    assert!(rt; place.segment == segment && place.offset == offset, "{at}");
}

/// Asserts which segments are replaced where `count` items stand in place of those from `at` up to `end`: those from the first of
/// `want` up to the second, which hold the items from the third up to the fourth.
fn replaces<R: Abort>(
    rt: &R,
    segments: &Segments<4>,
    (at, end, count): (usize, usize, usize),
    (first, after, start, stop): (usize, usize, usize, usize),
) {
    let len = segments.len();
    assert!(rt; at <= end && end <= len && len <= 100 && count <= 100);
    let replaced = segments.replaced(&Splice { at, end, count });
    assert!(rt;
        replaced.first == first && replaced.after == after,
        "{at} {end}"
    );
    assert!(rt;
        replaced.start == start && replaced.stop == stop,
        "{at} {end}"
    );
}

/// No segments, and the three items that are put into them.
#[test]
fn no_segments(rt: HostRuntime) -> Result<(), Fail> {
    let none = Segments::from_counts(rt.alloc(), &[])?;
    assert!(rt; none.count() == 0 && none.len() == 0);
    replaces(&rt, &none, (0, 0, 3), (0, 0, 0, 0));
    Ok(())
}

/// Segments of four items, one and three.
fn three(alloc: Global) -> Result<Segments<4>, Fail> {
    Ok(Segments::from_counts(alloc, &[4, 1, 3])?)
}

/// A place, its segment, and how far into that it is.
static PLACES: [(usize, usize, usize); 5] = [(0, 0, 0), (3, 0, 3), (4, 1, 0), (5, 2, 0), (7, 2, 2)];

/// Where the items of three segments stand.
#[test]
fn items_of_three_segments(rt: HostRuntime) -> Result<(), Fail> {
    let three = three(rt.alloc())?;
    assert!(rt; three.count() == 3 && three.len() == 8);
    for (at, segment, offset) in &PLACES {
        stands(&rt, &three, *at, *segment, *offset);
    }
    Ok(())
}

/// Which segments edits replace.
#[test]
fn segments_that_edits_replace(rt: HostRuntime) -> Result<(), Fail> {
    let three = three(rt.alloc())?;
    // Items 2 to 5 go: one of each segment is among them.
    replaces(&rt, &three, (2, 6, 0), (0, 3, 0, 8));
    // An item before place 4: the segment before is full, and the one behind has one item.
    replaces(&rt, &three, (4, 4, 1), (1, 2, 4, 5));
    Ok(())
}

/// An item at the edge of two segments of three and four items fills the first.
#[test]
fn an_item_fills_the_segment_before_it(rt: HostRuntime) -> Result<(), Fail> {
    let room = Segments::from_counts(rt.alloc(), &[3, 4])?;
    replaces(&rt, &room, (3, 3, 1), (0, 1, 0, 3));
    Ok(())
}

/// An item behind a full segment, which is the last.
#[test]
fn an_item_behind_all_begins_a_segment(rt: HostRuntime) -> Result<(), Fail> {
    let full = Segments::from_counts(rt.alloc(), &[4])?;
    replaces(&rt, &full, (4, 4, 1), (1, 1, 4, 4));
    Ok(())
}

/// Two segments in place of one.
#[test]
fn segments_spliced(rt: HostRuntime) -> Result<(), Fail> {
    let three = Segments::<4>::from_counts(rt.alloc(), &[4, 1, 3])?;
    assert!(rt; three.count() == 3);
    let four = three.spliced(1, 2, &[2, 2])?;
    assert!(rt; four.count() == 4 && four.len() == 11);
    for (at, segment, offset) in [(4, 1, 0), (7, 2, 1), (8, 3, 0)] {
        stands(&rt, &four, at, segment, offset);
    }
    Ok(())
}

/// Two items behind those of the last segment, and a copy that stays.
#[test]
fn a_last_segment_extended(rt: HostRuntime) -> Result<(), Fail> {
    let mut last = Segments::<4>::from_counts(rt.alloc(), &[4, 2])?;
    let copy = last.clone()?;
    last.extend_last();
    last.extend_last();
    assert!(rt; last.count() == 2 && last.len() == 8 && copy.len() == 6);
    stands(&rt, &last, 7, 1, 3);
    Ok(())
}

/// Parts in place of others.
#[test]
fn parts_replaced(rt: HostRuntime) -> Result<(), Fail> {
    let mut parts = Vec::from_slice(rt.alloc(), &[1u8, 2, 3, 4])?;
    replace_parts(&mut parts, 1, 3, Vec::from_slice(rt.alloc(), &[9])?)?;
    assert!(rt; parts.as_slice() == [1, 9, 4].as_slice());
    Ok(())
}

/// The size after three items were put where none were replaced.
#[test]
fn a_size_after(rt: HostRuntime) {
    let splice = Splice {
        at: 0,
        end: 0,
        count: 3,
    };
    let nothing = Replaced {
        first: 0,
        after: 0,
        start: 0,
        stop: 0,
    };
    assert!(rt; splice.size_after(&nothing) == 3);
}

/// Makes a shared value its holder's own, and another.
fn change(shared: &mut Shared<u8>, value: u8) -> Result<(), AllocError> {
    *shared.own()? = value;
    Ok(())
}

/// A shared value that one of its holders makes its own.
#[test]
fn shared_values(rt: HostRuntime) -> Result<(), Fail> {
    let shared = Shared::of(rt.alloc(), 7u8)?;
    let mut other = shared.clone()?;
    assert!(rt; other.sole().is_none());
    change(&mut other, 8)?;
    assert!(rt; *shared.get() == 7 && *other.get() == 8);
    Ok(())
}
