ghost use Rattle.std.specs.Prelude.{◌≡◌, All, IsTrue};
ghost use Rattle.free_space.specs.Extents.{IsBlock};

use free_space::{FreeError, FreeMap, extent_end, extent_len, is_site};
use mk_value::Span;
use std::alloc::Global;
use std::process::Abort;
use std::test::Fail;

/// The far end of the files that the tests speak of, in bytes.
const FAR: u64 = 1 << 40;

/// Whether the span is a block of a file that ends before `FAR`.
#[tactic(auto, unfolding(free_space::specs::Extents::extent_len))]
fn is_near_block(span: &Span) -> bool
    ensures { IsTrue result → IsBlock span.now }
{
    span.place % 16 == 0 && 0 < span.len && span.place < FAR && span.len < FAR
}

/// Whether each span is a block of a file that ends before `FAR`.
fn are_near_blocks(spans: &[Span]) -> bool
    ensures { IsTrue result → All IsBlock spans.now }
{
    spans.iter().all(is_near_block)
}

/// Places a block of each length and takes it, one after another. Returns their places and the end after them.
fn placed(
    rt: &impl Abort,
    alloc: Global,
    floor: u64,
    used: &[Span],
    lens: &[u64],
) -> Result<(Vec<u64>, u64), Fail> {
    assert!(rt; floor % 16 == 0 && are_near_blocks(used));
    let mut map = FreeMap::from_used(alloc, floor, used)?;
    let mut places = Vec::new(alloc);
    for len in lens {
        let len = *len;
        assert!(rt; 0 < len);
        assert!(rt; len < FAR);
        let place = map.place(len);
        assert!(rt; place < FAR);
        map.reserve(1)?;
        map.take(Span { place, len });
        places.push(place)?;
    }
    Ok((places, map.end()))
}

/// A commit: the floor, the spans of the commit before, and the lengths of its blocks, the directory's last; then
/// the places that they get, and the end of all.
#[derive(Drop)]
struct Commit<'a> {
    floor: u64,
    used: &'a [Span],
    lens: &'a [u64],
    places: &'a [u64],
    end: u64,
}

fn span(place: u64, len: u64) -> Span
    ensures { (result.place ≡ place) × (result.len ≡ len) }
{
    Span { place, len }
}

// Worked by hand: a column of 64 numbers as its width goes from 0 to 1, 4, 32 and back to 0 bits, then 4,000 more
// of one bit, or none at all, under a directory of 35 bytes; texts of 512 and 513 bytes; and a file that is only
// ever extended, with the floor at its old end.
static COMMITS: [Commit<'static>; 9] = [
    Commit {
        floor: 192,
        used: &[Span { place: 192, len: 4 }],
        lens: &[35],
        places: &[208],
        end: 256,
    },
    Commit {
        floor: 192,
        used: &[Span {
            place: 208,
            len: 35,
        }],
        lens: &[8, 35],
        places: &[192, 256],
        end: 304,
    },
    Commit {
        floor: 192,
        used: &[
            Span { place: 192, len: 8 },
            Span {
                place: 256,
                len: 35,
            },
        ],
        lens: &[32, 35],
        places: &[208, 304],
        end: 352,
    },
    Commit {
        floor: 192,
        used: &[
            Span {
                place: 208,
                len: 32,
            },
            Span {
                place: 304,
                len: 35,
            },
        ],
        lens: &[256, 35],
        places: &[352, 240],
        end: 608,
    },
    Commit {
        floor: 192,
        used: &[
            Span {
                place: 352,
                len: 256,
            },
            Span {
                place: 240,
                len: 35,
            },
        ],
        lens: &[35],
        places: &[192],
        end: 608,
    },
    Commit {
        floor: 192,
        used: &[Span {
            place: 192,
            len: 35,
        }],
        lens: &[508, 35],
        places: &[240, 752],
        end: 800,
    },
    Commit {
        floor: 192,
        used: &[Span {
            place: 192,
            len: 35,
        }],
        lens: &[35],
        places: &[240],
        end: 288,
    },
    Commit {
        floor: 192,
        used: &[Span { place: 192, len: 4 }],
        lens: &[4, 512, 513, 75],
        places: &[208, 224, 736, 1264],
        end: 1344,
    },
    Commit {
        floor: 352,
        used: &[
            Span { place: 208, len: 1 },
            Span { place: 224, len: 3 },
            Span { place: 240, len: 1 },
            Span {
                place: 256,
                len: 86,
            },
        ],
        lens: &[1, 86],
        places: &[352, 368],
        end: 464,
    },
];

#[test]
fn places_blocks_at_the_least_place(rt: HostRuntime) -> Result<(), Fail> {
    for commit in &COMMITS {
        let (places, end) = placed(&rt, rt.alloc(), commit.floor, commit.used, commit.lens)?;
        assert_eq!(rt; places.as_slice(), commit.places);
        assert_eq!(rt; end, commit.end);
    }
    Ok(())
}

/// Spans, and the two of them that are named as the first to meet.
#[derive(Drop)]
struct Overlapping<'a> {
    spans: &'a [Span],
    first: Span,
    second: Span,
}

// Worked by hand. The first is a column whose place was turned from 240 to 224, where another block stands.
static OVERLAPPING: [Overlapping<'static>; 4] = [
    Overlapping {
        spans: &[
            Span { place: 208, len: 1 },
            Span { place: 224, len: 3 },
            Span { place: 224, len: 1 },
            Span {
                place: 256,
                len: 86,
            },
        ],
        first: Span { place: 224, len: 3 },
        second: Span { place: 224, len: 1 },
    },
    Overlapping {
        spans: &[
            Span {
                place: 256,
                len: 86,
            },
            Span { place: 224, len: 1 },
            Span { place: 208, len: 1 },
            Span { place: 224, len: 3 },
        ],
        first: Span { place: 224, len: 1 },
        second: Span { place: 224, len: 3 },
    },
    Overlapping {
        spans: &[
            Span {
                place: 320,
                len: 16,
            },
            Span {
                place: 304,
                len: 17,
            },
            Span { place: 208, len: 1 },
            Span {
                place: 192,
                len: 17,
            },
        ],
        first: Span {
            place: 192,
            len: 17,
        },
        second: Span { place: 208, len: 1 },
    },
    Overlapping {
        spans: &[
            Span {
                place: 192,
                len: 100,
            },
            Span { place: 272, len: 1 },
            Span { place: 208, len: 1 },
        ],
        first: Span {
            place: 192,
            len: 100,
        },
        second: Span { place: 208, len: 1 },
    },
];

#[test]
fn names_the_first_neighbors_that_meet(rt: HostRuntime) -> Result<(), Fail> {
    for row in &OVERLAPPING {
        assert!(rt; are_near_blocks(row.spans));
        let refusal = FreeMap::from_used(rt.alloc(), 192, row.spans).err();
        assert_eq!(rt; refusal, Some(FreeError::Overlap(row.first, row.second)));
    }
    Ok(())
}

#[test]
fn gives_space_back(rt: HostRuntime) -> Result<(), Fail> {
    // The spans touch, and do not meet.
    let used = [span(208, 16), span(192, 16), span(224, 5)];
    assert!(rt; are_near_blocks(&used));
    let mut map = FreeMap::from_used(rt.alloc(), 192, &used)?;
    assert_eq!(rt; map.end(), 240);
    assert_eq!(rt; map.place(1), 240);
    map.give(used[0]);
    assert_eq!(rt; map.place(16), 208);
    assert_eq!(rt; map.place(17), 240);
    assert_eq!(rt; map.end(), 240);
    Ok(())
}

static EXTENTS: [(u64, u64); 4] = [(0, 0), (1, 16), (16, 16), (86, 96)];

/// A length with its rounding.
#[tactic(auto, unfolding(free_space::specs::Extents::extent_len))]
fn rounded(rt: &impl Abort, len: u64) -> u64 {
    assert!(rt; len < FAR);
    extent_len(len)
}

#[test]
fn rounds_up_to_16(rt: HostRuntime) {
    for (len, extent) in &EXTENTS {
        assert_eq!(rt; rounded(&rt, *len), *extent);
    }
}

/// Spans, and whether each is a site in a file of 352 bytes.
static SITES: [(Span, bool); 6] = [
    (
        Span {
            place: 256,
            len: 86,
        },
        true,
    ),
    (
        Span {
            place: 256,
            len: 97,
        },
        false,
    ),
    (Span { place: 248, len: 8 }, false),
    (
        Span {
            place: 176,
            len: 16,
        },
        false,
    ),
    (Span { place: 256, len: 0 }, false),
    (Span { place: 352, len: 1 }, false),
];

#[test]
fn a_site_is_aligned_and_within_the_file(rt: HostRuntime) {
    for (site, want) in &SITES {
        assert_eq!(rt; is_site(352, site), *want);
    }
}

#[test]
#[tactic(auto, unfolding(free_space::specs::Extents::extent_len))]
fn an_extent_ends_at_16(rt: HostRuntime) {
    assert_eq!(rt; extent_end(&span(256, 86)), 352);
}

/// A place is found also for a block that no file can hold.
#[test]
fn a_place_for_what_no_file_holds(rt: HostRuntime) -> Result<(), Fail> {
    let last = u64::MAX - 15;
    let map = FreeMap::from_used(rt.alloc(), last, &[])?;
    assert_eq!(rt; map.place(u64::MAX), last);
    assert_eq!(rt; map.end(), last);
    Ok(())
}

/// The lengths of so many blocks of 32, 48 and 64 bytes with their rounding.
fn many(alloc: Global, count: u64) -> Result<Vec<u64>, Fail> {
    let mut lens = Vec::new(alloc);
    for number in 0..count {
        lens.push(17 + number % 3 * 16)?;
    }
    Ok(lens)
}

/// The end after blocks of these lengths.
fn end_after(
    rt: &impl Abort,
    alloc: Global,
    floor: u64,
    used: &[Span],
    lens: &[u64],
) -> Result<u64, Fail> {
    Ok(placed(rt, alloc, floor, used, lens)?.1)
}

/// Around two holes that are too short for each of the blocks.
static HOLES: [Span; 2] = [
    Span {
        place: 208,
        len: 16,
    },
    Span {
        place: 240,
        len: 16,
    },
];

// Behind two holes that are too short for each, 100,000 blocks. A search of all that is in use for each of them would take ten seconds.
#[test]
fn places_many_blocks(rt: HostRuntime) -> Result<(), Fail> {
    let lens = many(rt.alloc(), 100_000)?;
    let end = end_after(&rt, rt.alloc(), 192, &HOLES, &lens)?;
    assert_eq!(rt; end, 256 + 33_334 * 32 + 33_333 * (48 + 64));
    Ok(())
}
