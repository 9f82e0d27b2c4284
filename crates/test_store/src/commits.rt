// The eight calls of a commit over the worked file, each of them failing, and what a crash after each leaves. Expected values were worked
// out by hand.
ghost use Rattle.std.specs.Prelude.{◌≡◌, ◌≤◌, [], ◌∷◌, length};
ghost use Rattle.host_io.specs.Memory.{outside_of};
ghost use Rattle.commit_writes.specs.Blocks.{Block};

use crate::worked::{WORKED, host_over, worked};
use block_io::{Part, write_block};
use commit_marks::{Mark, Marks, read_marks};
use commit_writes::{WritesBlocks, carry};
use host_io::{Disk, Effect, Failed, Fault, MemHost};
use std::alloc::Global;
use std::process::Abort;
use std::test::Fail;

/// The block of `age`, 32 in 8 bits, which goes to the place of the first directory.
static COLUMN: [u8; 1] = [0x20];

/// The directory of the worked file with `age` at 192.
static DIRECTORY: [u8; 86] = [
    0x01, 0x00, 0x00, 0x00, 0x14, 0x00, 0x00, 0x00, 0x70, 0x65, 0x6f, 0x70, 0x6c, 0x65, 0x5b, 0x6e,
    0x61, 0x6d, 0x65, 0x3a, 0x53, 0x2c, 0x61, 0x67, 0x65, 0x3a, 0x49, 0x5d, 0x01, 0x00, 0x00, 0x00,
    0x02, 0xd0, 0x00, 0x00, 0x00, 0x00, 0x00, 0x00, 0x00, 0x01, 0x00, 0x00, 0x00, 0x00, 0x00, 0x00,
    0x00, 0xe0, 0x00, 0x00, 0x00, 0x00, 0x00, 0x00, 0x00, 0x03, 0x00, 0x00, 0x00, 0x00, 0x00, 0x00,
    0x00, 0x00, 0x00, 0x00, 0x00, 0x08, 0xc0, 0x00, 0x00, 0x00, 0x00, 0x00, 0x00, 0x00, 0x01, 0x00,
    0x00, 0x00, 0x00, 0x00, 0x00, 0x00,
];

/// The bytes of the worked file that the commit changes below its old end.
static CHANGES: [(usize, u8); 8] = [
    (72, 0x02),
    (80, 0x60),
    (81, 0x01),
    (88, 0x56),
    (96, 0xc0),
    (97, 0x01),
    (192, 0x20),
    (64, 0xa5),
];

const MARKS: Marks = Marks {
    chosen: Mark {
        version: 1,
        number: 1,
        place: 256,
        len: 86,
        end: 352,
    },
    slot: 1,
    other: Some(Mark {
        version: 1,
        number: 0,
        place: 192,
        len: 4,
        end: 208,
    }),
};

const NEXT: Mark = Mark {
    version: 1,
    number: 2,
    place: 352,
    len: 86,
    end: 448,
};

/// The blocks of the commit.
#[derive(Drop)]
struct Blocks<'a> {
    column: &'a [u8],
    directory: &'a [u8],
}

impl WritesBlocks for Blocks<'_> {
    ghost blocks = { λ b. (record { span = record { place = 192; len = length b.column.now }; bytes = b.column.now })
        ∷ (record { span = record { place = 352; len = length b.directory.now }; bytes = b.directory.now }) ∷ [] };

    fn write<D: Disk>(&self, disk: &mut D) -> Result<(), Failed> {
        write_block(disk, 192, &Part::Raw(self.column))?;
        write_block(disk, 352, &Part::Raw(self.directory))
    }
}

fn commit(host: &mut MemHost, marks: &Marks, column: &[u8], directory: &[u8]) -> Result<(), Failed>
    requires low { marks.now.slot ≤ 1 }
    requires column { length column.now ≡ 1 }
    requires directory { length directory.now ≡ 86 }
    requires long { 352 ≤ length (outside_of host.old).now.disk.seen }
{
    carry(host, marks, &Blocks { column, directory }, &NEXT)
}

/// The number of the commit for which an image stands.
fn number_of(alloc: Global, image: &[u8]) -> Result<u64, Fail> {
    let mut host = host_over(alloc, image, &[])?;
    Ok(read_marks(&mut host)?.chosen.number)
}

/// The number of the commit for which an image stands: of a crash after so many calls, which leaves the pending bytes so.
fn number_left(
    rt: &impl Abort,
    alloc: Global,
    host: &MemHost,
    after: u64,
    choice: Effect,
) -> Result<u64, Fail> {
    assert!(rt; after <= host.calls());
    let image = host.crash(after, choice)?;
    number_of(alloc, image.as_slice())
}

/// The numbers of the images of a crash that leaves the pending bytes as at the last sync, as written, and all `ff`.
type Numbers = [u64; 3];

const OLD: Numbers = [1, 1, 1];

/// The gate is pending: only as written it is open.
const OPENING: Numbers = [1, 2, 1];

/// After so many calls, none of which failed.
static AFTER: [Numbers; 9] = [OLD, OLD, OLD, OLD, OLD, OLD, OLD, OPENING, [2, 2, 2]];

static EFFECTS: [Effect; 3] = [Effect::Nothing, Effect::Whole, Effect::Ones];

/// After the call that failed, for what it left: nothing, all of it, or all `ff`.
static FAILED: [[Numbers; 3]; 8] = [
    [OLD, OLD, OLD],
    [OLD, OLD, OLD],
    [OLD, OLD, OLD],
    [OLD, OLD, OLD],
    [OLD, OLD, OLD],
    [OLD, OLD, OLD],
    [OLD, OPENING, OLD],
    [OPENING, OPENING, OPENING],
];

fn shows(
    rt: &impl Abort,
    alloc: Global,
    host: &MemHost,
    after: u64,
    numbers: &Numbers,
) -> Result<(), Fail> {
    for (choice, number) in EFFECTS.iter().zip(numbers) {
        assert_eq!(rt;
            number_left(rt, alloc, host, after, *choice)?,
            *number,
            "after {after}"
        );
    }
    Ok(())
}

/// Commits the worked blocks.
fn commit_worked(rt: &impl Abort, host: &mut MemHost, marks: &Marks) -> Result<(), Failed> {
    assert!(rt; marks.slot <= 1);
    assert!(rt; host.image().len() >= 352);
    commit(host, marks, &COLUMN, &DIRECTORY)
}

/// Commits over the worked file with this script, and looks at the images after each of the calls before the one with this number.
fn run(rt: &impl Abort, alloc: Global, script: &[Fault], calls: u64) -> Result<MemHost, Fail> {
    let mut host = host_over(alloc, &WORKED, script)?;
    let answer = commit_worked(rt, &mut host, &MARKS);
    assert_eq!(rt; answer.is_err(), !script.is_empty());
    for (after, numbers) in AFTER.iter().enumerate() {
        if (after as u64) < calls {
            shows(rt, alloc, &host, after as u64, numbers)?;
        }
    }
    Ok(host)
}

/// Commits with one call failing that leaves so much, and looks at the images after it.
fn fails_at(
    rt: &impl Abort,
    alloc: Global,
    call: u64,
    effect: Effect,
    numbers: &Numbers,
) -> Result<(), Fail> {
    let calls = call.saturating_add(1);
    let host = run(rt, alloc, &[Fault { call, effect }], calls)?;
    assert_eq!(rt; host.calls(), calls);
    shows(rt, alloc, &host, calls, numbers)
}

#[test]
fn leaves_one_of_two_commits(rt: HostRuntime) -> Result<(), Fail> {
    for (call, left) in FAILED.iter().enumerate() {
        for (effect, numbers) in EFFECTS.iter().zip(left) {
            fails_at(&rt, rt.alloc(), call as u64, *effect, numbers)?;
        }
    }
    Ok(())
}

/// The worked file after the commit.
fn committed(alloc: Global) -> Result<Vec<u8>, Fail> {
    let mut file = worked(alloc, 352, &CHANGES)?;
    file.extend_from_slice(&DIRECTORY)?;
    file.extend_from_slice(&[0; 10])?;
    Ok(file)
}

#[test]
fn writes_the_next_commit(rt: HostRuntime) -> Result<(), Fail> {
    let host = run(&rt, rt.alloc(), &[], 9)?;
    assert_eq!(rt; host.calls(), 8);
    assert_eq!(rt; host.image(), committed(rt.alloc())?.as_slice());
    Ok(())
}

/// The marks of the worked file where the other slot is closed.
const ALONE: Marks = Marks {
    other: None,
    ..MARKS
};

/// Commits over the worked file where the other slot is closed.
fn run_alone(rt: &impl Abort, alloc: Global) -> Result<MemHost, Fail> {
    let file = worked(alloc, 352, &[(64, 0)])?;
    let mut host = host_over(alloc, &file, &[])?;
    commit_worked(rt, &mut host, &ALONE)?;
    Ok(host)
}

/// The write and the sync that would close the other slot are left out.
#[test]
fn leaves_a_closed_gate(rt: HostRuntime) -> Result<(), Fail> {
    let host = run_alone(&rt, rt.alloc())?;
    assert_eq!(rt; host.calls(), 6);
    for (after, number) in [(4, 1), (6, 2)] {
        let left = number_left(&rt, rt.alloc(), &host, after, Effect::Ones)?;
        assert_eq!(rt; left, number);
    }
    Ok(())
}
