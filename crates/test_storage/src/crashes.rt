//! Commits of which each call fails, and what a crash leaves after each call. Ends, sums and numbers of calls were worked out by hand.
use crate::call::{CAP, Call, DONE, Turn, answer_all, same_number};
use crate::fixture::Fixture;
use host_io::{Effect, Fault};
use std::alloc::Global;
use std::test::Fail;
use storage::Mode;

/// A commit, and what comes before it.
struct Scenario {
    title: &'static str,
    /// What is done to a new store up to the commit before.
    before: &'static [Turn],
    edits: &'static [Turn],
    commit: &'static [Turn],
    /// What a file that stands for the commit before answers.
    old: &'static [Turn],
    /// What a file that stands for the new commit answers. The one before it can be brought back.
    new: &'static [Turn],
    /// The place of the gate that the commit opens.
    gate: usize,
    /// How many calls of the host the commit makes.
    calls: u64,
}

static SCENARIOS: [Scenario; 4] = [
    // The other slot was never open, so no gate is closed. Three blocks, the directory and the body of the mark are written and
    // synced, and then the gate.
    Scenario {
        title: "the first commit",
        before: &[],
        edits: &[
            (Call::Make("people[name:S,age:I]"), DONE),
            (Call::Insert("people", 0, r#"{("Ann",31)}"#, 1), DONE),
        ],
        commit: &[(Call::Commit(""), "Ok(1)")],
        old: &[(Call::Space, "0 208 16"), (Call::Views, "")],
        new: &[
            (Call::Space, "1 352 144"),
            (Call::Views, r#"people[name:S,age:I]{("Ann",31)}"#),
            (Call::Before, "Some(0)"),
            (Call::Revert, "Ok(0)"),
            (Call::Views, ""),
        ],
        gate: 128,
        calls: 8,
    },
    // The other gate is closed in two calls. The age goes to the place of the first directory, and the new one behind the old.
    Scenario {
        title: "one column",
        before: &[
            (Call::Make("people[name:S,age:I]"), DONE),
            (Call::Insert("people", 0, r#"{("Ann",31)}"#, 1), DONE),
            (Call::Commit(""), "Ok(1)"),
        ],
        edits: &[(Call::Set("people", 0, "age", "32"), DONE)],
        commit: &[(Call::Commit(""), "Ok(2)")],
        old: &[
            (Call::Space, "1 352 144"),
            (Call::Views, r#"people[name:S,age:I]{("Ann",31)}"#),
        ],
        new: &[
            (Call::Space, "2 448 144"),
            (Call::Views, r#"people[name:S,age:I]{("Ann",32)}"#),
            (Call::Before, "Some(1)"),
            (Call::Revert, "Ok(1)"),
            (Call::Views, r#"people[name:S,age:I]{("Ann",31)}"#),
        ],
        gate: 64,
        calls: 8,
    },
    // Written are: of `s` the sizes, the short text, and a memo of 4,097 letters in two pieces; in the first row the numbers of `w`,
    // and in the second `k`, and the numbers of the first `w`. The second `w` there has no rows, and the first `k` stays.
    Scenario {
        title: "memos, and views two deep",
        before: &[
            (Call::Make("t[s:S,v[k:I,w[i:I]]]"), DONE),
            (Call::Insert("t", 0, r#"{("a~",{(1,{(7)})})}"#, 1), DONE),
            (Call::Commit(""), "Ok(1)"),
        ],
        edits: &[
            (Call::Set("t", 0, "s", r#""a~~~~~~~~""#), DONE),
            (Call::Insert("t/0/v/0/w", 1, "{(300)}", 1), DONE),
            (
                Call::Insert("t", 1, r#"{("~",{(2,{(8),(9)}),(3,{})})}"#, 1),
                DONE,
            ),
        ],
        commit: &[(Call::Commit(""), "Ok(2)")],
        old: &[
            (Call::Space, "1 928 720"),
            (Call::Views, r#"t[s:S,v[k:I,w[i:I]]]{("a~",{(1,{(7)})})}"#),
        ],
        new: &[
            (Call::Space, "2 5808 4912"),
            (
                Call::Views,
                r#"t[s:S,v[k:I,w[i:I]]]{("a~~~~~~~~",{(1,{(7),(300)})}),("~",{(2,{(8),(9)}),(3,{})})}"#,
            ),
            (Call::Before, "Some(1)"),
            (Call::Revert, "Ok(1)"),
            (Call::Views, r#"t[s:S,v[k:I,w[i:I]]]{("a~",{(1,{(7)})})}"#),
        ],
        gate: 64,
        calls: 14,
    },
    // The commit before had a longer directory, of 163 bytes at 256. Behind its closed gate the short text goes there, then the age and
    // the new directory; the sizes go to the place of the first directory.
    Scenario {
        title: "over a longer directory",
        before: &[
            (Call::Make("people[name:S,age:I]"), DONE),
            (Call::Insert("people", 0, r#"{("Ann",31)}"#, 1), DONE),
            (Call::Make("other[a:I,b:I,c:I]"), DONE),
            (Call::Commit(""), "Ok(1)"),
            (Call::Space, "1 432 224"),
            (Call::Drop("other"), DONE),
            (Call::Commit("shorter"), "Ok(2)"),
        ],
        edits: &[
            (
                Call::Set("people", 0, "name", r#""Ann of the long name""#),
                DONE,
            ),
            (Call::Set("people", 0, "age", "32"), DONE),
        ],
        commit: &[(Call::Commit(""), "Ok(3)")],
        old: &[
            (Call::Space, "2 544 160"),
            (Call::Views, r#"people[name:S,age:I]{("Ann",31)}"#),
            (Call::Notes, "2 shorter;"),
        ],
        new: &[
            (Call::Space, "3 544 176"),
            (
                Call::Views,
                r#"people[name:S,age:I]{("Ann of the long name",32)}"#,
            ),
            (Call::Notes, "2 shorter;"),
            (Call::Before, "Some(2)"),
            (Call::Revert, "Ok(2)"),
            (Call::Views, r#"people[name:S,age:I]{("Ann",31)}"#),
        ],
        gate: 128,
        calls: 10,
    },
];

/// A commit that fails.
static FAILING: [Turn; 2] = [(Call::Commit(""), "Err(Failed)"), (Call::IsShut, "true")];

/// The commit that an image stands for.
#[derive(Clone, Copy)]
enum Left {
    Old,
    New,
}

/// The commits of the images of a crash that leaves the pending bytes as at the last sync, as they were written, and all `ff`.
type Images = [Left; 3];

const EFFECTS: [Effect; 3] = [Effect::Nothing, Effect::Whole, Effect::Ones];

const OLD: Images = [Left::Old, Left::Old, Left::Old];

/// The gate is pending: only as it was written is it open.
const OPENING: Images = [Left::Old, Left::New, Left::Old];

const NEW: Images = [Left::New, Left::New, Left::New];

/// What a crash leaves after so many calls of a commit of so many.
fn left_after(made: u64, calls: u64) -> Images {
    if made >= calls {
        return NEW;
    }
    if made + 1 == calls {
        return OPENING;
    }
    OLD
}

/// What a crash leaves once the call of this number failed, the first of which is 0.
fn left_by(call: u64, calls: u64, effect: Effect) -> Images {
    let left = calls.saturating_sub(call);
    if left == 1 || left == 2 && effect == Effect::Whole {
        return OPENING;
    }
    OLD
}

/// A file is open whose store answers as that of the commit that is left.
fn stands(
    alloc: Global,
    scenario: &Scenario,
    fixture: &mut Fixture,
    left: Left,
) -> Result<(), Fail> {
    let turns = match left {
        Left::Old => scenario.old,
        Left::New => scenario.new,
    };
    answer_all(alloc, fixture, scenario.title, turns)
}

/// The file opens to the commit that is left.
fn opens(alloc: Global, scenario: &Scenario, file: &[u8], left: Left) -> Result<(), Fail> {
    let mut fixture = Fixture::open(alloc, file, &[], Mode::Write, CAP)?;
    stands(alloc, scenario, &mut fixture, left)
}

/// Each image of a crash after so many calls opens to the commit that is left.
fn leaves(
    alloc: Global,
    scenario: &Scenario,
    fixture: &Fixture,
    after: u64,
    images: &Images,
) -> Result<(), Fail> {
    for (choice, left) in EFFECTS.iter().zip(images) {
        let image = fixture.crash(after, *choice)?;
        opens(alloc, scenario, image.as_slice(), *left)?;
    }
    Ok(())
}

/// The images of a crash after each call of the commit open so, the first of which was the one of this number.
fn leaves_two(
    alloc: Global,
    scenario: &Scenario,
    fixture: &Fixture,
    first: u64,
) -> Result<(), Fail> {
    for made in 0..=scenario.calls {
        let images = left_after(made, scenario.calls);
        leaves(
            alloc,
            scenario,
            fixture,
            first.saturating_add(made),
            &images,
        )?;
    }
    Ok(())
}

/// Once all but the gate was synced, an image with the gate open stands for the new commit.
fn waits_for_its_gate(
    alloc: Global,
    scenario: &Scenario,
    fixture: &Fixture,
    synced: u64,
) -> Result<(), Fail> {
    let image = fixture.crash(synced, Effect::Nothing)?;
    let mut file = Vec::from_slice(alloc, image.as_slice())?;
    if scenario.gate < file.len() {
        file[scenario.gate] = 0xa5;
    }
    opens(alloc, scenario, &file, Left::New)
}

/// Makes the commit, and gives the number of its first call.
fn makes(alloc: Global, scenario: &Scenario, fixture: &mut Fixture) -> Result<u64, Fail> {
    answer_all(alloc, fixture, scenario.title, scenario.edits)?;
    let first = fixture.calls();
    answer_all(alloc, fixture, scenario.title, scenario.commit)?;
    let end = first.saturating_add(scenario.calls);
    same_number(scenario.title, fixture.calls(), end)?;
    leaves_two(alloc, scenario, fixture, first)?;
    waits_for_its_gate(alloc, scenario, fixture, end.saturating_sub(2))?;
    stands(alloc, scenario, fixture, Left::New)?;
    Ok(first)
}

fn makes_over(alloc: Global, scenario: &Scenario, file: &[u8]) -> Result<u64, Fail> {
    let mut fixture = Fixture::open(alloc, file, &[], Mode::Write, CAP)?;
    makes(alloc, scenario, &mut fixture)
}

/// Fails to make the commit, looks at the images of a crash after that, and opens the file anew. It stands for what is read then, and no
/// crash changes that any more.
fn fails(
    alloc: Global,
    scenario: &Scenario,
    fixture: &mut Fixture,
    images: &Images,
) -> Result<(), Fail> {
    answer_all(alloc, fixture, scenario.title, scenario.edits)?;
    answer_all(alloc, fixture, scenario.title, &FAILING)?;
    leaves(alloc, scenario, fixture, fixture.calls(), images)?;
    let _number = fixture.reopen(alloc)?;
    let [_, read, _] = *images;
    leaves(alloc, scenario, fixture, fixture.calls(), &[read; 3])?;
    stands(alloc, scenario, fixture, read)
}

fn fails_over(
    alloc: Global,
    scenario: &Scenario,
    file: &[u8],
    fault: Fault,
    images: &Images,
) -> Result<(), Fail> {
    let mut fixture = Fixture::open(alloc, file, &[fault], Mode::Write, CAP)?;
    fails(alloc, scenario, &mut fixture, images)
}

/// Fails each call of the commit with each effect.
fn fails_each(alloc: Global, scenario: &Scenario, file: &[u8], first: u64) -> Result<(), Fail> {
    for call in 0..scenario.calls {
        for effect in EFFECTS {
            let fault = Fault {
                call: first.saturating_add(call),
                effect,
            };
            let images = left_by(call, scenario.calls, effect);
            fails_over(alloc, scenario, file, fault, &images)?;
        }
    }
    Ok(())
}

/// The file before the commit.
fn file_before(alloc: Global, scenario: &Scenario) -> Result<Vec<u8>, Fail> {
    let mut fixture = Fixture::create(alloc, &[], Mode::Write, CAP)?;
    file_after(alloc, &mut fixture, scenario.title, scenario.before)
}

fn file_after(
    alloc: Global,
    fixture: &mut Fixture,
    title: &str,
    turns: &[Turn],
) -> Result<Vec<u8>, Fail> {
    answer_all(alloc, fixture, title, turns)?;
    Ok(Vec::from_slice(alloc, fixture.file())?)
}

/// The commit stands or the one before it, wherever a call fails or a crash comes.
fn holds(alloc: Global, scenario: &Scenario) -> Result<(), Fail> {
    let file = file_before(alloc, scenario)?;
    let first = makes_over(alloc, scenario, &file)?;
    fails_each(alloc, scenario, &file, first)
}

fn hold(alloc: Global, scenarios: &[Scenario]) -> Result<(), Fail> {
    for scenario in scenarios {
        holds(alloc, scenario)?;
    }
    Ok(())
}

#[test]
fn a_commit_stands_or_the_one_before(rt: HostRuntime) -> Result<(), Fail> {
    hold(rt.alloc(), &SCENARIOS)
}
