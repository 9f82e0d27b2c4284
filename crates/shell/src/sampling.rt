//! The lines of a sample are answered in place of the input's.
ghost use Rattle.std.specs.Prelude.{◌≡◌, ◌≢◌, ◌⊎◌, ◌<◌, ◌≤◌, ◌^◌, [], map};
ghost use Rattle.host_io.specs.Calls.{Rose};
ghost use Rattle.host_io.specs.Disk.{IsSettled};
ghost use Rattle.host_io.specs.Outside.{Outside};
ghost use Rattle.lines.specs.Rooms.{IsClear};
ghost use Rattle.lines.specs.Served.{state_of};
ghost use Rattle.session.specs.Disk.{IsSteady};
ghost use Rattle.session.specs.World.{view_size};
ghost use Rattle.shell.specs.Ran.{IsSampleLine, RanSampling, SamplesFrom, sample_view};
ghost use Rattle.streaming.specs.Silence.{GoesInSilence};
ghost use Rattle.shell.specs.Sampled.{IsLineRoom};
ghost use Rattle.storage.specs.declared.mode.Mode.TheVariants as modes;

use crate::answering::answer_all;
use crate::ending::say_line;
use crate::fault::{FileFault, fault_of};
use crate::own_lines::write_sample;
use crate::refusing::refuse;
use crate::status::Status;
use host_io::Host;
use mk_value::{Name, Text};
use sample::{MAX_SAMPLE_LINE, Sample};
use session::{Session, Viewers, start};
use std::alloc::Global;
use storage::Mode;
use viewers::Viewer;

/// The sample that is asked for, and how its store is made.
#[derive(Clone, Copy)]
pub(crate) struct Asked {
    /// The number that makes the sample.
    pub number: u64,
    /// How many edits it has.
    pub edits: u32,
    /// How the store is used, which is not only read.
    pub mode: Mode,
    /// Where a commit may end at most.
    pub cap: u64,
}

/// Makes a store in the file, which is to be empty, answers the lines of a sample over it, and says what came of them.
pub(crate) fn sample_file<H: Host, V: Viewer>(
    alloc: Global,
    asked: Asked,
    viewers: &[V],
    out: &mut Text,
    host: &mut H,
) -> Status
    requires out { IsClear out.old }
    requires settled { H.tells → IsSettled (H.outside host.old).now.disk }
    requires room { 208 ≤ asked.cap }
    requires capped { asked.cap < 2 ^ 63 }
    requires writes { asked.mode ≢ modes.Read }
    ensures ran { H.tells → RanSampling (map V.meaning viewers.now) asked.number asked.edits asked.mode asked.cap result (H.outside host.old) (H.outside host.new) }
    ensures right { result ≢ Status.Usage }
    ensures take_fault { result ≢ Status.TakeFault }
    ensures say_fault { result ≡ Status.SayFault → Rose (H.outside host.old).say_faults (H.outside host.new).say_faults }
    ensures disk_fault { result ≡ Status.DiskFault → Rose (H.outside host.old).disk_faults (H.outside host.new).disk_faults }
    ensures source { (H.outside host.new).source ≡ (H.outside host.old).source }
{
    let Ok(mut line) = Text::with_room(alloc, MAX_SAMPLE_LINE) else {
        return Status::Memory;
    };
    let Ok(length) = host.len() else {
        return Status::DiskFault;
    };
    if length > 0 {
        return refuse(FileFault::NotEmpty, out, host);
    }
    sample_empty(alloc, asked, viewers, &mut line, out, host)
}

/// Makes a store in an empty file, answers the lines of a sample over it, and says what came of them.
fn sample_empty<H: Host, V: Viewer>(
    alloc: Global,
    asked: Asked,
    viewers: &[V],
    line: &mut Text,
    out: &mut Text,
    host: &mut H,
) -> Status
    requires line { IsLineRoom line.old }
    requires out { IsClear out.old }
    requires settled { H.tells → IsSettled (H.outside host.old).now.disk }
    requires room { 208 ≤ asked.cap }
    requires capped { asked.cap < 2 ^ 63 }
    requires writes { asked.mode ≢ modes.Read }
    requires empty { H.tells → (H.outside host.old).now.disk.seen ≡ [] }
    ensures ran { H.tells → RanSampling (map V.meaning viewers.now) asked.number asked.edits asked.mode asked.cap result (H.outside host.old) (H.outside host.new) }
    ensures right { result ≢ Status.Usage }
    ensures take_fault { result ≢ Status.TakeFault }
    ensures say_fault { result ≡ Status.SayFault → Rose (H.outside host.old).say_faults (H.outside host.new).say_faults }
    ensures disk_fault { result ≡ Status.DiskFault → Rose (H.outside host.old).disk_faults (H.outside host.new).disk_faults }
    ensures source { (H.outside host.new).source ≡ (H.outside host.old).source }
{
    match start(alloc, host, asked.mode, asked.cap) {
        Ok(mut session) => sample_with(&mut session, asked, viewers, line, out, host),
        Err(error) => match fault_of(error) {
            Ok(fault) => refuse(fault, out, host),
            Err(status) => status,
        },
    }
}

/// Answers the lines of a sample, and says what came of them.
fn sample_with<H: Host, V: Viewer>(
    session: &mut Session,
    asked: Asked,
    viewers: &[V],
    line: &mut Text,
    out: &mut Text,
    host: &mut H,
) -> Status
    requires line { IsLineRoom line.old }
    requires out { IsClear out.old }
    requires ready { H.tells → IsSteady (state_of session.old (H.outside host.old)) }
    ensures sampled { H.tells → SamplesFrom (map V.meaning viewers.now) asked.number asked.edits session.old result (H.outside host.old) (H.outside host.old) (H.outside host.new) }
    ensures say_fault { result ≡ Status.SayFault → Rose (H.outside host.old).say_faults (H.outside host.new).say_faults }
    ensures status { (result ≡ Status.Done) ⊎ (result ≡ Status.SayFault) }
    ensures source { (H.outside host.new).source ≡ (H.outside host.old).source }
{
    answer_sample(session, asked, viewers, line, out, host);
    say_line(out, host)
}

/// Answers the lines of a sample, and writes what is said of them.
fn answer_sample<H: Host, V: Viewer>(
    session: &mut Session,
    asked: Asked,
    viewers: &[V],
    line: &mut Text,
    out: &mut Text,
    host: &mut H,
)
    requires line { IsLineRoom line.old }
    requires out { IsClear out.old }
    requires ready { H.tells → IsSteady (state_of session.old (H.outside host.old)) }
    ensures outcome { H.tells → IsSampleLine (map V.meaning viewers.now) asked.number asked.edits (state_of session.old (H.outside host.old)) (state_of session.new (H.outside host.new)) out.new.bytes }
    ensures silence { H.tells → GoesInSilence (H.outside host.old) (H.outside host.new) }
    ensures ready { H.tells → IsSteady (state_of session.new (H.outside host.new)) }
    ensures say_faults { (H.outside host.new).say_faults ≡ (H.outside host.old).say_faults }
    ensures source { (H.outside host.new).source ≡ (H.outside host.old).source }
{
    let mut lines = Sample::new(asked.number, asked.edits);
    let context = Viewers { list: viewers };
    if answer_all(session, host, &context, &mut lines, line, out).is_err() {
        return;
    }
    write_sample(asked.edits, rows_of_sample(session), session.number(), out);
}

/// How many rows the view of a sample has.
fn rows_of_sample(session: &Session) -> u64
    ensures { result ≡ view_size session.now sample_view }
{
    match Name::of("item") {
        Ok(view) => session.view_size(&view),
        Err(_) => 0,
    }
}
