ghost use Rattle.std.specs.Prelude.{◌≡◌, ◌⊎◌, ◌≢◌, ◌<◌, ◌≤◌, ◌^◌, map, IfOk, OnOk};
ghost use Rattle.command_line.specs.Words.{AsksForPlain, texts_of};
ghost use Rattle.host_io.specs.Calls.{CountsDisk, CountsSay, Looks, Rose};
ghost use Rattle.host_io.specs.Disk.{IsSettled};
ghost use Rattle.host_io.specs.Outside.{Outside};
ghost use Rattle.lines.specs.Rooms.{IsClear};
ghost use Rattle.lines.specs.Served.{state_of};
ghost use Rattle.lines.specs.Spoken.{SaysAll};
ghost use Rattle.session.specs.Disk.{IsSteady};
ghost use Rattle.shell.specs.Ran.{GoesWell, IsServed, IsWritten, Ran, RanAs, RanFrom, RanServing};
ghost use Rattle.shell.specs.Said.{SaysOnly, greeting_line, usage_line};

use crate::checking::check_file;
use crate::fault::fault_of;
use crate::loading::load_file;
use crate::own_lines::write_greeting;
use crate::refusing::refuse;
use crate::rooms::Rooms;
use crate::sampling::{Asked, sample_file};
use crate::saving::save_file;
use crate::serving::serve;
use crate::status::Status;
use command_line::{Job, Task, WordsError, read_words};
use host_io::{Failed, Host};
use lines::{MAX_BUDGET, say_all};
use mk_value::Text;
use session::{Session, start};
use std::alloc::Global;
use storage::Mode;
use viewers::Viewer;

/// What is said where the words are no command line.
const USAGE: &str =
    "usage mkshell [--cap N] [--extend] [--read] [--check] [--sample X --count N] [--save] [--load] [--aside BASE] FILE\n";

/// Runs the program. `words` are its own name, options and the name of a file, which is made where it is absent and may be written. The
/// store of the file is opened, or made where the file is empty; its number is said, and the lines of the input are answered one by
/// one; their expressions may ask the viewers, of which the first of a name is asked. With `--check` the file is looked at as a whole, and a report is said. A file that is neither empty nor a store is refused, and
/// left as it is. With `--sample` a store is made in an empty file, the lines of a sample are answered in place of the input's, and one line is said of them; a file that is not empty is refused, and left as it is.
/// With `--save` the stream of the file's store is said, and nothing else. With `--load` the input is taken to its end as a stream, a store is made
/// of it in an empty file, and one line is said; a file that is not empty is refused, and left as it is. Words that name a base ask for nothing here.
///
/// All memory that serving takes for itself is taken before the file is attached.
pub fn run<H: Host, V: Viewer>(alloc: Global, words: &[&str], viewers: &[V], host: &mut H) -> Status
    // Nothing waits for a sync when the program starts.
    requires settled { H.tells → IsSettled (H.outside host.old).now.disk }

    ensures ran { H.tells → Ran (map V.meaning viewers.now) (texts_of words.now) result (H.outside host.old) (H.outside host.new) }
    ensures usage { result ≡ Status.Usage → ¬ AsksForPlain (texts_of words.now) }
    ensures asks_for_none { (¬ AsksForPlain (texts_of words.now)) → (result ≡ Status.Usage) ⊎ (result ≡ Status.Memory) }

    // A fault is told only where one came.
    ensures take_fault { result ≡ Status.TakeFault → Rose (H.outside host.old).take_faults (H.outside host.new).take_faults }
    ensures say_fault { result ≡ Status.SayFault → Rose (H.outside host.old).say_faults (H.outside host.new).say_faults }
    ensures disk_fault { result ≡ Status.DiskFault → Rose (H.outside host.old).disk_faults (H.outside host.new).disk_faults }

    // What the host stands over stays.
    ensures source { (H.outside host.new).source ≡ (H.outside host.old).source }

    // Where nothing goes wrong, every line is answered.
    ensures complete { H.tells → GoesWell (texts_of words.now) (H.outside host.old) (H.outside host.new)
        → (result ≡ Status.Done) ⊎ (result ≡ Status.Memory) }
{
    command_line::words_ask_for_one_job();
    stream_codec::one_stream();
    stream_codec::a_stream_is_whole();
    stream_codec::a_wrong_field_stays_wrong();
    match read_words(alloc, words) {
        Ok(job) => match job.aside {
            None => run_job(alloc, &job, viewers, host),
            Some(_) => say_usage(host),
        },
        Err(WordsError::Usage) => say_usage(host),
        Err(WordsError::Memory) => Status::Memory,
    }
}

/// Says what words are asked for.
fn say_usage<H: Host>(host: &mut H) -> Status
    ensures status { result ≡ Status.Usage }
    ensures says { H.tells → SaysOnly usage_line (H.outside host.old) (H.outside host.new) }
    ensures source { (H.outside host.new).source ≡ (H.outside host.old).source }
{
    let _ = say_all(host, USAGE.as_bytes());
    Status::Usage
}

/// Does what the words ask for.
fn run_job<H: Host, V: Viewer>(alloc: Global, job: &Job, viewers: &[V], host: &mut H) -> Status
    requires settled { H.tells → IsSettled (H.outside host.old).now.disk }
    requires room { 208 ≤ job.now.cap }
    requires capped { job.now.cap < 2 ^ 63 }
    requires written { IsWritten job.now.task job.now.mode }
    ensures ran { H.tells → RanAs (map V.meaning viewers.now) job.now.task job.now.mode job.now.cap result (H.outside host.old) (H.outside host.new) }
    ensures right { result ≢ Status.Usage }
    ensures take_fault { result ≡ Status.TakeFault → Rose (H.outside host.old).take_faults (H.outside host.new).take_faults }
    ensures say_fault { result ≡ Status.SayFault → Rose (H.outside host.old).say_faults (H.outside host.new).say_faults }
    ensures disk_fault { result ≡ Status.DiskFault → Rose (H.outside host.old).disk_faults (H.outside host.new).disk_faults }
    ensures source { (H.outside host.new).source ≡ (H.outside host.old).source }
{
    let Ok(mut rooms) = Rooms::new(alloc) else {
        return Status::Memory;
    };
    if attach(job, host).is_err() {
        return Status::DiskFault;
    }
    match job.task {
        Task::Serve => serve_file(alloc, job.mode, job.cap, viewers, &mut rooms, host),
        Task::Check => check_file(alloc, &mut rooms.reply, host),
        Task::Sample { number, count } => {
            let asked = Asked {
                number,
                edits: count,
                mode: job.mode,
                cap: job.cap,
            };
            sample_file(alloc, asked, viewers, &mut rooms.reply, host)
        }
        Task::Save => save_file(alloc, &mut rooms.reply, host),
        Task::Load => load_file(alloc, job.cap, &mut rooms.reply, host),
    }
}

/// Attaches the file of a job, which is made where it is absent and may be written.
fn attach<H: Host>(job: &Job, host: &mut H) -> Result<(), Failed>
    ensures counts { CountsDisk (H.outside host.old) (H.outside host.new) result }
    ensures same { H.tells → Looks (H.outside host.old) (H.outside host.new) }
{
    host.attach(job.file.as_str(), job.mode != Mode::Read)
}

/// Opens the store of an attached file or makes one, greets, and answers the lines of the input. Nothing waits for a sync when it begins.
pub fn serve_file<H: Host, V: Viewer>(
    alloc: Global,
    mode: Mode,
    cap: u64,
    viewers: &[V],
    rooms: &mut Rooms,
    host: &mut H,
) -> Status
    requires line { IsClear rooms.old.line }
    requires reply { IsClear rooms.old.reply }
    requires settled { H.tells → IsSettled (H.outside host.old).now.disk }
    requires room { 208 ≤ cap }
    requires capped { cap < 2 ^ 63 }
    ensures ran { H.tells → RanServing (map V.meaning viewers.now) mode cap result (H.outside host.old) (H.outside host.new) }
    ensures right { result ≢ Status.Usage }
    ensures take_fault { result ≡ Status.TakeFault → Rose (H.outside host.old).take_faults (H.outside host.new).take_faults }
    ensures say_fault { result ≡ Status.SayFault → Rose (H.outside host.old).say_faults (H.outside host.new).say_faults }
    ensures disk_fault { result ≡ Status.DiskFault → Rose (H.outside host.old).disk_faults (H.outside host.new).disk_faults }
    ensures source { (H.outside host.new).source ≡ (H.outside host.old).source }
{
    match start(alloc, host, mode, cap) {
        Ok(mut session) => greet_and_serve(&mut session, viewers, rooms, host),
        Err(error) => match fault_of(error) {
            Ok(fault) => refuse(fault, &mut rooms.reply, host),
            Err(status) => status,
        },
    }
}

/// Greets, and answers the lines of the input.
fn greet_and_serve<H: Host, V: Viewer>(
    session: &mut Session,
    viewers: &[V],
    rooms: &mut Rooms,
    host: &mut H,
) -> Status
    requires line { IsClear rooms.old.line }
    requires reply { IsClear rooms.old.reply }
    requires ready { H.tells → IsSteady (state_of session.old (H.outside host.old)) }
    ensures ran { H.tells → RanFrom (map V.meaning viewers.now) session.old result (H.outside host.old) (H.outside host.old) (H.outside host.new) }
    ensures source { (H.outside host.new).source ≡ (H.outside host.old).source }
    ensures status { IsServed result }
    ensures take_fault { result ≡ Status.TakeFault → Rose (H.outside host.old).take_faults (H.outside host.new).take_faults }
    ensures say_fault { result ≡ Status.SayFault → Rose (H.outside host.old).say_faults (H.outside host.new).say_faults }
{
    if greet(session.number(), &mut rooms.reply, host).is_err() {
        return Status::SayFault;
    }
    serve(
        session,
        host,
        viewers,
        &mut rooms.line,
        &mut rooms.reply,
        MAX_BUDGET,
    )
}

/// Says the greeting, which names the number of a commit.
fn greet<H: Host>(number: u64, out: &mut Text, host: &mut H) -> Result<(), Failed>
    requires { IsClear out.old }
    ensures clear { IsClear out.new }
    ensures counts { CountsSay (H.outside host.old) (H.outside host.new) result }
    ensures says { H.tells → SaysAll (greeting_line number) (H.outside host.old) (H.outside host.new) result }
{
    write_greeting(number, out);
    let said = say_all(host, out.as_str().as_bytes());
    out.clear();
    said
}
