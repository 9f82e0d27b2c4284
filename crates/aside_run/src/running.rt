ghost use Rattle.std.specs.Prelude.{◌≡◌, ◌≢◌, ◌⊎◌, ◌<◌, ◌≤◌, ◌^◌, ℕ, List, map};
ghost use Rattle.command_line.specs.Words.{AsksForAside, AsksForSome, texts_of};
ghost use Rattle.host_io.specs.Calls.{CountsFaults, Looks, Rose};
ghost use Rattle.host_io.specs.Disk.{IsSettled};
ghost use Rattle.lines.specs.Rooms.{IsClear};
ghost use Rattle.shell.specs.Ran.{GoesWell, Ran};
ghost use Rattle.aside_run.specs.Complete.{GoesWellOver};
ghost use Rattle.aside_run.specs.RanOver.{RanOver, RanOverFor, ReadsNoBase};
ghost use Rattle.aside_run.specs.Steps.{IsBaseCause, WearsOut};

use crate::base::{BaseError, open_base};
use crate::serving::serve_over;
use command_line::{Job, WordsError, read_words};
use host_io::{Disk, Host};
use mk_value::Text;
use shell::{FileFault, Rooms, Status, refuse, run};
use std::alloc::Global;
use viewers::Viewer;

/// Runs the program, as `shell::run` does. Words with `--aside BASE` are read too: the base is attached for reading, checked and read; the file is opened as an
/// aside file of it, or made where it is empty; and lines are answered over the file for which the two stand. All that is committed goes to
/// the aside file. The base is never written, and with other words not called.
///
/// All memory that serving takes for itself, and that of the base, is taken before the aside file is attached.
pub fn run_over<H: Host, B: Disk, V: Viewer>(
    alloc: Global,
    words: &[&str],
    viewers: &[V],
    host: &mut H,
    base: &mut B,
) -> Status
    // Nothing waits for a sync when the program starts, nor in a base that is named.
    requires settled { H.tells → IsSettled (H.outside host.old).now.disk }
    requires settled_base { AsksForAside (texts_of words.now) → B.tells → IsSettled (B.outside base.old).now.disk }

    ensures plain { H.tells → (¬ AsksForAside (texts_of words.now)) → Ran (map V.meaning viewers.now) (texts_of words.now) result (H.outside host.old) (H.outside host.new) }
    ensures over { H.tells → B.tells → AsksForAside (texts_of words.now)
        → RanOverFor (map V.meaning viewers.now) (texts_of words.now) result (B.outside base.old).now.disk.seen (H.outside host.old) (H.outside host.new) }
    ensures usage { result ≡ Status.Usage → ¬ AsksForSome (texts_of words.now) }
    ensures asks_for_none { (¬ AsksForSome (texts_of words.now)) → (result ≡ Status.Usage) ⊎ (result ≡ Status.Memory) }

    // The base stays as it is, and so does all that a crash may leave of it. It is called only where words name it.
    ensures base { B.tells → Looks (B.outside base.old) (B.outside base.new) }
    ensures base_counts { CountsFaults ⊥ (B.outside base.old) (B.outside base.new) }
    ensures uncalled { (¬ AsksForAside (texts_of words.now)) → B.outside base.new ≡ B.outside base.old }

    // A fault is told only where one came. Over a base it may have come there, and the aside file may be worn out.
    ensures take_fault { result ≡ Status.TakeFault → Rose (H.outside host.old).take_faults (H.outside host.new).take_faults }
    ensures say_fault { result ≡ Status.SayFault → Rose (H.outside host.old).say_faults (H.outside host.new).say_faults }
    ensures disk_fault { result ≡ Status.DiskFault → Rose (H.outside host.old).disk_faults (H.outside host.new).disk_faults
        ⊎ (AsksForAside (texts_of words.now) × (Rose (B.outside base.old).disk_faults (B.outside base.new).disk_faults
        ⊎ (B.tells → WearsOut H.tells (H.outside host.old).disk_faults (B.outside base.old).now.disk.seen (H.outside host.new).now.disk.seen))) }

    // What the host stands over stays, where no base is named.
    ensures source { (¬ AsksForAside (texts_of words.now)) → (H.outside host.new).source ≡ (H.outside host.old).source }

    // Where nothing goes wrong, every line is answered.
    ensures complete { H.tells → GoesWell (texts_of words.now) (H.outside host.old) (H.outside host.new)
        → (result ≡ Status.Done) ⊎ (result ≡ Status.Memory) }
    ensures complete_over { H.tells → B.tells → GoesWellOver (texts_of words.now) (B.outside base.old).now.disk.seen (B.outside base.old).disk_faults (B.outside base.new).disk_faults (H.outside host.old) (H.outside host.new)
        → (result ≡ Status.Done) ⊎ (result ≡ Status.Memory) }
{
    command_line::words_ask_for_one_job();
    recovery::one_commit();
    match read_words(alloc, words) {
        Ok(job) => match &job.aside {
            Some(name) => run_aside(alloc, &job, name, viewers, host, base),
            None => run(alloc, words, viewers, host),
        },
        Err(WordsError::Usage) => run(alloc, words, viewers, host),
        Err(WordsError::Memory) => Status::Memory,
    }
}

/// Serves lines over a base of this name.
fn run_aside<H: Host, B: Disk, V: Viewer>(
    alloc: Global,
    job: &Job,
    name: &Text,
    viewers: &[V],
    host: &mut H,
    base: &mut B,
) -> Status
    requires settled { H.tells → IsSettled (H.outside host.old).now.disk }
    requires settled_base { B.tells → IsSettled (B.outside base.old).now.disk }
    requires room { 208 ≤ job.now.cap }
    requires capped { job.now.cap < 2 ^ 63 }
    ensures ran { H.tells → B.tells → RanOver (map V.meaning viewers.now) job.now.mode job.now.cap result (B.outside base.old).now.disk.seen (H.outside host.old) (H.outside host.new) }
    ensures right { result ≢ Status.Usage }
    ensures base { B.tells → Looks (B.outside base.old) (B.outside base.new) }
    ensures base_counts { CountsFaults ⊥ (B.outside base.old) (B.outside base.new) }
    ensures take_fault { result ≡ Status.TakeFault → Rose (H.outside host.old).take_faults (H.outside host.new).take_faults }
    ensures say_fault { result ≡ Status.SayFault → Rose (H.outside host.old).say_faults (H.outside host.new).say_faults }
    ensures disk_fault { result ≡ Status.DiskFault → Rose (H.outside host.old).disk_faults (H.outside host.new).disk_faults
        ⊎ (Rose (B.outside base.old).disk_faults (B.outside base.new).disk_faults
        ⊎ (B.tells → WearsOut H.tells (H.outside host.old).disk_faults (B.outside base.old).now.disk.seen (H.outside host.new).now.disk.seen)) }
{
    let Ok(mut rooms) = Rooms::new(alloc) else {
        return Status::Memory;
    };
    match open_base(alloc, name.as_str(), base) {
        Ok(read) => serve_over(alloc, job, read, viewers, &mut rooms, host),
        Err(error) => refuse_base(error, &mut rooms.reply, host),
    }
}

/// Says that a base is none, where that is why it was not read.
fn refuse_base<H: Host>(error: BaseError, out: &mut Text, host: &mut H) -> Status
    requires { IsClear out.old }
    ensures ends { H.tells → (bytes : List ℕ) → IsBaseCause bytes error → ReadsNoBase result bytes (H.outside host.old) (H.outside host.new) }
    ensures failed { result ≡ Status.DiskFault → error ≡ BaseError.Failed }
    ensures status { (result ≡ Status.Refused) ⊎ ((result ≡ Status.DiskFault) ⊎ (result ≡ Status.Memory)) }
{
    match error {
        BaseError::Bad => refuse(FileFault::BadBase, out, host),
        BaseError::Failed => Status::DiskFault,
        BaseError::Memory => Status::Memory,
    }
}
