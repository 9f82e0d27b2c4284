//! The lines that the program says by itself. Each fits the room of a reply.
ghost use Rattle.std.specs.Prelude.{◌≡◌, ◌≤◌, ◌+◌, ◌++◌, ◌∷◌, [], codes, decimal, length};
ghost use Rattle.lines.specs.Lines.{newline};
ghost use Rattle.shell.specs.Said.{check_line, fault_line, full_line, greeting_line, load_line, other_base_line, sample_line, spaced};

use crate::fault::FileFault;
use aside_disk::BaseRecord;
use mk_value::Text;
use storage::Report;

/// More than the most bytes of a line that the program says by itself: its words, and five numbers.
pub(crate) const MAX_OWN_LINE: usize = 160;

/// Appends the greeting, which names the number of a commit.
pub(crate) fn write_greeting(number: u64, out: &mut Text)
    requires { MAX_OWN_LINE ≤ out.old.spare }
    ensures bytes { out.new.bytes ≡ out.old.bytes ++ greeting_line number }
    ensures room { out.old.spare + length out.old.bytes ≤ out.new.spare + length out.new.bytes }
{
    append("ok mkshell ", out);
    append_number(number, out);
    append("\n", out);
}

/// Appends why a file is refused.
pub(crate) fn write_fault(fault: FileFault, out: &mut Text)
    requires { MAX_OWN_LINE ≤ out.old.spare }
    ensures bytes { out.new.bytes ≡ out.old.bytes ++ fault_line fault }
{
    match fault {
        FileFault::Empty => append("refused empty\n", out),
        FileFault::NotEmpty => append("refused notempty\n", out),
        FileFault::NotAStore => append("refused notastore\n", out),
        FileFault::Damaged(place) => write_damage(place, out),
        FileFault::BadStream(place) => write_bad_stream(place, out),
        FileFault::Full(end, cap) => write_full(end, cap, out),
        FileFault::BadBase => append("refused badbase\n", out),
        FileFault::NoAside(place) => write_no_aside(place, out),
        FileFault::OtherBase(kept, given) => write_other_base(kept, given, out),
    }
}

fn write_damage(place: u64, out: &mut Text)
    requires { MAX_OWN_LINE ≤ out.old.spare }
    ensures bytes { out.new.bytes ≡ out.old.bytes ++ fault_line (FileFault.Damaged place) }
{
    append("refused damaged ", out);
    append_number(place, out);
    append("\n", out);
}

fn write_bad_stream(place: u64, out: &mut Text)
    requires { MAX_OWN_LINE ≤ out.old.spare }
    ensures bytes { out.new.bytes ≡ out.old.bytes ++ fault_line (FileFault.BadStream place) }
{
    append("refused badstream ", out);
    append_number(place, out);
    append("\n", out);
}

fn write_full(end: u64, cap: u64, out: &mut Text)
    requires { MAX_OWN_LINE ≤ out.old.spare }
    ensures bytes { out.new.bytes ≡ out.old.bytes ++ full_line end cap }
{
    append("refused full", out);
    append_spaced(end, out);
    append_spaced(cap, out);
    append("\n", out);
}

fn write_no_aside(place: u64, out: &mut Text)
    requires { MAX_OWN_LINE ≤ out.old.spare }
    ensures bytes { out.new.bytes ≡ out.old.bytes ++ fault_line (FileFault.NoAside place) }
{
    append("refused aside ", out);
    append_number(place, out);
    append("\n", out);
}

fn write_other_base(kept: BaseRecord, given: BaseRecord, out: &mut Text)
    requires { MAX_OWN_LINE ≤ out.old.spare }
    ensures bytes { out.new.bytes ≡ out.old.bytes ++ other_base_line kept given }
{
    append("refused otherbase", out);
    append_spaced(kept.length, out);
    append_spaced(kept.number, out);
    append_spaced(given.length, out);
    append_spaced(given.number, out);
    append("\n", out);
}

/// Appends what a file was found to have.
pub(crate) fn write_report(report: &Report, out: &mut Text)
    requires { MAX_OWN_LINE ≤ out.old.spare }
    ensures bytes { out.new.bytes ≡ out.old.bytes ++ check_line report.now }
{
    let space = report.space;
    append("ok check", out);
    append_spaced(space.number, out);
    append_spaced(space.end, out);
    append_spaced(space.used, out);
    append_spaced(report.views as u64, out);
    append_spaced(report.blocks, out);
    append("\n", out);
}

/// Appends that all lines of a sample were answered.
pub(crate) fn write_sample(edits: u32, size: u64, number: u64, out: &mut Text)
    requires { MAX_OWN_LINE ≤ out.old.spare }
    ensures bytes { out.new.bytes ≡ out.old.bytes ++ sample_line edits size number }
{
    append("ok sample", out);
    append_spaced(u64::from(edits), out);
    append_spaced(size, out);
    append_spaced(number, out);
    append("\n", out);
}

/// Appends that a store was made of a stream.
pub(crate) fn write_loaded(views: usize, number: u64, out: &mut Text)
    requires { MAX_OWN_LINE ≤ out.old.spare }
    ensures bytes { out.new.bytes ≡ out.old.bytes ++ load_line views number }
{
    append("ok load", out);
    append_spaced(views as u64, out);
    append_spaced(number, out);
    append("\n", out);
}

/// Appends a number behind a space.
fn append_spaced(number: u64, out: &mut Text)
    requires { 21 ≤ out.old.spare }
    ensures bytes { out.new.bytes ≡ out.old.bytes ++ spaced (number ∷ []) }
    ensures spare { out.old.spare ≤ out.new.spare + 21 }
    ensures room { out.old.spare + length out.old.bytes ≤ out.new.spare + length out.new.bytes }
{
    append(" ", out);
    append_number(number, out);
}

/// Appends a number of at most 20 digits.
fn append_number(number: u64, out: &mut Text)
    requires { 20 ≤ out.old.spare }
    ensures bytes { out.new.bytes ≡ out.old.bytes ++ decimal number }
    ensures spare { out.old.spare ≤ out.new.spare + 20 }
    ensures room { out.old.spare + length out.old.bytes ≤ out.new.spare + length out.new.bytes }
{
    has_20_digits(number);
    let _ = out.push_integer(number);
}

/// Appends a text that fits.
fn append(text: &str, out: &mut Text)
    requires { length text.now ≤ out.old.spare }
    ensures bytes { out.new.bytes ≡ out.old.bytes ++ text.now }
    ensures spare { out.old.spare ≤ out.new.spare + length text.now }
    ensures room { out.old.spare + length out.old.bytes ≤ out.new.spare + length out.new.bytes }
{
    let _ = out.push_str(text);
}

/// A number of 64 bits has at most 20 digits.
fn has_20_digits(number: u64)
    ensures { length (decimal number) ≤ 20 }
{}
