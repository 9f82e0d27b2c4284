//! The input of a host is taken as a stream.
ghost use Rattle.std.specs.Prelude.{◌≡◌, ◌≢◌, All, ◌<◌, ◌≤◌, ◌^◌, ◌+◌, ℕ, length, Err, IfOk};
ghost use Rattle.host_io.specs.Calls.{CountsTake, Rose};
ghost use Rattle.host_io.specs.Outside.{Outside};
ghost use Rattle.streaming.specs.Taking.{ComesOfEnd, ComesOfInput, ComesOfPiece, HasTaken, IsHomeless, IsProgress, max_piece};
ghost use Rattle.tables.specs.Tables.{HasNoHomes};
ghost use Rattle.streaming.specs.declared.error.LoadFault.TheVariants as load_fault;

use crate::error::LoadFault;
use host_io::{Failed, Host};
use std::alloc::Global;
use stream_codec::Loader;
use view_store::Root;

/// The most bytes of one take.
const PIECE: usize = 65_536;

/// Takes the input to its end, at most so many bytes of it, and gives the root whose stream it is. It is read no further than where it is
/// wrong.
///
/// # Errors
///
/// `BadStream` exactly where the input is no stream, with the place of the first wrong field or of the one that it ends within. `TooMuch`
/// where all of that may still be right, and one byte more came. `TakeFailed`, which comes only where the input failed. `Memory`.
pub(crate) fn take_stream<H: Host>(
    alloc: Global,
    host: &mut H,
    budget: u64,
) -> Result<Root, LoadFault>
    requires budget { budget < 2 ^ 63 }
    ensures comes { H.tells → ComesOfInput budget (H.outside host.old) (H.outside host.new) result }
    ensures homeless { IfOk result (λ root. All (λ v. HasNoHomes v.table) root) }
    ensures take_fault { result ≡ Err load_fault.TakeFailed → Rose (H.outside host.old).take_faults (H.outside host.new).take_faults }
    ensures no_disk_fault { result ≢ Err load_fault.DiskFailed }
    ensures take_faults { (H.outside host.old).take_faults ≤ (H.outside host.new).take_faults }
    ensures say_faults { (H.outside host.new).say_faults ≡ (H.outside host.old).say_faults }
    ensures disk_faults { (H.outside host.new).disk_faults ≡ (H.outside host.old).disk_faults }
    ensures source { (H.outside host.new).source ≡ (H.outside host.old).source }
{
    stream_codec::one_place();
    let mut loader = Loader::new(alloc);
    let mut piece = [0; PIECE];
    let mut left = budget;
    'taking: while left > 0 {
        let most = left.min(PIECE as u64) as usize;
        match take_piece(loader, host, &mut piece[..most])? {
            Taken::More(fed, count) => {
                loader = fed;
                left -= count as u64;
            }
            Taken::All(root) => return Ok(root),
        }
    }
    end_budget(loader, host)
}

/// What came of a piece of the input.
#[derive(Drop)]
enum Taken {
    /// So many bytes, and more may come.
    More(Loader, usize),
    /// The end: it was the stream of this root.
    All(Root),
}

/// Takes bytes into a piece that has room, and reads them.
fn take_piece<H: Host>(loader: Loader, host: &mut H, piece: &mut [u8]) -> Result<Taken, LoadFault>
    requires some { 0 < length piece.old }
    requires few { length piece.old ≤ max_piece }
    requires short { length loader + length piece.old < 2 ^ 63 }
    ensures comes { H.tells → (budget left : ℕ) (begin : Outside) → length piece.old ≤ left → HasTaken budget left loader begin (H.outside host.old)
        → ComesOfPiece budget left begin (H.outside host.new) result }
    ensures progress { IfOk result (IsProgress (length loader) (length piece.old)) }
    ensures homeless { IfOk result IsHomeless }
    ensures take_fault { result ≡ Err load_fault.TakeFailed → Rose (H.outside host.old).take_faults (H.outside host.new).take_faults }
    ensures no_disk_fault { result ≢ Err load_fault.DiskFailed }
    ensures take_faults { (H.outside host.old).take_faults ≤ (H.outside host.new).take_faults }
    ensures say_faults { (H.outside host.new).say_faults ≡ (H.outside host.old).say_faults }
    ensures disk_faults { (H.outside host.new).disk_faults ≡ (H.outside host.old).disk_faults }
    ensures source { (H.outside host.new).source ≡ (H.outside host.old).source }
{
    let Ok(count) = host.take(piece) else {
        return Err(LoadFault::TakeFailed);
    };
    if count == 0 {
        return Ok(Taken::All(finish(loader)?));
    }
    Ok(Taken::More(loader.feed(&piece[..count])?, count))
}

/// Ends an input of which all bytes of the budget were taken: one more byte is asked for, and there is to be none.
fn end_budget<H: Host>(loader: Loader, host: &mut H) -> Result<Root, LoadFault>
    ensures comes { H.tells → (budget : ℕ) (begin : Outside) → HasTaken budget 0 loader begin (H.outside host.old)
        → ComesOfInput budget begin (H.outside host.new) result }
    ensures homeless { IfOk result (λ root. All (λ v. HasNoHomes v.table) root) }
    ensures take_fault { result ≡ Err load_fault.TakeFailed → Rose (H.outside host.old).take_faults (H.outside host.new).take_faults }
    ensures no_disk_fault { result ≢ Err load_fault.DiskFailed }
    ensures take_faults { (H.outside host.old).take_faults ≤ (H.outside host.new).take_faults }
    ensures say_faults { (H.outside host.new).say_faults ≡ (H.outside host.old).say_faults }
    ensures disk_faults { (H.outside host.new).disk_faults ≡ (H.outside host.old).disk_faults }
    ensures source { (H.outside host.new).source ≡ (H.outside host.old).source }
{
    let mut byte = [0];
    match host.take(&mut byte) {
        Ok(0) => finish(loader),
        Ok(_) => Err(LoadFault::TooMuch),
        Err(Failed) => Err(LoadFault::TakeFailed),
    }
}

/// Ends an input that was taken whole.
fn finish(loader: Loader) -> Result<Root, LoadFault>
    ensures { ComesOfEnd loader result }
{
    Ok(loader.finish()?)
}
