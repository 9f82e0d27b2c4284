//! A list of watches: one found by its number, the least number that is free, and what is done to all.
ghost use Rattle.std.specs.Prelude.{◌≡◌, ◌+◌, ◌<◌, ◌≤◌, ◌++◌, ◌∷◌, ◌==◌, ◌↔◌, [], All, IsTrue, length, map, slice_index_or, ℕ, Some, OnOk, OnErr};
ghost use Rattle.std.specs.List.{position};
ghost use Rattle.std.specs.Option.{ForSome};
ghost use Rattle.live.specs.Chains.{AreInOrder, AreSame};
ghost use Rattle.live.specs.Numbers.{IsLeastFree, is_taken, over_of, place_of};
ghost use Rattle.live.specs.Putting.{closed_source};
ghost use Rattle.live.specs.States.{WatchState};
ghost use Rattle.live.specs.Telling.{told_by};

use crate::out::Out;
use crate::watch::Watch;
use mk_value::Memory;

/// The place of the watch of a number.
pub(crate) fn find(watches: &[Watch], number: u32) -> usize
    requires { place_of watches.now number < length watches.now }
    ensures { result ≡ place_of watches.now number }
{
    place_if_taken(watches, number).unwrap()
}

/// Whether a watch has the number.
pub(crate) fn is_there(watches: &[Watch], number: u32) -> bool
    ensures { IsTrue result ↔ (place_of watches.now number < length watches.now) }
{
    place_if_taken(watches, number).is_some()
}

/// The place of the watch of a number, if there is one.
fn place_if_taken(watches: &[Watch], number: u32) -> Option<usize>
    ensures { result ≡ position (λ w. w.number == number) watches.now }
{
    watches.iter().position(|watch| watch.number() == number)
}

/// The place of the source that a number names, or none for the root.
pub(crate) fn place(watches: &[Watch], source: Option<u32>) -> Option<usize>
    requires { ForSome source (λ n. place_of watches.now n < length watches.now) }
    ensures { result ≡ over_of watches.now source }
{
    match source {
        None => None,
        Some(number) => Some(find(watches, number)),
    }
}

/// Puts a watch behind the others.
pub(crate) fn push(watches: &mut Vec<Watch>, watch: Watch) -> Result<(), Memory>
    ensures ok { OnOk result (watches.new.items ≡ watches.old.items ++ watch ∷ []) }
    ensures err { OnErr result (watches.new.items ≡ watches.old.items) }
{
    watches.push(watch)?;
    Ok(())
}

/// Whether a watch has the number.
fn is_taken(watches: &[Watch], number: u32) -> bool
    ensures { result ≡ is_taken watches.now number }
{
    watches.iter().any(|watch| watch.number() == number)
}

/// The least number that no watch has.
pub(crate) fn free_number(watches: &[Watch]) -> u32
    requires { length watches.now < 64 }
    ensures { IsLeastFree watches.now result }
{
    let mut number = 0;
    while is_taken(watches, number) {
        number += 1;
    }
    number
}

/// Lays so many chunks of positions aside for each watch.
pub(crate) fn reserve_all(watches: &mut [Watch], more: usize) -> Result<(), Memory>
    ensures same { AreSame watches.old watches.new }
    ensures going { map (λ w. w.going) watches.new ≡ map (λ w. w.going) watches.old }
    ensures grown { (k : ℕ) (d : WatchState) → k < length watches.old → (slice_index_or watches.old k d).room ≤ (slice_index_or watches.new k d).room }
    ensures room { OnOk result (All (λ w. more ≤ w.room) watches.new) }
{
    for watch in watches.iter_mut() {
        watch.reserve(more)?;
    }
    Ok(())
}

/// The most rows that a watch shows which others stand over.
pub(crate) fn most_through(watches: &[Watch]) -> usize
    requires { AreInOrder watches.now }
    ensures { (k s : ℕ) (d e : WatchState) → k < length watches.now → (slice_index_or watches.now k d).source ≡ Some s → length (slice_index_or watches.now s e).kept ≤ result }
{
    let mut most = 0;
    for i in 0..watches.len() {
        if let Some(source) = watches[i].source() {
            most = most.max(watches[source].len());
        }
    }
    most
}

/// Moves down the places of sources behind the watch that was taken out.
pub(crate) fn close_sources(watches: &mut [Watch], taken: usize)
    ensures { watches.new ≡ map (closed_source taken) watches.old }
{
    for watch in watches.iter_mut() {
        watch.close_source(taken);
    }
}

/// Puts the own events of all watches into the list, which is emptied first.
pub(crate) fn tell_all(watches: &[Watch], out: &mut Out)
    requires { length watches.now ≤ out.old.spare }
    ensures told { out.new.told ≡ told_by watches.now }
    ensures spare { out.new.spare ≡ out.old.spare }
{
    out.clear();
    for watch in watches {
        out.tell(watch.number(), watch.turn());
    }
}
