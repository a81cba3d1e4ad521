//! Moves an entry to where the heap's order wants it.
ghost use Rattle.std.specs.Prelude.{◌≤◌, ◌<◌, ◌+◌, ◌*◌, length, IsPermutation, MatchBool, MatchOption};
ghost use Rattle.qs_heap.specs.Heap.{IsHeap};
ghost use Rattle.qs_heap.specs.Moves.{MovesInLine};
ghost use Rattle.qs_heap.specs.inner.Sift.{IsHeapBesides, IsBeforeThoseBelow, GoesBeforeThatAbove, IsBehindThatAbove, IsFirstBelow};

use crate::entry::Entry;

/// Mends the heap's order where only the entry at one place may be out of it.
pub(crate) fn settle(entries: &mut [Entry], place: usize)
    requires inside { place < length entries.old }
    requires others { IsHeapBesides entries.old place }
    ensures heap { IsHeap entries.new }
    ensures same { IsPermutation entries.old entries.new }
    ensures moved { MovesInLine entries.old entries.new place }
{
    if goes_up(entries, place) {
        move_up(entries, place);
    } else {
        move_down(entries, place);
    }
}

/// Moves an entry up while it goes before the one above it.
pub(crate) fn move_up(entries: &mut [Entry], place: usize)
    requires inside { place < length entries.old }
    requires others { IsHeapBesides entries.old place }
    requires before { IsBeforeThoseBelow entries.old place }
    ensures heap { IsHeap entries.new }
    ensures same { IsPermutation entries.old entries.new }
    ensures moved { MovesInLine entries.old entries.new place }
{
    let mut at = place;
    while goes_up(entries, at) {
        let above = (at - 1) / 2;
        entries.swap(at, above);
        at = above;
    }
}

/// Moves an entry down while one below goes before it, each time to the place of the first of these.
fn move_down(entries: &mut [Entry], place: usize)
    requires inside { place < length entries.old }
    requires others { IsHeapBesides entries.old place }
    requires behind { IsBehindThatAbove entries.old place }
    ensures heap { IsHeap entries.new }
    ensures same { IsPermutation entries.old entries.new }
    ensures moved { MovesInLine entries.old entries.new place }
{
    let mut at = place;
    while let Some(below) = first_below(entries, at) {
        if !entries[below].goes_before(entries[at]) {
            return;
        }
        entries.swap(at, below);
        at = below;
    }
}

/// Whether the entry at a place goes before the one above it.
fn goes_up(entries: &[Entry], place: usize) -> bool
    requires { place < length entries.now }
    ensures { MatchBool result (GoesBeforeThatAbove entries.now place) (IsBehindThatAbove entries.now place) }
{
    place > 0 && entries[place].goes_before(entries[(place - 1) / 2])
}

/// The first of the entries right below a place, if there are any.
fn first_below(entries: &[Entry], place: usize) -> Option<usize>
    requires { place < length entries.now }
    ensures { MatchOption result
        (length entries.now ≤ 2 * place + 1) (λ below. IsFirstBelow entries.now place below) }
{
    if place >= entries.len() / 2 {
        return None;
    }
    let left = 2 * place + 1;
    let right = left + 1;
    if right < entries.len() && entries[right].goes_before(entries[left]) {
        Some(right)
    } else {
        Some(left)
    }
}
