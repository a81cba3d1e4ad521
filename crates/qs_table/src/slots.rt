//! Blocks into the slots of the shared words, and back.
ghost use Rattle.std.specs.Prelude.{◌≡◌, ◌≤◌, ◌<◌, ◌++◌, ℕ, false, [], map, length, slice_index_or, Some, vec_capacity};
ghost use Rattle.std.specs.Option.{option_to_list};
ghost use Rattle.std.specs.Mem.Slots.{slots_items, slots_filled, slots_len, IsFull};
ghost use Rattle.qs_table.specs.inner.Slots.{blocks_in};

use atomic_table::Closed;
use std::alloc::Global;

/// Moves all blocks into slots, in order: the list is empty then.
pub(crate) fn fill_slots<B>(blocks: &mut Vec<B>, slots: &mut Vec<Option<B>>)
    requires room { length blocks.old.items ≤ vec_capacity slots.old }
    requires empty { slots.old.items ≡ [] }
    ensures moved { slots.new.items ≡ map Some blocks.old.items }
    ensures emptied { blocks.new.items ≡ [] }
    ensures kept { vec_capacity blocks.new ≡ vec_capacity blocks.old }
{
    while let Some(block) = blocks.pop() {
        slots.push_reserved(Some(block));
    }
    slots.reverse();
}

/// Appends the block of a slot, if it has one.
fn push_block<B: Drop>(blocks: &mut Vec<B>, slot: Option<B>)
    requires room { length blocks.old.items < vec_capacity blocks.old }
    ensures pushed { blocks.new.items ≡ blocks.old.items ++ option_to_list slot }
    ensures kept { vec_capacity blocks.new ≡ vec_capacity blocks.old }
{
    if let Some(block) = slot {
        blocks.push_reserved(block);
    }
}

/// Moves the blocks of slots into an empty list that has room for them, in order.
pub(crate) fn drain_slots<B: Drop>(mut slots: Vec<Option<B>>, mut blocks: Vec<B>) -> Vec<B>
    requires room { length slots.items ≤ vec_capacity blocks }
    requires empty { blocks.items ≡ [] }
    ensures { result.items ≡ blocks_in slots.items }
{
    while let Some(slot) = slots.pop() {
        push_block(&mut blocks, slot);
    }
    blocks.reverse();
    blocks
}

/// Moves the blocks of shared words that are closed into an empty list that has room for them, in order.
pub(crate) fn take_blocks<B: Drop>(closed: &mut Closed<Option<B>, Global>, blocks: &mut Vec<B>)
    requires full { IsFull closed.old.slots }
    requires room { slots_len closed.old.slots ≤ vec_capacity blocks.old }
    requires empty { blocks.old.items ≡ [] }
    ensures blocks { blocks.new.items ≡ blocks_in (slots_items closed.old.slots) }
    ensures emptied { (k : ℕ) → k < slots_len closed.new.slots → slice_index_or (slots_filled closed.new.slots) k false ≡ false }
    ensures words { closed.new.words ≡ closed.old.words }
{
    for leaf in 0..closed.slot_count() {
        push_block(blocks, closed.take(leaf));
    }
}

/// Copies the words of shared words that are closed.
pub(crate) fn copy_words<S>(closed: &Closed<S, Global>, words: &mut Vec<u64>)
    requires full { IsFull closed.now.words }
    requires as_many { length words.old.items ≡ slots_len closed.now.words }
    ensures { words.new.items ≡ slots_items closed.now.words }
{
    for place in 0..words.len() {
        words[place] = closed.word(place);
    }
}
