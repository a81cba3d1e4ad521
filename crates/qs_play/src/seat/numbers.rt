//! Steps on lists of numbers.
ghost use Rattle.std.specs.Prelude.{◌≡◌, slice_index};
ghost use Rattle.qs_core.specs.Steps.{rest, without};

/// The first of a list: 0 where it is empty.
pub fn first_of(numbers: &[u32]) -> u32
    ensures { result ≡ slice_index numbers.now 0 }
{
    match numbers.first() {
        Some(first) => *first,
        None => 0,
    }
}

/// Takes a leaf out of a list.
pub fn remove_leaf(leaves: &mut Vec<u32>, leaf: u32)
    ensures { leaves.new.items ≡ without leaf leaves.old.items }
{
    leaves.retain(|other| *other != leaf);
}

/// Takes the first out of a list.
pub fn remove_first(numbers: &mut Vec<u32>)
    ensures { numbers.new.items ≡ rest numbers.old.items }
{
    if !numbers.is_empty() {
        numbers.remove(0);
    }
}
