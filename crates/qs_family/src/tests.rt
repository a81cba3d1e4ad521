//! The family's third task.
use crate::{Marks, THREE};
use qs_core::{Work, ranges_of};

#[test]
fn a_task_on_two_cells_marks_both(rt: HostRuntime) {
    let mut first = [Marks::of(true, true, false)];
    let mut second = [Marks::of(false, false, false)];
    THREE.apply(2, &mut first, &mut second);
    let [left] = first;
    let [right] = second;
    assert_eq!(rt; left, Marks::of(true, true, true));
    assert_eq!(rt; right, Marks::of(false, false, true));
}

#[test]
fn the_leaves_of_two_cells_are_two_ranges(rt: HostRuntime) {
    let (first, second) = ranges_of(&THREE, 2);
    assert_eq!(rt; (first.from, first.to), (0, 1));
    assert_eq!(rt; (second.from, second.to), (1, 2));
}
