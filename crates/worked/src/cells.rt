//! Cubes of the box, how near they come, and small octrees.
use cell_geom::{Cube, DEEPEST_LEVEL, child, contains, gap2, holds, octant};
use cell_tree::{Tree, due_counts, has_due};
use std::alloc::AllocError;

const BOX: Cube = Cube {
    level: 0,
    at: [0; 3],
};

const HALF: Cube = Cube {
    level: 1,
    at: [1, 0, 1],
};

const QUARTER: Cube = Cube {
    level: 2,
    at: [2, 1, 3],
};

#[test]
fn nests_octants(rt: HostRuntime) {
    let point = [524_288, 524_287, 1_048_575];
    assert!(rt; holds(BOX, point));
    assert!(rt; holds(HALF, point));
    assert!(rt; !holds(HALF, [524_287, 524_287, 1_048_575]));
    assert!(rt; !holds(HALF, [524_288, 524_288, 1_048_575]));
    assert!(rt; !holds(HALF, [524_288, 524_287, 524_287]));
    assert_eq!(rt; octant(BOX, point), 5);
    assert_eq!(rt; child(BOX, 5), HALF);
    assert_eq!(rt; child(HALF, 6), QUARTER);
    assert!(rt; contains(HALF, QUARTER));
    assert!(rt; !contains(QUARTER, HALF));
}

#[test]
fn takes_the_nearer_way_round(rt: HostRuntime) {
    let first = Cube {
        level: 10,
        at: [0; 3],
    };
    for (x, slack, want) in [
        (0, 0, 0),
        (1, 0, 1),
        (2, 0, 1_050_625),
        (2, 1, 1_046_529),
        (1023, 0, 1),
        (1022, 1, 1_046_529),
    ] {
        assert!(rt; x < 1024 && slack <= 1);
        let other = Cube {
            level: 10,
            at: [x, 0, 0],
        };
        assert_eq!(rt; gap2(first, other, slack), want, "at {x}, {slack}");
    }
}

fn deepest(tree: &Tree) -> u32 {
    let mut deepest = 0;
    for cell in 0..tree.cells() {
        deepest = tree.cube(cell).level.max(deepest);
    }
    deepest
}

#[test]
fn splits_points_of_one_place_to_the_last_level(rt: HostRuntime) -> Result<(), AllocError> {
    let tree = Tree::build(rt.alloc(), &[[0; 3]; 40], &[131072; 40], 16)?;
    assert_eq!(rt; tree.cells(), 11);
    assert_eq!(rt; tree.leaves(), 1);
    assert_eq!(rt; deepest(&tree), DEEPEST_LEVEL);
    assert_eq!(rt; tree.members(0).len(), 40);
    assert_eq!(rt; tree.count(0), 40);
    assert_eq!(rt; tree.reach(0), 131072);
    Ok(())
}

#[test]
fn parts_two_near_points(rt: HostRuntime) -> Result<(), AllocError> {
    let points = [[1000, 0, 0], [1512, 0, 0]];
    let tree = Tree::build(rt.alloc(), &points, &[1024; 2], 1)?;
    assert_eq!(rt; tree.cells(), 12);
    assert!(rt; tree.leaves() == 2);
    assert_eq!(rt; deepest(&tree), DEEPEST_LEVEL);
    assert!(rt; tree.points() == 2);
    assert_eq!(rt; tree.point(1), [1512, 0, 0]);
    assert_eq!(rt; tree.length(1), 1024);
    assert_eq!(rt; tree.cell_of(1), 11);
    assert_eq!(rt; tree.parent(11), Some(9));
    assert_eq!(rt; tree.leaf_of(9), None);
    assert_eq!(rt; tree.members(0), [0].as_slice());
    assert_eq!(rt; tree.members(1), [1].as_slice());
    let before = due_counts(rt.alloc(), &tree, &[false, true])?;
    assert_eq!(rt; before.as_slice(), [0, 0, 1].as_slice());
    for cell in 0..tree.cells() {
        assert_eq!(rt; has_due(&tree, &before, cell), cell != 10);
    }
    Ok(())
}
