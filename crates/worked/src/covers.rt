//! The spans of small trees.
use cell_tree::{Span, Tree};
use pair_cover::{Limits, cover};
use std::alloc::AllocError;

const NEAR: Limits = Limits { pairs: 1, slack: 0 };

fn single(first: u32) -> Span {
    Span {
        first,
        second: None,
    }
}

fn pair(first: u32, second: u32) -> Span {
    Span {
        first,
        second: Some(second),
    }
}

#[test]
fn needs_a_due_point(rt: HostRuntime) -> Result<(), AllocError> {
    let points = [[1000, 0, 0], [1512, 0, 0]];
    let tree = Tree::build(rt.alloc(), &points, &[1024; 2], 1)?;
    let all = cover(rt.alloc(), &tree, &[true; 2], NEAR)?;
    assert_eq!(rt;
        all.as_slice(),
        [single(10), single(11), pair(10, 11)].as_slice()
    );
    assert!(rt; cover(rt.alloc(), &tree, &[false; 2], NEAR)?.is_empty());
    let spans = cover(rt.alloc(), &tree, &[false, true], NEAR)?;
    assert_eq!(rt; spans.as_slice(), [single(11), pair(10, 11)].as_slice());
    Ok(())
}

#[test]
fn keeps_few_pairs_together(rt: HostRuntime) -> Result<(), AllocError> {
    let tree = Tree::build(rt.alloc(), &[[0; 3]; 40], &[131072; 40], 16)?;
    let limits = Limits {
        pairs: 4096,
        slack: 0,
    };
    let spans = cover(rt.alloc(), &tree, &[true; 40], limits)?;
    assert_eq!(rt; spans.as_slice(), [single(0)].as_slice());
    Ok(())
}

#[test]
fn pairs_over_the_periodic_face(rt: HostRuntime) -> Result<(), AllocError> {
    let points = [
        [1000, 1000, 1000],
        [1000, 3000, 1000],
        [1000, 1000, 3000],
        [1000, 3000, 3000],
        [1_047_576, 1000, 1000],
        [1_047_576, 3000, 1000],
        [1_047_576, 1000, 3000],
        [1_047_576, 3000, 3000],
    ];
    let tree = Tree::build(rt.alloc(), &points, &[4096; 8], 1)?;
    let spans = cover(rt.alloc(), &tree, &[true; 8], NEAR)?;
    assert_eq!(rt; tree.cells(), 25);
    assert_eq!(rt; spans.len(), 36);
    for (first, second) in [(9, 21), (10, 22), (11, 24), (12, 21)] {
        assert!(rt;
            spans.contains(&pair(first, second)),
            "{first} and {second}"
        );
    }
    Ok(())
}

#[test]
fn looks_further_by_the_slack(rt: HostRuntime) -> Result<(), AllocError> {
    let points = [[1000, 0, 0], [1512, 0, 0], [4000, 0, 0]];
    let tree = Tree::build(rt.alloc(), &points, &[1024; 3], 1)?;
    // The cells 10 and 12 are 1025 apart.
    let spans = cover(rt.alloc(), &tree, &[true; 3], NEAR)?;
    let want = [
        single(10),
        single(11),
        pair(10, 11),
        single(12),
        pair(11, 12),
    ];
    assert_eq!(rt; spans.as_slice(), want.as_slice());
    let limits = Limits { pairs: 1, slack: 1 };
    let spans = cover(rt.alloc(), &tree, &[true; 3], limits)?;
    let want = [
        single(10),
        single(11),
        pair(10, 11),
        single(12),
        pair(10, 12),
        pair(11, 12),
    ];
    assert_eq!(rt; spans.as_slice(), want.as_slice());
    Ok(())
}
