//! Runs of two workers in two orders, worked out by hand.

use crate::spot::{Marks, Spot};
use crate::workers::{open, round};
use qe_board::{Board, Place, Stopping};
use std::alloc::Global;

/// Nothing fails and no leaf is true.
const CALM: Marks = Marks {
    fails_from: 10,
    fails_to: 10,
    true_leaf: 10,
};

/// Spot 3 fails, which is reached from 1 and from 2. All ten are reached still.
const THREE_FAILS: Marks = Marks {
    fails_from: 3,
    fails_to: 4,
    true_leaf: 10,
};

/// The entries are these spots, by their numbers.
fn has_numbers(board: &Board<Spot>, numbers: &[u8]) -> bool {
    let count = board.counts().entries;
    for entry in 0..count {
        let number = board.piece(entry).map(|spot| spot.number);
        if number != numbers.get(entry as usize).copied() {
            return false;
        }
    }
    count as usize == numbers.len()
}

/// A leaf by the number of its spot, with the path to it.
type Leaf = (u8, &'static [u64]);

/// What is found at the end: the leaves in depth-first order, and the path to the first spot that fails.
struct Ends {
    leaves: &'static [Leaf],
    failed: Option<&'static [u64]>,
}

/// Whether the first path to an entry has these points.
fn has_path(board: &Board<Spot>, alloc: Global, entry: u32, points: &[u64]) -> bool {
    match board.path_to(alloc, entry) {
        Ok(Some(path)) => path.points() == points,
        _ => false,
    }
}

/// Whether a place is that of the leaf, and the first path to its entry is the same.
fn is_place_of(board: &Board<Spot>, alloc: Global, place: &Place, leaf: &Leaf) -> bool {
    board.piece(place.entry).map(|spot| spot.number) == Some(leaf.0)
        && place.path.points() == leaf.1
        && has_path(board, alloc, place.entry, leaf.1)
}

/// Whether the places are those of the leaves, in order.
fn are_places_of(board: &Board<Spot>, alloc: Global, places: &[Place], leaves: &[Leaf]) -> bool {
    for (place, leaf) in places.iter().zip(leaves) {
        if !is_place_of(board, alloc, place, leaf) {
            return false;
        }
    }
    places.len() == leaves.len()
}

/// Whether these leaves and this failure are found, where it is done and no stop is set.
fn finds(board: &Board<Spot>, alloc: Global, ends: &Ends) -> bool {
    if !board.is_done() {
        return false;
    }
    let Stopping::Unset = board.stopping() else {
        return false;
    };
    let Ok(found) = board.first_leaves(alloc) else {
        return false;
    };
    are_places_of(board, alloc, found.leaves.as_slice(), ends.leaves)
        && found.failed.as_ref().map(|place| place.path.points()) == ends.failed
}

/// Whether two workers, in this order, end without a stop, with these entries, and this is found then.
fn ends_with(alloc: Global, marks: Marks, reversed: bool, numbers: &[u8], ends: &Ends) -> bool {
    let Ok(mut board) = open(alloc, marks, 10) else {
        return false;
    };
    for _ in 0..10 {
        round(&mut board, alloc, reversed);
    }
    has_numbers(&board, numbers) && finds(&board, alloc, ends)
}

// Down from 0 by the points 1, 1, 1, 1 and 1 to spot 5, with 6, 7 and 9 below it, and then back to spot 4 with 8 below it.
const CALM_ENDS: Ends = Ends {
    leaves: &[
        (6, &[1, 1, 1, 1, 1, 1]),
        (7, &[1, 1, 1, 1, 1, 2]),
        (9, &[1, 1, 1, 1, 1, 4]),
        (8, &[1, 1, 1, 1, 4]),
    ],
    failed: None,
};

// Spot 3 is met first below 2. So spot 4 is met first below 2 too, by the point 2, and spot 5 below it.
const THREE_ENDS: Ends = Ends {
    leaves: &[
        (6, &[1, 1, 2, 1, 1]),
        (7, &[1, 1, 2, 1, 2]),
        (9, &[1, 1, 2, 1, 4]),
        (8, &[1, 1, 2, 4]),
    ],
    failed: Some(&[1, 1, 1]),
};

// The marks, whether the workers hand back in the reverse order, the numbers of the entries, and what is found at the end, which does
// not depend on the order. Worker 0 expands spot 0 alone, which
// gives 1, 2 and 4. Then each round takes two: 1 (to 2, 3 and 5) and 2 (to 3, 4 and 6); 4 (to 5, 6 and 8) and 3 (to 4, 5 and 7, where
// it does not fail); and at last 5 (to 6, 7 and 9) alone.
const RUNS: &[(Marks, bool, &[u8], &Ends)] = &[
    (CALM, false, &[0, 1, 2, 4, 3, 5, 6, 8, 7, 9], &CALM_ENDS),
    (CALM, true, &[0, 1, 2, 4, 3, 6, 5, 7, 8, 9], &CALM_ENDS),
    (
        THREE_FAILS,
        false,
        &[0, 1, 2, 4, 3, 5, 6, 8, 7, 9],
        &THREE_ENDS,
    ),
    (
        THREE_FAILS,
        true,
        &[0, 1, 2, 4, 3, 6, 5, 8, 7, 9],
        &THREE_ENDS,
    ),
];

#[test]
fn two_workers_end_in_either_order(rt: HostRuntime) {
    for (marks, reversed, numbers, ends) in RUNS {
        assert!(rt; ends_with(rt.alloc(), *marks, *reversed, numbers, ends));
    }
}
