//! The calls of a container of spots, each on its own, worked out by hand.

ghost use Rattle.std.specs.Prelude.{◌≤◌};

use crate::spot::{Marks, Spot, Steps};
use crate::workers::{
    end_late, open, take_and_drop, take_and_fail, take_and_give, take_and_give_late,
    take_and_starve,
};
use qe_board::{Board, Counts, Gave, Left, Stopping, Took};
use std::alloc::Global;

/// The marks where nothing fails and this leaf is true.
const fn with_true_leaf(true_leaf: u8) -> Marks {
    Marks {
        fails_from: 10,
        fails_to: 10,
        true_leaf,
    }
}

/// Spot 0 fails.
const ROOT_FAILS: Marks = Marks {
    fails_from: 0,
    fails_to: 1,
    true_leaf: 10,
};

/// The container stops for this reason with so many entries, of which none waits and none is held, and nothing is handed out.
fn is_stopped(board: &mut Board<Spot>, stopping: Stopping, entries: u32) -> bool {
    let counts = Counts {
        entries,
        waiting: 0,
        held: 0,
    };
    board.stopping() == stopping && board.counts() == counts && matches!(&board.take(0), Took::Done)
}

/// So many pieces are taken, and their successors are kept.
fn keeps(board: &mut Board<Spot>, alloc: Global, pieces: u8) -> bool {
    for _ in 0..pieces {
        if !matches!(&take_and_give(board, alloc), Some(Gave::Kept)) {
            return false;
        }
    }
    true
}

/// Leaf 8 is true. The entries are 0; 1, 2, 4; 3, 5; 6; and leaf 8 comes from spot 4, the fourth to be taken, as entry 7.
fn stops_by_truth(alloc: Global) -> bool {
    let Ok(mut board) = open(alloc, with_true_leaf(8), 10) else {
        return false;
    };
    keeps(&mut board, alloc, 3)
        && matches!(&take_and_give(&mut board, alloc), Some(Gave::Truth))
        && board.true_leaf() == Some(7)
        && matches!(&board.take(1), Took::Stopped)
        && board.cancel(0)
        && !board.cancel(1)
        && !board.starve(1)
        && is_stopped(&mut board, Stopping::Truth, 8)
}

#[test]
fn a_true_leaf_stops(rt: HostRuntime) {
    assert!(rt; stops_by_truth(rt.alloc()));
}

/// The successors of so many pieces are kept, and with those of the next there would be too many.
fn stops_by_limit(alloc: Global, limit: u32, pieces: u8) -> bool
    requires { 1 ≤ limit }
{
    let Ok(mut board) = open(alloc, with_true_leaf(10), limit) else {
        return false;
    };
    keeps(&mut board, alloc, pieces)
        && matches!(&take_and_give(&mut board, alloc), Some(Gave::Full))
        && !board.cancel(0)
        && is_stopped(&mut board, Stopping::Limit, limit)
}

// Spots 0, 1, 2, 4, 3 and 5 are taken in this order, and leave 4, 6, 7, 8, 9 and 10 entries. With the limit 8 spot 5 waits still.
#[test]
fn too_many_stop(rt: HostRuntime) {
    assert!(rt; stops_by_limit(rt.alloc(), 9, 5));
    assert!(rt; stops_by_limit(rt.alloc(), 8, 4));
}

/// The root fails, which is no stop.
fn notes_a_failure(alloc: Global) -> bool {
    let Ok(mut board) = open(alloc, ROOT_FAILS, 10) else {
        return false;
    };
    take_and_fail(&mut board, alloc) == Some(0)
        && board.fault(0).copied() == Some(0)
        && is_stopped(&mut board, Stopping::Unset, 1)
}

#[test]
fn a_failure_is_noted(rt: HostRuntime) {
    assert!(rt; notes_a_failure(rt.alloc()));
}

fn drops_what_is_held(alloc: Global) -> bool {
    let Ok(mut board) = open(alloc, with_true_leaf(10), 10) else {
        return false;
    };
    take_and_drop(&mut board) && !board.starve(0) && is_stopped(&mut board, Stopping::Memory, 1)
}

#[test]
fn what_is_held_is_dropped(rt: HostRuntime) {
    assert!(rt; drops_what_is_held(rt.alloc()));
}

fn gives_late(alloc: Global) -> bool {
    let Ok(mut board) = open(alloc, with_true_leaf(10), 10) else {
        return false;
    };
    take_and_give_late(&mut board, alloc) == Some(Left::Stopped)
        && is_stopped(&mut board, Stopping::Memory, 1)
}

fn settles_without_memory(alloc: Global) -> bool {
    let Ok(mut board) = open(alloc, with_true_leaf(10), 10) else {
        return false;
    };
    take_and_starve(&mut board, alloc) == Some(Left::Starved)
        && is_stopped(&mut board, Stopping::Memory, 1)
}

/// Leaf 6 is true. Spot 0 gives 1, 2 and 4; worker 0 holds 1, and worker 1 gives 3, 4 and 6 from 2.
fn settles_late(alloc: Global, stopped: bool) -> bool {
    let Ok(mut board) = open(alloc, with_true_leaf(6), 10) else {
        return false;
    };
    keeps(&mut board, alloc, 1)
        && end_late(&mut board, alloc, stopped) == Some(Left::Stopped)
        && is_stopped(&mut board, Stopping::Truth, 6)
}

#[test]
fn an_entry_is_let_go(rt: HostRuntime) {
    assert!(rt; gives_late(rt.alloc()));
    assert!(rt; settles_without_memory(rt.alloc()));
    assert!(rt; settles_late(rt.alloc(), true));
    assert!(rt; settles_late(rt.alloc(), false));
}

fn fills(alloc: Global, true_leaf: u8, stopping: Stopping, entries: u32) -> bool {
    let Ok(mut board) = open(alloc, with_true_leaf(true_leaf), 10) else {
        return false;
    };
    board.fill_alone(alloc, &Steps).is_ok() && is_stopped(&mut board, stopping, entries)
}

// All ten are entries; or leaf 8 is true as entry 7.
#[test]
fn one_worker_fills_it(rt: HostRuntime) {
    assert!(rt; fills(rt.alloc(), 10, Stopping::Unset, 10));
    assert!(rt; fills(rt.alloc(), 8, Stopping::Truth, 8));
}
