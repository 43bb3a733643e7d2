//! What workers do at a container of spots.

ghost use Rattle.std.specs.Prelude.{◌≡◌, ◌≤◌, false, [], IfOk};
ghost use Rattle.qe_board.specs.Calls.{IsHeldIn};
ghost use Rattle.qe_board_tests.specs.Spots.{is_leaf_key};
ghost use Rattle.qe_board_tests.specs.Workers.{now, KeepsOthers, TellsTruth};

use crate::spot::{Marks, Spot, Steps};
use qe_board::{Board, Gave, Held, Left, Took};
use qe_piece::{Made, Maker, Never, OutOfMemory};
use std::alloc::Global;

/// A container of spot 0 alone, with room for so many entries.
pub fn open(alloc: Global, marks: Marks, limit: u32) -> Result<Board<Spot>, OutOfMemory>
    requires { 1 ≤ limit }
    ensures { IfOk result (λ board. board.journal ≡ []) }
{
    Board::open(alloc, Spot { number: 0, marks }, limit)
}

/// The worker hands back what came of the piece that it holds.
pub fn hand_back(board: &mut Board<Spot>, alloc: Global, held: Held<Spot>) -> Left
    requires held { IsHeldIn (now board.old) held }
    requires inner { is_leaf_key held.key ≡ false }
    ensures others { KeepsOthers board.old held board.new }
    ensures truth { TellsTruth result board.new }
{
    let made = Steps.expand(alloc, held.piece(), &mut Never);
    board.settle(alloc, held, made)
}

/// Workers 0 and 1 take a piece each, as far as there is one, and hand back what came of it: worker 0 first, or in the reverse order.
pub fn round(board: &mut Board<Spot>, alloc: Global, reversed: bool) {
    let Took::Piece(first) = board.take(0) else {
        return;
    };
    let Took::Piece(second) = board.take(1) else {
        hand_back(board, alloc, first);
        return;
    };
    if reversed {
        hand_back(board, alloc, second);
        hand_back(board, alloc, first);
    } else {
        hand_back(board, alloc, first);
        hand_back(board, alloc, second);
    }
}

/// Worker 0 takes a piece and gives its successors. `None` where there is no piece to take, or it fails.
pub fn take_and_give(board: &mut Board<Spot>, alloc: Global) -> Option<Gave<Spot>> {
    let Took::Piece(held) = board.take(0) else {
        return None;
    };
    let Made::Successors(successors) = Steps.expand(alloc, held.piece(), &mut Never) else {
        return None;
    };
    Some(board.give(alloc, held, successors))
}

/// Worker 0 takes a piece, which fails. Gives the number of its entry; `None` where there is no piece to take, or it does not fail.
pub fn take_and_fail(board: &mut Board<Spot>, alloc: Global) -> Option<u32> {
    let Took::Piece(held) = board.take(0) else {
        return None;
    };
    let Made::Failed(fault) = Steps.expand(alloc, held.piece(), &mut Never) else {
        return None;
    };
    let entry = held.entry();
    board.fail(held, fault);
    Some(entry)
}

/// Worker 0 takes a piece, worker 1 starves, and the piece is dropped. Tells whether all of it came.
pub fn take_and_drop(board: &mut Board<Spot>) -> bool {
    let Took::Piece(held) = board.take(0) else {
        return false;
    };
    if !board.starve(1) {
        return false;
    }
    board.drop_held(held);
    true
}

/// Worker 0 takes a piece, worker 1 starves, and then the successors come.
pub fn take_and_give_late(board: &mut Board<Spot>, alloc: Global) -> Option<Left> {
    let Took::Piece(held) = board.take(0) else {
        return None;
    };
    if !board.starve(1) {
        return None;
    }
    Some(hand_back(board, alloc, held))
}

/// Worker 0 takes a piece and runs out of memory.
pub fn take_and_starve(board: &mut Board<Spot>, alloc: Global) -> Option<Left> {
    let Took::Piece(held) = board.take(0) else {
        return None;
    };
    Some(board.settle(alloc, held, Made::OutOfMemory))
}

/// Both workers take a piece, a leaf of worker 1 is true, and then worker 0 is told to stop, or runs out of memory.
pub fn end_late(board: &mut Board<Spot>, alloc: Global, stopped: bool) -> Option<Left> {
    let Took::Piece(first) = board.take(0) else {
        return None;
    };
    let Took::Piece(second) = board.take(1) else {
        return None;
    };
    let Left::Truth = hand_back(board, alloc, second) else {
        return None;
    };
    if stopped {
        Some(board.settle(alloc, first, Made::Stopped))
    } else {
        Some(board.settle(alloc, first, Made::OutOfMemory))
    }
}
