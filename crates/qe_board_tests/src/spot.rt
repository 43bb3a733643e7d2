//! The pieces of the tests: spots with numbers, in a graph without cycles where most are reached in several ways.

ghost use Rattle.std.specs.Prelude.{◌≡◌, ◌≤◌, map, IfOk};
ghost use Rattle.qe_piece.specs.Meaning.{child_of};
ghost use Rattle.qe_board_tests.specs.Spots.{key_of, meaning_of, is_leaf_key, is_true_key, height_of, does_fail, child, children};
ghost use Rattle.qe_board_tests.specs.Laws.{same_is_key, true_is_leaf, descends};

use qe_piece::{Made, Maker, Next, OutOfMemory, Piece, Stop};
use std::alloc::Global;

/// The spots that fail, from a number up to the one before another, and the leaf that is true.
#[derive(Clone, Copy, Debug, PartialEq, Eq, Hash)]
pub struct Marks {
    pub fails_from: u8,
    pub fails_to: u8,
    pub true_leaf: u8,
}

/// A spot. The successors of number n have the numbers n + 1, n + 2 and n + 4, and 1, 2 and 4 are the numbers of their points. A
/// number above five is a leaf.
#[derive(Debug, PartialEq, Eq, Hash, Drop)]
pub struct Spot {
    pub number: u8,
    pub marks: Marks,
}

impl Spot {
    /// Whether it fails.
    pub fn fails(&self) -> bool
        ensures { result ≡ does_fail (key_of self.now) }
    {
        self.marks.fails_from <= self.number && self.number < self.marks.fails_to
    }

    // the successor at the point with this number
    fn step(&self, by: u8) -> Next<Spot>
        requires inner { self.now.number ≤ 5 }
        requires small { by ≤ 4 }
        ensures { child_of key_of result ≡ child by (key_of self.now) }
    {
        let number = self.number + by;
        let marks = self.marks;
        Next {
            point: u64::from(by),
            piece: Spot { number, marks },
        }
    }

    // its successors
    fn steps(&self, alloc: Global) -> Result<Vec<Next<Spot>>, OutOfMemory>
        requires { self.now.number ≤ 5 }
        ensures { IfOk result (λ list. map (child_of key_of) list.items ≡ children (key_of self.now)) }
    {
        let mut list = Vec::with_capacity(alloc, 3)?;
        list.push_reserved(self.step(1));
        list.push_reserved(self.step(2));
        list.push_reserved(self.step(4));
        Ok(list)
    }
}

impl Piece for Spot {
    type Fault = u8;

    ghost key = { key_of };

    ghost meaning = { meaning_of };

    ghost leaf = { is_leaf_key };

    ghost truth = { is_true_key };

    ghost height = { height_of };

    ghost eq_is_key = { same_is_key };

    ghost true_is_leaf = { true_is_leaf };

    ghost descends = { descends };

    fn is_leaf(&self) -> bool {
        self.number > 5
    }

    fn is_true(&self) -> bool {
        self.number > 5 && self.number == self.marks.true_leaf
    }

    fn rank(&self) -> u64 {
        u64::from(9_u8.saturating_sub(self.number))
    }

    fn copy(&self, _alloc: Global) -> Result<Spot, OutOfMemory> {
        Ok(Spot {
            number: self.number,
            marks: self.marks,
        })
    }
}

/// Makes the successors of spots.
#[derive(Clone, Copy, Debug)]
pub struct Steps;

impl Maker<Spot> for Steps {
    fn expand<T: Stop>(&self, alloc: Global, piece: &Spot, _stop: &mut T) -> Made<Spot> {
        if piece.fails() {
            return Made::Failed(piece.number);
        }
        match piece.steps(alloc) {
            Ok(list) => Made::Successors(list),
            Err(_) => Made::OutOfMemory,
        }
    }
}
