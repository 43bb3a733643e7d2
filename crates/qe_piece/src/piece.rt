//! A node, as it is told from others.

ghost use Rattle.std.specs.Prelude.{◌≡◌, ◌↔◌, ℕ, Bool, List, true, false, IfOk, IsTrue};
ghost use Rattle.qe_piece.specs.Meaning.{Meaning, Descends};

use std::alloc::{AllocError, Global};
use std::hash::Hash;

/// A node of a search. Its key tells it from others: pieces with one key are one node. All else
/// that is known of a piece is a function of its key. Equal keys hash alike, since equality is that
/// of the keys.
pub trait Piece: Eq + Hash + Drop {
    /// Why a piece has no successors to give.
    type Fault: Drop;

    /// A list of numbers that tells the piece from others.
    ghost key: { Self → List ℕ };

    /// The successors of the piece with this key, in order, or why it fails. A leaf is asked for
    /// none.
    ghost meaning: { List ℕ → Meaning Self.Fault };

    /// Whether the piece with this key is a leaf.
    ghost leaf: { List ℕ → Bool };

    /// Whether the piece with this key is true.
    ghost truth: { List ℕ → Bool };

    /// A number that is smaller at each successor.
    ghost height: { List ℕ → ℕ };

    /// Whether no successors are asked for.
    fn is_leaf(&self) -> bool
        ensures { result ≡ leaf (key self.now) };

    /// Whether the search is over with this piece. Only a leaf is true.
    fn is_true(&self) -> bool
        ensures { result ≡ truth (key self.now) };

    /// A number that is smaller at each successor.
    fn rank(&self) -> u64
        ensures { result ≡ height (key self.now) };

    /// A piece with the same key.
    fn copy(&self, alloc: Global) -> Result<Self, AllocError>
        ensures { IfOk result (λ made. key made ≡ key self.now) };

    // equal by `==` exactly where the keys are equal
    ghost eq_is_key: { (x y : Self) → IsTrue (Self.eq x y) ↔ (key x ≡ key y) };

    // only a leaf is true
    ghost true_is_leaf: { (k : List ℕ) → truth k ≡ true → leaf k ≡ true };

    // each successor is smaller
    ghost descends: { (k : List ℕ) → leaf k ≡ false → Descends height (height k) (meaning k) };
}
