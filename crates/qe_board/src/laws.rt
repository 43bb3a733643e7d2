//! The laws of runs. The function does nothing: its clause is the law.

ghost use Rattle.std.specs.Prelude.{ℕ, Bool, ◌≤◌};
ghost use Rattle.qe_piece.specs.Meaning.{Meaning};
ghost use Rattle.qe_board.specs.State.{Key};
ghost use Rattle.qe_board.specs.Laws.{RunLaws, TreeLaws};
ghost use Rattle.qe_board.specs.Tree.{Falls};
ghost use Rattle.qe_board.specs.Places.{PlaceLaws};

/// The laws of runs, over any pieces: nothing is taken after a leaf became true; each entry is taken at most once; there are
/// at most two events an entry and one more; a stop means what it says; what is done stays done; the plain run, that of worker 0
/// alone, is a run, and there is only one.
pub fn runs<F>()
    ensures { (meaning : Key → Meaning F) (is_leaf truth : Key → Bool) (limit : ℕ)
        → RunLaws meaning is_leaf truth limit }
{}

/// The laws of runs and the tree of the root, over any pieces whose successors have smaller heights: entries are distinct
/// pieces of the tree, at most the limit's number, and one that was expanded lists exactly its successors; every done run that
/// is not stopped, or stopped by truth, has the verdict of the tree; a stop by the limit comes only where the tree has more
/// distinct pieces; a done run over such a tree without a true piece ends with limit or memory.
pub fn runs_in_a_tree<F>()
    ensures { (meaning : Key → Meaning F) (is_leaf truth : Key → Bool) (height : Key → ℕ)
        (limit : ℕ)
        → Falls meaning is_leaf truth height → 1 ≤ limit
        → TreeLaws meaning is_leaf truth height limit }
{}

/// The laws of first places, over any pieces whose successors have smaller heights. In every state of a run links go down to
/// entries, the root is the first entry, and each entry can be reached from it by links. Once nothing is left to do and no
/// stop is set, the first spots of the entries are the first places of the pieces of the tree, so that its leaves, its first
/// piece that fails and its verdict can be read off them.
pub fn first_places<F>()
    ensures { (meaning : Key → Meaning F) (is_leaf truth : Key → Bool) (height : Key → ℕ)
        (limit : ℕ)
        → Falls meaning is_leaf truth height → 1 ≤ limit
        → PlaceLaws meaning is_leaf truth height limit }
{}
