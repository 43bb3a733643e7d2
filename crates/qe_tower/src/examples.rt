//! The definitions at work: each function does nothing, and its clause is computed from the definitions.

ghost use Rattle.std.specs.Prelude.{◌≡◌, pos};
ghost use Rattle.qe_ring.specs.Sign.{Minus, Zero};
ghost use Rattle.qe_ring.specs.Ring.{difference};
ghost use Rattle.qe_tower.specs.Number.{add, mul, sign_of, whole_number, number_operations, Equal};
ghost use Rattle.qe_tower.specs.Examples.{root_of, golden_ratio, nested_root};

/// `1 - sqrt(2)` is negative.
pub fn one_less_root_two()
    ensures { sign_of (difference number_operations (whole_number (pos 1)) (root_of 2)) ≡ Minus }
{}

/// `2 - sqrt(4)` is zero, though 4 is a square and the tower does not know it.
pub fn two_less_root_four()
    ensures { sign_of (difference number_operations (whole_number (pos 2)) (root_of 4)) ≡ Zero }
{}

/// `sqrt(2)*sqrt(2) - 2` is zero, where the two roots come from two towers.
pub fn root_two_squared()
    ensures { sign_of (difference number_operations (mul (root_of 2) (root_of 2))
        (whole_number (pos 2))) ≡ Zero }
{}

/// `(1 + sqrt(5))/2` solves `x^2 = x + 1`.
pub fn golden_ratio()
    ensures { Equal (mul golden_ratio golden_ratio) (add golden_ratio (whole_number (pos 1))) }
{}

/// `sqrt(2) + sqrt(3)` is `sqrt(5 + 2*sqrt(6))`.
pub fn sum_of_roots()
    ensures { Equal (add (root_of 2) (root_of 3)) nested_root }
{}
