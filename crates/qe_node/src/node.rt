//! Nodes.

ghost use Rattle.std.specs.Prelude.{◌≡◌, eqb, map};
ghost use Rattle.std.specs.Cmp.{partial_equiv_from_equiv};
ghost use Rattle.qe_node.specs.key.Equal.{same_sight, sight_fed};
ghost use Rattle.qe_node.specs.lemmas.Equal.{same_sight_equiv, sight_fed_alike};
ghost use lib.Pointwise.{pointwise};

use crate::{Form, Var, Vars};
use std::hash::{Hash, Hasher};
use std::marker::Model;

/// A formula with the variables of a block that are to be eliminated from it, in the order of the
/// block. It is plain, with sets of signs that are neither empty nor full, and has fewer than 2^50
/// atoms and constants. There are at most 65,536 variables; none stands twice, and each occurs in
/// the formula. A node without variables is a leaf.
#[derive(Drop)]
pub struct Node {
    pub vars: Vars,
    pub form: Form,
}

impl Model for Node {
    ghost use Rattle.std.specs.Prelude.{map};
    ghost use Rattle.qe_form.specs.Tree.{tree};
    ghost use Rattle.qe_node.specs.Node.{Sight, IsNode};
    ghost use Rattle.qe_node.specs.lemmas.Code.{sight_code};

    ghost Value = { Sight };

    ghost coded = { sight_code };

    ghost view = { λ n. record { vars = map (λ v. v.0) n.vars; form = tree n.form } };

    ghost invariant = { λ n. IsNode (record { vars = map (λ v. v.0) n.vars; form = tree n.form }) };
}

/// Whether the variables are the same, in the same order.
fn same_vars(left: &[Var], right: &[Var]) -> bool
    ensures { result ≡ pointwise eqb (map (λ v. v.0) left.now) (map (λ v. v.0) right.now) }
{
    left == right
}

impl PartialEq for Node {
    ghost eq = { same_sight };

    ghost laws = { partial_equiv_from_equiv same_sight_equiv };

    fn eq(&self, other: &Node) -> bool {
        same_vars(self.vars.items(), other.vars.items()) && self.form == other.form
    }
}

impl Eq for Node {
    ghost laws = { same_sight_equiv };
}

impl Hash for Node {
    ghost hash_input = { sight_fed };

    ghost respects_eq = { λ m n same. sight_fed_alike m n same };

    fn hash<H: Hasher>(&self, state: &mut H) {
        self.vars.items().hash(state);
        self.form.hash(state);
    }
}
