//! Equality of formulas, which is that of their trees, and what they feed a hasher.

ghost use Rattle.std.specs.Prelude.{◌≡◌, refl, Some};
ghost use Rattle.std.specs.Ordering.{eq_by_cmp};
ghost use Rattle.std.specs.Cmp.{partial_equiv_from_equiv, eq_by_cmp_equiv, on_total, po};
ghost use Rattle.std.specs.List.{fold};
ghost use Rattle.qe_form.specs.Tree.{tree, trees};
ghost use Rattle.qe_form.specs.Order.{formula_cmp};
ghost use Rattle.qe_form.specs.Fed.{formula_fed, formulas_fed, size};
ghost use Rattle.qe_form.specs.OrderLaws.{formula_total, fed_alike};

use crate::order::rank;
use crate::{Form, Forms};
use std::cmp::Ordering;
use std::hash::{Hash, Hasher};

impl PartialEq for Form {
    ghost eq = { λ f g. eq_by_cmp formula_cmp (tree f) (tree g) };

    ghost laws = { partial_equiv_from_equiv (eq_by_cmp_equiv (on_total tree formula_total)) };

    fn eq(&self, other: &Form) -> bool {
        self.compare(other) == Ordering::Equal
    }
}

impl Eq for Form {
    ghost laws = { eq_by_cmp_equiv (on_total tree formula_total) };
}

impl Ord for Form {
    ghost cmp = { λ f g. formula_cmp (tree f) (tree g) };

    ghost total = { on_total tree formula_total };

    ghost matches_partial_cmp = { λ _ _. refl };

    ghost matches_eq = { λ _ _. refl };

    fn cmp(&self, other: &Form) -> Ordering {
        self.compare(other)
    }
}

impl PartialOrd for Form {
    ghost partial_cmp = { λ f g. Some (formula_cmp (tree f) (tree g)) };

    ghost laws = { po (on_total tree formula_total) (λ _ _. refl) };

    fn partial_cmp(&self, other: &Form) -> Option<Ordering> {
        Some(self.compare(other))
    }
}

impl Hash for Form {
    ghost hash_input = { λ f. formula_fed (tree f) };

    ghost respects_eq = { λ f g same. fed_alike (tree f) (tree g) same };

    fn hash<H: Hasher>(&self, state: &mut H) {
        feed(self, state);
    }
}

/// Feeds the kind of a formula and what it holds.
#[cycle(feed)]
#[tactic(auto, using(crate::proofs::Trees::size_trees))]
fn feed<H: Hasher>(form: &Form, state: &mut H)
    ensures { state.new ≡ fold H.write state.old (formula_fed (tree form.now)) }
{
    state.write_u8(rank(form));
    match form {
        Form::True | Form::False => {}
        Form::Atom(atom) => {
            atom.poly.hash(state);
            state.write_u8(atom.signs.bits());
        }
        Form::And(parts) | Form::Or(parts) => {
            state.write_usize(parts.items().len());
            feed_all(parts, state);
        }
        Form::Not(inner) => feed(inner, state),
        Form::Implies(left, right) | Form::Iff(left, right) => {
            feed(left, state);
            feed(right, state);
        }
        Form::Ex(var, body) | Form::All(var, body) => {
            state.write_u32(var.0);
            feed(body, state);
        }
    }
}

/// Feeds each of the parts.
#[cycle(feed)]
fn feed_all<H: Hasher>(forms: &Forms, state: &mut H)
    ensures { state.new ≡ fold H.write state.old (formulas_fed (trees forms.now)) }
{
    for form in forms.items() {
        feed(form, state);
    }
}
