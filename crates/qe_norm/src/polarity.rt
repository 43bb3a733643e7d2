//! Whether a formula is taken as it stands or negated: what a quantifier, a constant, a connective
//! and a set of signs become.

ghost use Rattle.std.specs.Prelude.{◌≡◌, IfOk};
ghost use Rattle.qe_form.specs.Tree.{tree, trees};
ghost use Rattle.qe_norm.specs.Polarity.{flipped, truth_under, conjunction, pair, signs_under, kind_under};

use crate::OutOfMemory;
use crate::blocks::Kind;
use qe_form::{Form, Forms, Signs};
use std::alloc::Global;

/// A formula is taken as it stands, or negated.
#[derive(Clone, Copy)]
pub enum Polarity {
    Positive,
    Negative,
}

impl Polarity {
    /// The polarity under a negation.
    pub fn flipped(self) -> Polarity
        ensures { result ≡ flipped self }
    {
        match self {
            Polarity::Positive => Polarity::Negative,
            Polarity::Negative => Polarity::Positive,
        }
    }

    /// What `Ex` becomes.
    pub fn kind(self) -> Kind
        ensures { result ≡ kind_under self }
    {
        match self {
            Polarity::Positive => Kind::Ex,
            Polarity::Negative => Kind::All,
        }
    }

    /// What True becomes.
    pub fn truth(self) -> Form
        ensures { tree result ≡ truth_under self }
    {
        match self {
            Polarity::Positive => Form::True,
            Polarity::Negative => Form::False,
        }
    }

    /// What an And becomes whose parts become these.
    pub fn conjunction(self, parts: Forms) -> Form
        ensures { tree result ≡ conjunction self (trees parts) }
    {
        match self {
            Polarity::Positive => Form::And(parts),
            Polarity::Negative => Form::Or(parts),
        }
    }

    /// What an And becomes whose two parts become these.
    pub fn pair(self, alloc: Global, left: Form, right: Form) -> Result<Form, OutOfMemory>
        ensures { IfOk result (λ f. tree f ≡ pair self (tree left) (tree right)) }
    {
        match self {
            Polarity::Positive => Form::both(alloc, left, right),
            Polarity::Negative => Form::either(alloc, left, right),
        }
    }

    /// What the signs of an atom become.
    pub fn signs(self, signs: Signs) -> Signs
        ensures { result ≡ signs_under self signs }
    {
        match self {
            Polarity::Positive => signs,
            Polarity::Negative => signs.complement(),
        }
    }
}
