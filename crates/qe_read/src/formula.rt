//! The formula of a tree: its variables and its polynomials.

ghost use Rattle.std.specs.Prelude.{◌≡◌, ◌+◌, ◌++◌, ◌∷◌, [], length, map};
ghost use Rattle.qe_form.specs.Tree.{tree, trees};
ghost use Rattle.qe_syntax.specs.Code.{term_of, tree_of, as_parts};
ghost use Rattle.qe_read.specs.Names.{variable};
ghost use Rattle.qe_read.specs.Value.{value as value_of, IsValueBy};
ghost use Rattle.qe_read.specs.Formula.{relation_signs, atom_value, bound_names, names_bound_in, formula as formula_value, formula_within, formulas_within, HasRoom, Yields};

use crate::scope::{Binder, Context, Scope};
use crate::value::{ValueStop, subtract};
use qe_form::{Atom, Form, Forms, Sequence, Signs};
use qe_poly::Var;
use qe_syntax::{Comparison, Formula, Relation};

/// The signs that the left term less the right one may have.
fn relation_signs(relation: Relation) -> Signs
    ensures { result ≡ relation_signs relation }
{
    match relation {
        Relation::Equal => Signs::EQUAL,
        Relation::NotEqual => Signs::NOT_EQUAL,
        Relation::Less => Signs::LESS,
        Relation::LessOrEqual => Signs::LESS_OR_EQUAL,
        Relation::Greater => Signs::GREATER,
        Relation::GreaterOrEqual => Signs::GREATER_OR_EQUAL,
    }
}

impl Context<'_, '_> {
    /// The polynomial of the left term less the right one, with the signs that the relation allows.
    fn atom(&self, enclosing: &[Binder], comparison: &Comparison) -> Result<Form, ValueStop>
        ensures { let var = variable self.now.text.now self.now.free.now enclosing.now in
            let left = value_of var (term_of comparison.now.left) in
            let right = value_of var (term_of comparison.now.right) in
            IsValueBy tree
            (atom_value comparison.now.place comparison.now.relation left right) result }
    {
        let left = self.value(enclosing, &comparison.left)?;
        let right = self.value(enclosing, &comparison.right)?;
        Ok(Form::Atom(Atom {
            poly: subtract(self.alloc, comparison.place, &left, &right)?,
            signs: relation_signs(comparison.relation),
        }))
    }

    /// The variable that is bound next.
    fn next_var(&self, scope: &Scope) -> Var
        requires { HasRoom self.now scope.now [] }
        ensures { let number = length self.now.free.now + length scope.now.bound.items in
            result ≡ record { 0 = number } }
    {
        Var((self.free.len() + scope.bound.len()) as u32)
    }

    /// The formula of a tree. The binders around it are left as they were, and the names that it binds
    /// are appended to those that were bound before.
    #[cycle(formula)]
    pub fn formula(&self, scope: &mut Scope, formula: &Formula) -> Result<Form, ValueStop>
        requires { HasRoom self.now scope.old (bound_names (tree_of formula.now)) }
        ensures { let value = formula_within self.now scope.old (tree_of formula.now) in
            Yields tree value (bound_names (tree_of formula.now)) result scope.old scope.new }
    {
        match formula {
            Formula::True => Ok(Form::True),
            Formula::False => Ok(Form::False),
            Formula::Atom(comparison) => self.atom(&scope.enclosing, comparison),
            Formula::And(parts) => Ok(Form::And(self.formulas(scope, parts.items())?)),
            Formula::Or(parts) => Ok(Form::Or(self.formulas(scope, parts.items())?)),
            Formula::Not(inner) => Ok(Form::Not(self.boxed(scope, inner)?)),
            Formula::Implies(left, right) => {
                let left = self.boxed(scope, left)?;
                Ok(Form::Implies(left, self.boxed(scope, right)?))
            }
            Formula::Iff(left, right) => {
                let left = self.boxed(scope, left)?;
                Ok(Form::Iff(left, self.boxed(scope, right)?))
            }
            Formula::Ex(name, body) => {
                let var = self.next_var(scope);
                let binder = Binder { name: *name, var };
                Ok(Form::Ex(var, self.body(scope, binder, body)?))
            }
            Formula::All(name, body) => {
                let var = self.next_var(scope);
                let binder = Binder { name: *name, var };
                Ok(Form::All(var, self.body(scope, binder, body)?))
            }
        }
    }

    /// The same in a box.
    #[cycle(formula)]
    fn boxed(&self, scope: &mut Scope, formula: &Formula) -> Result<Box<Form>, ValueStop>
        requires { HasRoom self.now scope.old (bound_names (tree_of formula.now)) }
        ensures { let value = formula_within self.now scope.old (tree_of formula.now) in
            let names = bound_names (tree_of formula.now) in
            Yields (λ form. tree form.value) value names result scope.old scope.new }
    {
        let form = self.formula(scope, formula)?;
        Ok(Box::new(self.alloc, form)?)
    }

    /// The formula of a body inside one more binder.
    #[cycle(formula)]
    fn body(
        &self,
        scope: &mut Scope,
        binder: Binder,
        body: &Formula,
    ) -> Result<Box<Form>, ValueStop>
        requires { HasRoom self.now scope.old (binder.name ∷ bound_names (tree_of body.now)) }
        ensures { let enclosing = scope.old.enclosing.items ++ binder ∷ [] in
            let bound = scope.old.bound.items ++ binder.name ∷ [] in
            let value = formula_value self.now.text.now self.now.free.now enclosing bound
            (tree_of body.now) in
            let names = binder.name ∷ bound_names (tree_of body.now) in
            Yields (λ form. tree form.value) value names result scope.old scope.new }
    {
        scope.enclosing.push(binder)?;
        scope.bound.push(binder.name)?;
        let form = self.boxed(scope, body)?;
        scope.enclosing.pop();
        Ok(form)
    }

    /// The formulas of trees in order.
    #[cycle(formula)]
    fn formulas(&self, scope: &mut Scope, formulas: &[Formula]) -> Result<Forms, ValueStop>
        requires { HasRoom self.now scope.old
            (names_bound_in (as_parts (map tree_of formulas.now))) }
        ensures { let parts = as_parts (map tree_of formulas.now) in
            let value = formulas_within self.now scope.old parts in
            Yields trees value (names_bound_in parts) result scope.old scope.new }
    {
        let mut forms = Sequence::new(self.alloc);
        for formula in formulas {
            forms.push(self.formula(scope, formula)?)?;
        }
        Ok(forms)
    }
}
