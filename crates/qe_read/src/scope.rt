//! What names mean inside their binders.

ghost use Rattle.std.specs.Prelude.{◌≡◌, []};
ghost use Rattle.qe_read.specs.Names.{letters, bound_to, variable};

use crate::free_names::FreeNames;
use qe_poly::Var;
use qe_syntax::Name;
use std::alloc::Global;

/// A name that a quantifier binds, and its variable.
#[derive(Clone, Copy, Debug, PartialEq, Eq)]
pub struct Binder {
    pub name: Name,
    pub var: Var,
}

/// The letters of a name; none where it does not stand in the text.
pub fn letters<'a>(text: &'a [u8], name: Name) -> &'a [u8]
    ensures { result.now ≡ letters text.now name }
{
    text.get(name.start as usize..name.end as usize)
        .unwrap_or(&[])
}

/// The variable of the innermost binder with these letters. The outermost binder stands first.
fn bound_to(text: &[u8], enclosing: &[Binder], spelled: &[u8]) -> Option<Var>
    ensures { result ≡ bound_to text.now enclosing.now spelled.now }
{
    let mut found = None;
    for binder in enclosing {
        if letters(text, binder.name) == spelled {
            found = Some(binder.var);
        }
    }
    found
}

/// What is bound where the reading of a formula stands.
#[derive(Drop)]
pub struct Scope {
    /// The binders around, the outermost first.
    pub enclosing: Vec<Binder>,
    /// The names that were bound before, in the order of the text.
    pub bound: Vec<Name>,
}

impl Scope {
    /// Nothing is bound yet.
    pub fn new(alloc: Global) -> Scope
        ensures enclosing { result.enclosing.items ≡ [] }
        ensures bound { result.bound.items ≡ [] }
    {
        Scope {
            enclosing: Vec::new(alloc),
            bound: Vec::new(alloc),
        }
    }
}

/// A text and the names that are free in it.
#[derive(Drop)]
pub struct Context<'a, 'b> {
    pub alloc: Global,
    pub text: &'a [u8],
    pub free: &'b FreeNames<'a>,
}

impl Context<'_, '_> {
    /// The variable of a name inside these binders: that of its innermost binder, or else that of a free name.
    pub fn variable(&self, enclosing: &[Binder], name: Name) -> Var
        ensures { result ≡ variable self.now.text.now self.now.free.now enclosing.now name }
    {
        let spelled = letters(self.text, name);
        match bound_to(self.text, enclosing, spelled) {
            Some(var) => var,
            None => self.free.variable(spelled),
        }
    }
}
