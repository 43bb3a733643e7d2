//! How many atoms, constants and quantifiers a normal form has, without building it.

ghost use Rattle.std.specs.Prelude.{◌≡◌, min};
ghost use Rattle.qe_form.specs.Tree.{tree, trees};
ghost use Rattle.qe_norm.specs.Walk.{size_of, size_of_each};

use qe_form::{Form, Forms, count_sum};

/// How many atoms, constants and quantifiers the normal form of the formula has, as that of its
/// negation; 65,537 where it has more.
#[cycle(size)]
pub fn size(form: &Form) -> u32
    ensures { result ≡ min 65537 (size_of (tree form.now)) }
{
    match form {
        Form::True | Form::False | Form::Atom(_) => 1,
        Form::And(parts) | Form::Or(parts) => size_all(parts),
        Form::Not(inner) => size(inner),
        Form::Implies(left, right) => count_sum(size(left), size(right)),
        Form::Iff(left, right) => {
            let once = count_sum(size(left), size(right));
            count_sum(once, once)
        }
        Form::Ex(_, body) | Form::All(_, body) => count_sum(1, size(body)),
    }
}

#[cycle(size)]
fn size_all(forms: &Forms) -> u32
    ensures { result ≡ min 65537 (size_of_each (trees forms.now)) }
{
    let mut count = 0;
    for form in forms.items() {
        count = count_sum(count, size(form));
    }
    count
}
