//! The choice of the variable that is eliminated first.

ghost use Rattle.std.specs.Prelude.{◌≡◌, ◌≤◌, IfSome, IfNone};
ghost use Rattle.qe_form.specs.Measures.{degree};
ghost use Rattle.qe_form.specs.Tree.{tree};
ghost use Rattle.qe_points.specs.Choice.{choice, IsOneOf, AllAreHigh};

use crate::{Form, Var};

/// Degrees from here on are too high to eliminate the variable.
const TOO_HIGH: u32 = 3;

/// The first of the variables in which the formula has its least degree, where that is at most 2;
/// `None` where the formula has a degree over 2 in each.
pub fn choose(form: &Form, vars: &[Var]) -> Option<Var>
    ensures exact { result ≡ choice (tree form.now) vars.now }
    ensures chosen { IfSome result (λ v. IsOneOf v vars.now × (degree v.0 (tree form.now) ≤ 2)) }
    ensures none { IfNone result (AllAreHigh (tree form.now) vars.now) }
{
    let mut chosen = None;
    let mut least = TOO_HIGH;
    for var in vars {
        let degree = form.degree_in(*var);
        if degree < least {
            least = degree;
            chosen = Some(*var);
        }
    }
    chosen
}
