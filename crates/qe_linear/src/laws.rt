//! The law of generated inputs. The function does nothing: its clauses are the law.

ghost use Rattle.std.specs.Prelude.{◌≡◌, ℕ};
ghost use Rattle.qe_norm.specs.Prenex.{prenex_size};
ghost use Rattle.qe_gen.specs.Generated.{input_form, input_names};
ghost use Rattle.qe_linear.specs.Given.{GivesFormula};

/// The prenex form of a generated input has 19 atoms and quantifiers, and its elimination gives a
/// formula: its polynomials are linear and stay so, with coefficients below `5*10^29`, so no node
/// fails.
pub fn generated_inputs_give_formulas()
    ensures size { (number : ℕ) → prenex_size (input_form number) ≡ 19 }
    ensures gives { (number : ℕ) → GivesFormula (input_form number) input_names }
{}
