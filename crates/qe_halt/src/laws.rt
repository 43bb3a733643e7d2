//! The law of halts. The function does nothing: its clause is the law.

ghost use Rattle.std.specs.Prelude.{◌≡◌, Option, Result, IsErr, IsErrAnd};
ghost use Rattle.qe_halt.specs.declared.halt.Halt.{Halt as TheHalt};
ghost use Rattle.qe_halt.specs.Outcome.{IsAnswer, IsStop};

/// What stops a callee, handed on by `?`, is an answer of the caller under the same limit.
pub fn handed_on<L, A>()
    ensures { (limit : Option L) (exact : A) (answer : Result A (TheHalt L)) (stop : TheHalt L)
        → IsErr answer → IsErrAnd answer (λ e. e ≡ stop) → IsStop limit stop
        → IsAnswer limit exact answer }
{}
