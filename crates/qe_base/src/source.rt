//! Where bytes come from.

ghost use Rattle.std.specs.Prelude.{◌≡◌, ℕ, ◌+◌, ◌≤◌, List, length, take, IfOk, OnErr};
ghost use Rattle.std.specs.declared.option.Option.{Option};
ghost use Rattle.std.specs.Io.KnownBytes.{Consumes};
ghost use Rattle.qe_base.specs.Count.{Rose};
ghost use Rattle.qe_base.specs.Source.{GivesNoneAtEnd};

/// A read or a write failed.
#[derive(Clone, Copy, Debug, PartialEq, Eq)]
pub struct Failed;

/// Where bytes come from.
pub trait Source {
    /// The bytes that are left, where the source tells them.
    ghost left: { Self → Option (List ℕ) };

    /// How many faults there were; it never falls.
    ghost faults: { Self → ℕ };

    /// How many reads were made, where the source counts them, and otherwise 0.
    ghost reads: { Self → ℕ };

    /// Gives the next bytes at the front of `out`, and answers how many: none only at the end, where
    /// the source tells. `Failed` comes only where the count of faults rose, and then no byte was taken.
    fn read(&mut self, out: &mut [u8]) -> Result<usize, Failed>
        ensures bound { IfOk result (λ n. n ≤ length out.new) }
        ensures gives { IfOk result
            (λ n. Consumes (left self.old) (left self.new) (take n out.new)) }
        ensures end { IfOk result (GivesNoneAtEnd (left self.old) (length out.new)) }
        ensures err { OnErr result (left self.new ≡ left self.old) }
        ensures fault { OnErr result (Rose (faults self.old) (faults self.new)) }
        ensures faults_kept { faults self.old ≤ faults self.new }
        ensures reads_counted { reads self.new ≤ reads self.old + 1 };
}
