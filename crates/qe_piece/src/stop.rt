//! The one who may stop a search.

ghost use Rattle.std.specs.Prelude.{◌≡◌, Bool, true, false};

/// One who may tell a search to stop. What the answer rests on is the basis, which no call changes.
pub trait Stop {
    /// The kind of data that the basis is.
    type Basis;

    /// Whether the stop has been told.
    ghost told: { Self → Bool };

    /// What the answer rests on.
    ghost basis: { Self → Self.Basis };

    /// Whether the stop is told when the call ends. Once told it stays told.
    fn stopped(&mut self) -> bool
        ensures answer { result ≡ told self.new }
        ensures stays { told self.old ≡ true → told self.new ≡ true }
        ensures basis { basis self.new ≡ basis self.old };
}

/// One who never tells the stop.
#[derive(Drop)]
pub struct Never;

impl Stop for Never {
    type Basis = ();

    ghost told = { λ _. false };

    ghost basis = { λ _. tt };

    fn stopped(&mut self) -> bool {
        false
    }
}
