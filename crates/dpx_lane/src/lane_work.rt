ghost use Rattle.std.specs.Prelude.{ℕ, List};

/// A lane's state. Its work on a row leaves another row in its place.
pub trait LaneWork: Send + Drop {
    /// The rows that a state takes.
    ghost takes: { Self → List ℕ → Type 0 };

    /// What a state and a row become.
    ghost does: { Self → List ℕ → Self → List ℕ → Type 0 };

    fn run(&mut self, row: &mut [u16])
        requires { takes self.old row.old }
        ensures { does self.old row.old self.new row.new };
}
