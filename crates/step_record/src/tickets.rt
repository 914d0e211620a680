ghost use Rattle.std.specs.Prelude.{◌≡◌, ◌≤◌, ◌<◌, List, [], ◌∷◌, ℕ};
ghost use Rattle.std.specs.List.{All};
ghost use Rattle.step_record.specs.Tickets.{Draws};

/// Draws tickets, by which the entries of all actors are put into one order.
pub trait Tickets: Drop {
    /// What is known of it besides, as plain data.
    ghost Rest: { Type 0 };
    /// How many tickets it may still draw.
    ghost left: { Self → ℕ };
    /// The tickets that it drew.
    ghost drawn: { Self → List ℕ };

    ghost rest: { Self → Rest };

    /// Draws a ticket above all that it drew.
    fn draw(&mut self) -> u64
        requires { 1 ≤ left self.old }
        ensures draws { Draws left drawn rest self.old (result ∷ []) self.new }
        ensures above { All (λ t. t < result) (drawn self.old) };
}
