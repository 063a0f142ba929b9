//! Who hears what becomes of frames that land.
ghost use Rattle.std.specs.Prelude.{◌≡◌, ℕ, ◌+◌, ◌≤◌};
ghost use Rattle.frame_ports.specs.declared.landing.Landing.{Landing};
ghost use Rattle.output_gate.specs.Landings.{puts, drops};
ghost use Rattle.output_gate.specs.Limits.{most_landings};

use frame_ports::Landing;

/// Hears what becomes of frames that land, for each frame and client.
pub trait Listener {
    /// What it has heard, in its own words.
    ghost Known: { Type 0 };

    ghost known: { Self → Self.Known };

    /// What it knows once it has heard one thing more.
    ghost told: { Self.Known → ℕ → Landing → Self.Known };

    /// How many frames more it has room for. One that came for that client before takes none.
    ghost room: { Self → ℕ };

    /// This became of a frame at this client.
    fn hear(&mut self, client: u64, landing: Landing)
        requires { puts landing + drops landing ≤ room self.old }
        ensures known { known self.new ≡ told (known self.old) client landing }
        ensures room { room self.old ≤ room self.new + (puts landing + drops landing) };
}

/// Hears nothing, and has room for all that a gate may hold.
#[derive(Drop)]
pub(crate) struct NoListener;

impl Listener for NoListener {
    ghost Known = { Unit {0} };

    ghost known = { λ _. tt };

    ghost told = { λ _ _ _. tt };

    ghost room = { λ _. most_landings };

    fn hear(&mut self, _client: u64, _landing: Landing) {}
}
