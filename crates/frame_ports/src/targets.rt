//! To whom one frame goes.
ghost use Rattle.std.specs.Prelude.{◌≡◌, ℕ, ◌+◌, ◌<◌, ◌≤◌, nat_le, true};
ghost use Rattle.frame_ports.specs.Limits.{max_clients};
ghost use Rattle.frame_ports.specs.Targets.{has_target, AreTargets};

use crate::limits::MAX_CLIENTS;
use std::marker::Model;

/// The clients to whom one frame goes, at most 16.
#[derive(Clone, Copy)]
pub struct Targets {
    /// Bit c - 1 for client c.
    bits: u16,
}

impl Model for Targets {
    ghost use Rattle.std.specs.Prelude.{ℕ};

    ghost Value = { ℕ };

    ghost view = { λ t. t.bits };

    ghost inverse = { λ n. record { bits = n } };
}

/// The first six bytes of a frame for everyone.
const BROADCAST: [u8; 6] = [0xff; 6];

/// The first five bytes of each client's address. The sixth is the client's number.
const CLIENT_GROUP: [u8; 5] = [2, 0, 0, 0, 1];

impl Targets {
    /// Of `clients` clients, those to whom a frame of these bytes is addressed: all of them if its first six
    /// bytes are 0xff, else the one that they name, if any. A frame shorter than an address goes nowhere.
    pub(crate) fn of_frame(clients: u64, bytes: &[u8]) -> Targets
        requires { clients ≤ max_clients }
        ensures { AreTargets clients bytes.now result }
    {
        if bytes.starts_with(&BROADCAST) {
            return Targets::all(clients);
        }
        if bytes.len() < 6 || !bytes.starts_with(&CLIENT_GROUP) {
            return Targets { bits: 0 };
        }
        let client = u64::from(bytes[5]);
        if client == 0 || client > clients {
            return Targets { bits: 0 };
        }
        Targets {
            bits: 1 << (client - 1),
        }
    }

    /// The clients 1 to `clients`.
    fn all(clients: u64) -> Targets
        requires { clients ≤ max_clients }
        ensures { (c : ℕ) → 1 ≤ c → c ≤ max_clients → has_target result c ≡ nat_le c clients }
    {
        Targets {
            bits: ((1u32 << clients) - 1) as u16,
        }
    }

    /// Whether `client` is among them. No client has the number 0, nor one above 16.
    pub fn contains(self, client: u64) -> bool
        ensures { result ≡ has_target self client }
    {
        client >= 1 && client <= MAX_CLIENTS && (self.bits >> (client - 1)) & 1 == 1
    }

    /// Where to look for them: of `clients` clients, each that is among them has at least the first of these numbers, and a lower one than
    /// the second. Where one alone is, no other has.
    pub fn span(self, clients: u64) -> (u64, u64)
        requires { clients ≤ max_clients }
        ensures first { 1 ≤ result.0 }
        ensures low { result.0 ≤ max_clients }
        ensures end { result.1 ≤ clients + 1 }
        ensures all { (c : ℕ) → 1 ≤ c → c ≤ clients → has_target self c ≡ true → (result.0 ≤ c) × (c < result.1) }
    {
        let zeros = self.bits.trailing_zeros();
        if self.bits == 0 || self.bits != 1 << zeros {
            return (1, clients + 1);
        }
        let client = u64::from(zeros) + 1;
        (client, (client + 1).min(clients + 1))
    }

    /// The bits: bit c - 1 is set exactly where client c is among them.
    pub fn bits(self) -> u16
        ensures { result ≡ self }
    {
        self.bits
    }
}
