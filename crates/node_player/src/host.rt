//! `remus node`: plays the lines of one host as they come, and answers each before it reads on.

ghost use Rattle.std.specs.Prelude.{◌≡◌};
ghost use Rattle.node_player.specs.Lines.{following};
ghost use Rattle.node_player.specs.Meaning.{IsNode, PlaysLine};
ghost use Rattle.node_player.specs.Nodes.{nothing};

use crate::answers::play;
use crate::lines::following;
use crate::role::Role;
use script_player::session::{LinePlayer, serve as serve_lines};
use script_player::streams::{Failed, Sink, Source};
use std::alloc::Global;
use std::marker::Model;

/// Plays the lines of `input` as they come, and prints the answers on `out`: each is written out before more is read. Answers the exit
/// status: 0 at the end of the input, or 1 where a read or a write failed.
pub fn serve<S: Source, O: Sink>(alloc: Global, input: &mut S, out: &mut O) -> u8
    ensures { IsNode O.no_memory (S.reading input.old) (S.reading input.new) (O.written out.old) (O.written out.new) result }
{
    let mut host = Host::new(alloc);
    serve_lines(alloc, input, &mut host, out)
}

/// A host: contracts see what its node is.
#[derive(Drop)]
struct Host {
    alloc: Global,
    role: Role,
}

impl Model for Host {
    ghost use Rattle.node_player.specs.Nodes.{Node};

    ghost Value = { Node };

    ghost use Rattle.node_player.specs.Nodes.{node_of};

    ghost view = { λ host. node_of host.role };
}

impl Host {
    /// One whose node is nothing yet.
    fn new(alloc: Global) -> Host
        ensures { result ≡ nothing }
    {
        Host {
            alloc,
            role: Role::Nothing,
        }
    }
}

impl LinePlayer for Host {
    ghost plays = { PlaysLine };

    ghost follow = { following };

    fn following(line: &[u8]) -> u64 {
        following(line)
    }

    fn play<O: Sink>(&mut self, line: &[u8], out: &mut O) -> Result<(), Failed> {
        play(self.alloc, &mut self.role, line, out)
    }
}
