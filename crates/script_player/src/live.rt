//! `remus live`: plays lines as they come, and answers each before it reads on.

ghost use Rattle.std.specs.Prelude.{◌≡◌, ℕ, List, All};
ghost use Rattle.script_player.specs.Live.{LineAnswers, IsLive, PlaysLine, LeavesOut, IsShort};
ghost use Rattle.script_player.specs.Meaning.{Stage, Means, finished, unbooted};
ghost use Rattle.script_player.specs.Session.{Replies};
ghost use Rattle.script_player.specs.Streams.{IsPut};
ghost use Rattle.script_player.specs.internal.Playing.{live_answer, stage_of};

use crate::player::{Player, Turn};
use crate::session::{BAD, LinePlayer, serve};
use crate::streams::{Failed, Sink, Source};
use std::alloc::Global;
use std::marker::Model;

/// Plays the lines of `input` as they come, and prints the answers on `out`: each is written out before more is read. Answers the exit
/// status: 0 at the end of the input, or 1 where a read or a write failed.
pub fn live<S: Source, O: Sink>(alloc: Global, input: &mut S, out: &mut O) -> u8
    ensures { IsLive O.no_memory (S.reading input.old) (S.reading input.new) (O.written out.old) (O.written out.new) result }
{
    let mut pair = LivePair::new(alloc);
    serve(alloc, input, &mut pair, out)
}

/// A pair that is played by the lines of a session. Contracts see it as its stage.
#[derive(Drop)]
struct LivePair {
    alloc: Global,
    player: Player,
}

impl Model for LivePair {
    ghost use Rattle.script_player.specs.Meaning.{Stage};

    ghost Value = { Stage };

    ghost use Rattle.script_player.specs.internal.Playing.{stage_of};

    ghost view = { λ pair. stage_of pair.player.world };
}

impl LivePair {
    /// One that waits for its boot line.
    fn new(alloc: Global) -> LivePair
        ensures { result ≡ unbooted }
    {
        LivePair {
            alloc,
            player: Player::new(),
        }
    }
}

impl LinePlayer for LivePair {
    ghost plays = { PlaysLine };

    ghost follow = { λ line. 0 };

    fn following(_: &[u8]) -> u64 {
        0
    }

    fn play<O: Sink>(&mut self, line: &[u8], out: &mut O) -> Result<(), Failed> {
        let turn = answer(self.alloc, &mut self.player, line);
        print(self.player.text.as_slice(), turn, out)
    }
}

/// Plays a line. The answer is the player's text, or what its turn says.
fn answer(alloc: Global, player: &mut Player, line: &[u8]) -> Turn
    ensures { (no_memory : List ℕ) → PlaysLine no_memory (stage_of player.old.world) line.now
        (live_answer no_memory result player.new.text.items) (stage_of player.new.world) }
{
    player.step(alloc, line)
}

/// Prints the answer to a line, which is this text or what its turn says.
///
/// # Errors
///
/// Where a write fails.
fn print<O: Sink>(text: &[u8], turn: Turn, out: &mut O) -> Result<(), Failed>
    ensures { IsPut (O.written out.old) (O.written out.new) result (live_answer O.no_memory turn text.now) }
{
    match turn {
        Turn::Booted | Turn::Played => out.put(text),
        Turn::Bad => out.put(BAD),
        Turn::Refused(wanted) => out.refuse(wanted),
        Turn::NoMemory(wanted) => out.refuse(wanted),
    }
}

/// A script that `sim` plays to its end prints the same where it comes line by line. And what a session printed is, without its bad
/// lines, the lines for which there was no memory, and the answers to these, what `sim` prints of the lines that are left.
pub fn live_prints_what_sim_prints()
    ensures file { (no_memory : List ℕ) (stage : Stage) (number : ℕ) (lines : List (List ℕ)) (text : List ℕ)
        → Means no_memory stage number lines text finished → All IsShort lines
        → (last : Stage) × Replies (LineAnswers no_memory) stage lines text last }
    ensures session { (no_memory : List ℕ) (stage last : Stage) (number : ℕ) (lines : List (List ℕ)) (text : List ℕ)
        → Replies (LineAnswers no_memory) stage lines text last
        → (kept : List (List ℕ)) × (printed : List ℕ) × LeavesOut no_memory lines text kept printed
        × Means no_memory stage number kept printed finished }
{}
