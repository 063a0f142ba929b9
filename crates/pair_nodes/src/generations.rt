//! What becomes of a node's generation, by failover's table.
ghost use Rattle.std.specs.Prelude.{◌≡◌, ◌+◌, ◌<◌, false};
ghost use Rattle.failover.specs.Generations.{generation_limit};
ghost use Rattle.failover.specs.declared.mode.Mode.TheVariants as modes;
ghost use Rattle.pair_record.specs.Modes.{is_alone, is_stopped};

use failover::{Generation, Mode};

/// The first generation, of a node that is alone.
pub(crate) fn first_alone() -> Generation
    ensures { result ≡ record { number = 1; mode = modes.Alone } }
{
    left_alone(Generation::boot())
}

/// The standby of this generation has stopped.
pub(crate) fn left_alone(generation: Generation) -> Generation
    requires runs { is_stopped generation.mode ≡ false }
    requires pair { is_alone generation.mode ≡ false }
    ensures { result ≡ record generation { mode = modes.Alone } }
{
    match generation.alone() {
        Ok(next) => next,
        Err((generation, _)) => {
            generation.end();
            unreachable!()
        }
    }
}

/// The full checkpoint is committed, in this generation or before.
pub(crate) fn end_filling(generation: &mut Generation)
    requires runs { is_stopped generation.old.mode ≡ false }
    requires pair { is_alone generation.old.mode ≡ false }
    ensures { generation.new ≡ record generation.old { mode = modes.Paired } }
{
    if matches!(generation.mode(), Mode::Filling) {
        generation.filled();
    }
}

/// A standby is to come, in the next generation.
pub(crate) fn protected(generation: Generation) -> Generation
    requires alone { generation.mode ≡ modes.Alone }
    requires next { generation.number + 1 < generation_limit }
    ensures { result ≡ record { number = generation.number + 1; mode = modes.Filling } }
{
    match generation.protect() {
        Ok(next) => next,
        Err((generation, _)) => {
            generation.end();
            unreachable!()
        }
    }
}

/// The primary of this generation has stopped, and its standby goes live, in the next one.
pub(crate) fn gone_live(generation: Generation) -> Generation
    requires filled { generation.mode ≡ modes.Paired }
    requires next { generation.number + 1 < generation_limit }
    ensures { result ≡ record { number = generation.number + 1; mode = modes.Alone } }
{
    let stopped = match generation.stop() {
        Ok(stopped) => stopped,
        Err((generation, _)) => {
            generation.end();
            unreachable!()
        }
    };
    match stopped.go_live() {
        Ok(next) => next,
        Err((generation, _)) => {
            generation.end();
            unreachable!()
        }
    }
}
