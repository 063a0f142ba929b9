//! What follows from what a script means.
ghost use Rattle.std.specs.Prelude.{◌⊎◌, ℕ, List};
ghost use Rattle.script_player.specs.Meaning.{Ending, Means, lines_of, unbooted};
ghost use Rattle.script_player.specs.Scripts.{BootsNone, IsOneRun};

/// Whatever script is played, what it prints is, line by line, the answers of one run of events of the pair that it boots; and to the
/// clients that run is one guest that never fails, behind lines that may lose frames. Of it pair_core's laws say the rest
/// ([`clients_have_one_guest_that_never_fails`](pair_core::clients_have_one_guest_that_never_fails)).
///
/// [`sim`](crate::sim::sim) says that a script means what it printed.
pub fn scripts_print_the_answers_of_one_run()
    ensures { (no_memory source printed : List ℕ) (ending : Ending) → Means no_memory unbooted 1 (lines_of source) printed ending
        → BootsNone no_memory (lines_of source) printed ending ⊎ IsOneRun no_memory (lines_of source) printed ending }
{}
