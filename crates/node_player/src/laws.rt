//! What a node's lines do is its half of a run of two nodes.
ghost use Rattle.std.specs.Prelude.{ℕ, Bool, List};
ghost use Rattle.node_player.specs.AtPrimary.{AtPrimary};
ghost use Rattle.node_player.specs.AtStandby.{AtStandby};
ghost use Rattle.node_player.specs.Halves.{IsReached, IsPrimarysHalf, IsStandbysHalf};
ghost use Rattle.node_player.specs.Lines.{Line};
ghost use Rattle.node_player.specs.Nodes.{Node, primary};
ghost use Rattle.pair_nodes.specs.Flagged.{Flagged};
ghost use Rattle.pair_nodes.specs.Sites.{Site};

use pair_nodes::{what_a_primary_does_may_happen, what_a_standby_does_may_happen};

/// Whatever line a node answers, what becomes of it is what may happen to that node of two, with every message between them lost, repeated
/// or late. So the lines and answers of two nodes, and of whatever carries their messages, are a run of which pair_nodes' laws speak
/// ([`two_nodes_serve_as_one_guest`](pair_nodes::two_nodes_serve_as_one_guest)).
///
/// [`serve`](crate::host::serve) says that each line is answered so, and that a session's node is what its lines so far lead to.
pub fn lines_are_a_nodes_half_of_a_run()
    ensures primary { (no_memory : List ℕ) (s : Site) (flags : List Bool) (line : Line) (printed : List ℕ) (q : Flagged)
        → IsReached (primary (record { primary = s.primary; flags = flags }))
        → AtPrimary no_memory (record { primary = s.primary; flags = flags }) line printed q → IsPrimarysHalf s line q.primary }
    ensures standby { (no_memory : List ℕ) (s : Site) (line : Line) (printed : List ℕ) (new : Node)
        → AtStandby no_memory s.standby line printed new → IsStandbysHalf s new }
{
    what_a_primary_does_may_happen();
    what_a_standby_does_may_happen();
}
