//! What clients can rely on, whatever the threads do.
ghost use Rattle.std.specs.Prelude.{◌≡◌};
ghost use Rattle.growing_history.specs.Steps.{Begins};
ghost use Rattle.hypervisor.specs.Clients.{own};
ghost use Rattle.hypervisor.specs.Service.{AreOfOneGuest, ShareOneHistory};

use crate::clients::Client;
use growing_history::{Pair, clients_have_one_guest_that_never_fails, steps_go_on};

/// Whatever the threads do, a client's answers are those of one never-failing guest behind a lossy line. Of all that the client has seen,
/// unless a commit is marked in it: its history is legal; each call in it, of whichever client, was answered as the guest's state there
/// answers it; and what came to a client was sent to it by a step of the guest.
pub fn answers_are_of_one_guest<P: Pair>(client: &Client<P>)
    ensures { AreOfOneGuest P.start client.now.seen }
{
    clients_have_one_guest_that_never_fails();
    client.keep();
}

/// And these answers are at points of one growing history: what any two clients of a pair have seen are points of one, in which each
/// client's entries are all its calls with their answers, and which is that of one guest unless a commit is marked in it. To show it, each
/// of the two learns from the other.
pub fn clients_share_one_history<P: Pair>(one: &mut Client<P>, other: &mut Client<P>)
    ensures shared { ShareOneHistory P.start one.old other.old }
    ensures one { Begins one.old.seen one.new.seen × (own P.start one.new ≡ own P.start one.old) }
    ensures other { Begins other.old.seen other.new.seen × (own P.start other.new ≡ own P.start other.old) }
{
    clients_have_one_guest_that_never_fails();
    steps_go_on();
    let mut told = one.tell();
    other.learn(&mut told);
    let mut told = other.tell();
    one.learn(&mut told);
}
