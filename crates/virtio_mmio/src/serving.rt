//! How a device serves one of its queues.

ghost use Rattle.std.specs.Prelude.{◌≡◌, ℕ, ◌+◌, ◌≤◌, ◌<◌, IsTrue, OnOk, OnErr, List, length};
ghost use Rattle.virtqueue.specs.Areas.{AreasFit, IsSized};
ghost use Rattle.virtqueue.specs.Chains.{BuffersInside};
ghost use Rattle.virtqueue.specs.Used.{used_written};
ghost use Rattle.virtio_mmio.specs.States.{queue_at};
ghost use Rattle.virtio_mmio.specs.Registers.{has_queue};
ghost use Rattle.virtio_mmio.specs.ServingLoop.{
  Act,
  state_after_use,
  chains_served,
  served,
  len_answer,
  ram_after,
  kept_after,
  one_served,
  done_answer,
  left_after,
  standing,
};

use crate::transport::Transport;
use virtqueue::{Broken, Chain, GuestRam};

/// What a device keeps beside its registers, and what it does there with a chain of its queue.
pub trait ChainHandler {
    /// How many chains it has room for at least.
    ghost room: { Self → ℕ };

    /// What it does with a chain.
    ghost act: { Act Self };

    /// Does what a chain asks, and says how many bytes it wrote into the chain's buffers, from the first on.
    ///
    /// On a malformation, of the device's own kind, nothing is changed.
    fn act<R: GuestRam>(&mut self, ram: &mut R, chain: &Chain) -> Result<u32, Broken>
        requires room { 0 < room self.old }
        requires inside { BuffersInside (length (R.bytes ram.old)) chain.now.parts }
        ensures answer { result ≡ len_answer (act (R.bytes ram.old) self.old chain.now) }
        ensures memory { R.bytes ram.new ≡ ram_after (R.bytes ram.old) (act (R.bytes ram.old) self.old chain.now) }
        ensures kept { self.new ≡ kept_after self.old (act (R.bytes ram.old) self.old chain.now) }
        ensures size { length (R.bytes ram.new) ≡ length (R.bytes ram.old) }
        ensures fixed { R.fixed ram.new ≡ R.fixed ram.old }
        ensures room { room self.old ≤ room self.new + 1 };
}

impl Transport {
    /// Puts a chain, by the index of its first descriptor, into the used ring of the queue of this number with the
    /// number of bytes that the device wrote, counts it as taken and used, and tells the driver.
    pub fn put_used<R: GuestRam>(&mut self, number: u32, ram: &mut R, head: u16, len: u32)
        requires present { IsTrue (has_queue self.old.kind number) }
        requires areas { AreasFit (queue_at self.old.state number) (length (R.bytes ram.old)) }
        requires sized { IsSized (queue_at self.old.state number) }
        ensures ring { R.bytes ram.new ≡ used_written (queue_at self.old.state number) (R.bytes ram.old) head len }
        ensures size { length (R.bytes ram.new) ≡ length (R.bytes ram.old) }
        ensures fixed { R.fixed ram.new ≡ R.fixed ram.old }
        ensures state { self.new ≡ record self.old { state = state_after_use self.old.kind number self.old.state } }
        ensures areas { AreasFit (queue_at self.new.state number) (length (R.bytes ram.new)) }
        ensures sized { IsSized (queue_at self.new.state number) }
    {
        let mut queue = self.queue(number);
        queue.put_used(ram, head, len);
        self.put_counters(number, queue.next_available, queue.next_used);
        self.signal_used();
    }

    /// Serves the queue of this number: has the handler act on each chain that is available, in turn, and puts it into
    /// the used ring.
    ///
    /// Nothing happens if the queue isn't in service. A malformation, of the queue or of a chain, takes the device out
    /// of service, and leaves the chains before it served.
    #[tactic(auto, unfolding(crate::specs::ServingLoop::served))]
    pub fn serve<R: GuestRam, H: ChainHandler>(&mut self, number: u32, ram: &mut R, handler: &mut H)
        requires room { 64 ≤ H.room handler.old }
        ensures memory { R.bytes ram.new ≡ (served self.old.kind number H.act (standing (R.bytes ram.old) self.old.state handler.old)).ram }
        ensures state { self.new ≡ record self.old
            { state = (served self.old.kind number H.act (standing (R.bytes ram.old) self.old.state handler.old)).state } }
        ensures kept { handler.new ≡ (served self.old.kind number H.act (standing (R.bytes ram.old) self.old.state handler.old)).kept }
        ensures size { length (R.bytes ram.new) ≡ length (R.bytes ram.old) }
        ensures fixed { R.fixed ram.new ≡ R.fixed ram.old }
        ensures room { H.room handler.old ≤ H.room handler.new + 64 }
    {
        let Some(queue) = self.queue_in_service(number) else {
            return;
        };
        match queue.available(ram) {
            Ok(count) => self.serve_chains(number, ram, handler, count),
            Err(_) => self.need_reset(),
        }
    }

    /// Serves so many chains in turn, up to the first that is malformed.
    fn serve_chains<R: GuestRam, H: ChainHandler>(
        &mut self,
        number: u32,
        ram: &mut R,
        handler: &mut H,
        count: u16,
    )
        requires present { IsTrue (has_queue self.old.kind number) }
        requires areas { AreasFit (queue_at self.old.state number) (length (R.bytes ram.old)) }
        requires sized { IsSized (queue_at self.old.state number) }
        requires room { count ≤ H.room handler.old }
        ensures memory { R.bytes ram.new ≡ (chains_served self.old.kind number H.act count
            (standing (R.bytes ram.old) self.old.state handler.old)).ram }
        ensures state { self.new ≡ record self.old
            { state = (chains_served self.old.kind number H.act count (standing (R.bytes ram.old) self.old.state handler.old)).state } }
        ensures kept { handler.new ≡ (chains_served self.old.kind number H.act count
            (standing (R.bytes ram.old) self.old.state handler.old)).kept }
        ensures size { length (R.bytes ram.new) ≡ length (R.bytes ram.old) }
        ensures fixed { R.fixed ram.new ≡ R.fixed ram.old }
        ensures room { H.room handler.old ≤ H.room handler.new + count }
    {
        for _done in 0..count {
            if self.serve_chain(number, ram, handler).is_err() {
                self.need_reset();
                return;
            }
        }
    }

    /// Serves the next chain. On a malformation nothing is changed.
    fn serve_chain<R: GuestRam, H: ChainHandler>(
        &mut self,
        number: u32,
        ram: &mut R,
        handler: &mut H,
    ) -> Result<(), Broken>
        requires present { IsTrue (has_queue self.old.kind number) }
        requires areas { AreasFit (queue_at self.old.state number) (length (R.bytes ram.old)) }
        requires sized { IsSized (queue_at self.old.state number) }
        requires room { 0 < H.room handler.old }
        ensures answer { result ≡ done_answer (one_served self.old.kind number H.act
            (standing (R.bytes ram.old) self.old.state handler.old)) }
        ensures memory { let s = standing (R.bytes ram.old) self.old.state handler.old in
            R.bytes ram.new ≡ (left_after s (one_served self.old.kind number H.act s)).ram }
        ensures state { let s = standing (R.bytes ram.old) self.old.state handler.old in
            self.new ≡ record self.old { state = (left_after s (one_served self.old.kind number H.act s)).state } }
        ensures kept { let s = standing (R.bytes ram.old) self.old.state handler.old in
            handler.new ≡ (left_after s (one_served self.old.kind number H.act s)).kept }
        ensures areas { AreasFit (queue_at self.new.state number) (length (R.bytes ram.new)) }
        ensures sized { IsSized (queue_at self.new.state number) }
        ensures size { length (R.bytes ram.new) ≡ length (R.bytes ram.old) }
        ensures fixed { R.fixed ram.new ≡ R.fixed ram.old }
        ensures room { H.room handler.old ≤ H.room handler.new + 1 }
    {
        let queue = self.queue(number);
        let chain = queue.chain(ram)?;
        let len = handler.act(ram, &chain)?;
        self.put_used(number, ram, chain.head(), len);
        Ok(())
    }
}
