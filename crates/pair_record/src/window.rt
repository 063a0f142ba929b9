//! The numbers of the checkpoints that are under way.
ghost use Rattle.std.specs.Prelude.{◌≡◌, ◌+◌, ◌-◌, ◌^◌, ◌<◌};
ghost use Rattle.pair_record.specs.Window.{start_window, with_cut, with_commit, with_acknowledged};
ghost use Rattle.pair_record.specs.Window.{none_pending as none_pending_from};

/// The numbers of the next checkpoint to be cut, to be committed and to be acknowledged.
#[derive(Clone, Copy)]
pub struct Window {
    /// The next one to be cut.
    pub to_cut: u64,
    /// The next one to be committed.
    pub to_commit: u64,
    /// The next one to be acknowledged.
    pub to_acknowledge: u64,
}

impl Window {
    /// At the start: the boot image counts as checkpoint 0, committed and acknowledged.
    pub(crate) fn new() -> Window
        ensures { result ≡ start_window }
    {
        Window {
            to_cut: 1,
            to_commit: 1,
            to_acknowledge: 1,
        }
    }

    /// None is pending, and the next one has this number.
    pub(crate) fn none_pending(number: u64) -> Window
        ensures { result ≡ none_pending_from number }
    {
        Window {
            to_cut: number,
            to_commit: number,
            to_acknowledge: number,
        }
    }

    /// One more checkpoint was cut.
    pub(crate) fn cut(&mut self)
        requires { self.old.to_cut < 2 ^ 62 }
        ensures { self.new ≡ with_cut self.old }
    {
        self.to_cut += 1;
    }

    /// The next checkpoint was committed.
    pub(crate) fn commit(&mut self)
        requires { self.old.to_commit < 2 ^ 62 }
        ensures { self.new ≡ with_commit self.old }
    {
        self.to_commit += 1;
    }

    /// The checkpoints up to this number were acknowledged.
    pub(crate) fn acknowledge(&mut self, number: u64)
        requires { number < 2 ^ 62 }
        ensures { self.new ≡ with_acknowledged number self.old }
    {
        if self.to_acknowledge <= number {
            self.to_acknowledge = number + 1;
        }
    }
}
