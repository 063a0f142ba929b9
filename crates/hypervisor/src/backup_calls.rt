//! What a backup calls at the book, which is lent to it, and how its image takes a checkpoint in.
ghost use Rattle.std.specs.Prelude.{◌≡◌, ℕ, ◌+◌, ◌<◌, true, not, IfOk, OnOk, IfErr, OnErr, IfSome, IsSome, None, Some, Ok, nat_lt, option_map};
ghost use Rattle.std.specs.List.{Contains};
ghost use Rattle.backup_image.specs.Images.{stage_answer};
ghost use Rattle.backup_image.specs.Kept.{sent_with, first_kept};
ghost use Rattle.backup_image.specs.Limits.{number_limit};
ghost use Rattle.backup_image.specs.declared.standing.Staged.TheVariants.{New};
ghost use Rattle.pair_record.specs.declared.event.Reply.TheVariants as replies;
ghost use Rattle.pair_record.specs.Kept.{brought_done, ports_after_brought};
ghost use Rattle.pair_book.specs.Calls.{IsWhy};
ghost use Rattle.pair_book.specs.Commits.{WasRead, is_earlier, AfterCommit};
ghost use Rattle.pair_book.specs.GoingLive.{GoesLive, go_live_why};
ghost use Rattle.pair_book.specs.Packets.{no_texts};
ghost use Rattle.pair_book.specs.Made.{IsShape};
ghost use Rattle.hypervisor.specs.Backups.{ImageStands, kept_of};
ghost use Rattle.hypervisor.specs.Commits.{why_not, image_after, AtBook, MayRefuseCommit};
ghost use Rattle.hypervisor.specs.GoingLive.{GoesLiveWith, live_refusals};

use backup_image::{Image, NUMBER_LIMIT, Staged};
use epoch_snapshot::Checkpoint;
use growing_history::{BackupSeat, Clock, Pair, RunnerSeat, steps_go_on};
use pair_book::{Ack, Book, Refusal};

/// What is acknowledged, and whether the checkpoint was the next one; else it was an earlier one, and nothing happened.
pub(crate) struct Committed {
    pub(crate) ack: Ack,
    pub(crate) is_next: bool,
}

/// Whether the image has numbers for this checkpoint's frames.
fn has_numbers(image: &Image, checkpoint: &Checkpoint) -> bool
    ensures { result ≡ nat_lt (sent_with checkpoint.now image.now.sent) number_limit }
{
    let frames = checkpoint.frames().len() as u64;
    let before = if checkpoint.is_full() {
        0
    } else {
        image.kept().sent()
    };
    before + frames < NUMBER_LIMIT
}

/// Why the commit of this checkpoint is refused to the backup with this image.
fn refusal<P: Pair>(
    book: &Book<P>,
    seat: &BackupSeat<P>,
    image: &Image,
    checkpoint: &Checkpoint,
) -> Option<Refusal>
    ensures { result ≡ why_not P.start book.now seat.now.number image.now (Some checkpoint.now) }
{
    if let Some(why) = book.commit_refusal(seat, Some(checkpoint)) {
        return Some(why);
    }
    if !book.is_earlier(checkpoint) && !has_numbers(image, checkpoint) {
        return Some(Refusal::Exhausted);
    }
    None
}

/// The backup with this image commits what it has read, as [`Book::commit`] says. Where nothing else refuses it, but the image has no
/// numbers for its frames, it is refused as Exhausted: so the image can take in what is committed.
pub(crate) fn commit<P: Pair>(
    book: &mut Book<P>,
    clock: &Clock<P>,
    seat: &mut BackupSeat<P>,
    image: &Image,
    read: Option<&Checkpoint>,
) -> Result<Committed, Refusal>
    requires shape { IsShape P.start image.now.shape }
    requires same_shape { IfSome read (λ c. c.now.shape ≡ image.now.shape) }
    requires was_read { IfSome read (λ c. WasRead c.now) }
    requires stands { ImageStands P.start seat.old image.now }
    ensures some { OnOk result (IsSome read.entry) }
    // What it does at the book, and why it is refused there.
    ensures which { IfOk result (λ done. IfSome read.entry (λ c. done.is_next ≡ not (is_earlier book.old c.now))) }
    ensures book { IfOk result (λ done. IfSome read.entry (λ c. AfterCommit c.now done.ack book.old book.new seat.old seat.new)) }
    ensures texts { book.new.texts ≡ book.old.texts }
    ensures row { IfErr result (IsWhy (why_not P.start book.old seat.old.number image.now (option_map (λ c. c.now) read.entry))) }
    ensures kept { OnErr result (book.new ≡ book.old) }
    ensures done { IfOk result (λ done. IfSome read.entry (λ c. AtBook done.is_next P.start c.now done.ack image.now seat.old seat.new)) }
    // The backup stands, once its image has taken that in.
    ensures stands { IfOk result (λ done.
        ImageStands P.start seat.new (image_after done.is_next image.now (option_map (λ c. c.now) read.entry))) }
    ensures why { IfErr result (MayRefuseCommit (option_map (λ c. c.now) read.entry)) }
    ensures refused { OnErr result (seat.new ≡ seat.old) }
{
    let Some(checkpoint) = read else {
        let _none = book.commit(clock, seat, None)?;
        unreachable!();
    };
    if let Some(why) = refusal(book, seat, image, checkpoint) {
        return Err(why);
    }
    let is_next = !book.is_earlier(checkpoint);
    let ack = book.commit(clock, seat, Some(checkpoint))?;
    book.keep();
    Ok(Committed { ack, is_next })
}

/// What was read is given up once it is committed, and where it is the image's next checkpoint, as the caller knows, the image takes it in.
pub(crate) fn take_in(is_next: bool, image: &mut Image, read: &mut Option<Checkpoint>)
    requires unstaged { image.old.staged ≡ None }
    requires shape { IfSome read.old (λ c. c.shape ≡ image.old.shape) }
    requires new { is_next ≡ true → IfSome read.old (λ c. stage_answer image.old c ≡ Ok New) }
    ensures image { image.new ≡ image_after is_next image.old read.old }
    ensures read { read.new ≡ None }
{
    match read.take() {
        Some(checkpoint) if is_next => {
            let _new = image.stage(checkpoint);
            image.commit();
        }
        Some(checkpoint) => drop(checkpoint),
        None => {}
    }
}

/// The backup of this image goes live, as [`Book::go_live`] says. It hands over the frames that the image keeps.
pub(crate) fn go_live<P: Pair>(
    book: &mut Book<P>,
    clock: &Clock<P>,
    seat: &mut BackupSeat<P>,
    image: &Image,
) -> Result<RunnerSeat<P>, Refusal>
    requires stands { ImageStands P.start seat.old image.now }
    ensures live { IfOk result (GoesLiveWith P.start image.now seat.old) }
    ensures why { IfErr result (Contains live_refusals) }
    ensures refused { OnErr result (seat.new ≡ seat.old) }
    // What it does at the book, however many steps the backup's guest has made, and why it is refused there.
    ensures done { OnOk result ((steps : ℕ) → (replies.Live (book.old.protocol.generation + 1) steps, book.new.protocol)
        ≡ brought_done book.old.protocol book.old.ports (first_kept (kept_of image.now)) image.now.kept steps) }
    ensures ports { OnOk result (book.new.ports
        ≡ ports_after_brought book.old.ports book.old.protocol (first_kept (kept_of image.now)) image.now.kept) }
    ensures texts { OnOk result (book.new.texts ≡ no_texts) }
    ensures step { OnOk result (GoesLive book.old book.new seat.old seat.new) }
    ensures runner { IfOk result (λ runner. runner ≡ record { number = book.new.enrolled; steps = book.new.steps }) }
    ensures free { OnOk result (go_live_why P.start book.old seat.old.number (first_kept (kept_of image.now)) image.now.kept ≡ None) }
    ensures row { IfErr result (IsWhy (go_live_why P.start book.old seat.old.number (first_kept (kept_of image.now)) image.now.kept)) }
    ensures kept { OnErr result (book.new ≡ book.old) }
{
    steps_go_on();
    let kept = image.kept();
    let runner = book.go_live(clock, seat, kept.first(), kept.epochs())?;
    book.keep();
    Ok(runner)
}
