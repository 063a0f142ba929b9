//! The threads of a run.
ghost use Rattle.std.specs.Prelude.{◌≡◌, IfOk};
ghost use Rattle.hypervisor.specs.Opening.{AreNew, start_with};
ghost use Rattle.pair_threads.specs.Served.{AreServed};

use crate::both::both;
use crate::committing::{BackupEnds, Committing, commit_all};
use crate::epochs::{Running, run_epochs};
use crate::messages::{MOST_ANSWERS, MOST_PACKETS};
use crate::pace::UntilStopped;
use crate::sending::{SenderEnds, Sending, send_all};
use crate::sessions::{Session, serve};
use crate::signals::Signals;
use crossbeam_channel as channel;
use hypervisor::{Client, FirstBackup, Loss, Pair, Parts, Runner, Sender, UnnamedPair, Warden};
use std::alloc::{AllocError, Global};
use std::sync::{Arc, Wait};
use std::thread;
use std::thread::Threads;

/// The members of a pair who aren't clients. Who has a machine or an image stands in a box, so that no thread holds a large value.
#[derive(Drop)]
pub struct Members<P: Pair> {
    pub runner: Box<Runner<P>>,
    pub sender: Sender<P>,
    pub backup: Box<FirstBackup<P>>,
    pub warden: Warden<P>,
    pub line: Loss<P>,
}

/// A run that has ended.
#[derive(Drop)]
pub struct Ended<P: Pair, S> {
    /// The clients' sessions, in the order in which they were handed in.
    pub sessions: Vec<S>,
    /// Who says how far the pair has come, and goes on with it.
    pub warden: Warden<P>,
    /// The backup, which has committed nothing but what was sealed.
    pub backup: Box<FirstBackup<P>>,
    /// Whether no member and no session ended the run early.
    pub is_whole: bool,
}

/// Names a pair. Answers its clients, client 1 first, and its other members as their threads get them.
///
/// # Errors
///
/// [`AllocError`] where the memory for what the members share, for the list of clients or for the boxes can't be had.
pub fn members_of<P: Pair>(
    alloc: Global,
    pair: UnnamedPair,
) -> Result<(Vec<Client<P>>, Members<P>), AllocError>
    requires word { pair.word ≡ P.word }
    requires start { P.start ≡ start_with pair.guest pair.clients }
    ensures { IfOk result (λ named. AreNew P.start pair.clients named.0.items) }
{
    let Parts {
        clients,
        runner,
        sender,
        backup,
        warden,
        loss,
    } = pair.named::<P>()?;
    let backup = FirstBackup::of(backup);
    let Some((runner, backup)) = both(Box::new(alloc, runner), Box::new(alloc, backup)) else {
        return Err(AllocError);
    };
    let members = Members {
        runner,
        sender,
        backup,
        warden,
        line: loss,
    };
    Ok((clients, members))
}

/// The sender's ends of the two channels, and the backup's.
///
/// # Errors
///
/// [`AllocError`] where the memory for the channels can't be had.
fn channels<P: Pair>(alloc: Global) -> Result<(SenderEnds<P>, BackupEnds<P>), AllocError> {
    let (to_backup, from_sender) = channel::bounded(alloc, MOST_PACKETS)?;
    let (to_sender, from_backup) = channel::bounded(alloc, MOST_ANSWERS)?;
    let sender = SenderEnds {
        packets: to_backup,
        answers: from_backup,
    };
    let backup = BackupEnds {
        packets: from_sender,
        answers: to_sender,
    };
    Ok((sender, backup))
}

/// The signals of a run, and the pace that looks at them.
///
/// # Errors
///
/// [`AllocError`] where the memory for them can't be had.
fn new_signals(alloc: Global) -> Result<(Arc<Signals>, UntilStopped), AllocError> {
    let signals = Arc::new(alloc, Signals::new())?;
    let pace = UntilStopped {
        signals: Arc::try_clone(&signals)?,
    };
    Ok((signals, pace))
}

/// Runs so many epochs of at most so many steps. Runner, sender, backup and each session have a thread of their own, as far as these can be
/// made; the last session has the caller's. Answers once all threads have ended.
///
/// Where one of the three can't go on, or a session says so, all three end.
///
/// # Errors
///
/// [`AllocError`] where the memory for the channels or the lists of sessions can't be had, or one of the three has no thread.
pub fn run_members<P: Pair + Send + Sync, S: Session, R: Threads + Wait + Sync>(
    rt: &R,
    alloc: Global,
    members: Members<P>,
    epochs: u64,
    steps: u64,
    sessions: Vec<S>,
) -> Result<Ended<P, S>, AllocError>
    ensures { IfOk result (λ ended. AreServed S.served sessions.items ended.sessions.items) }
{
    let Some((channels, signals)) = both(channels::<P>(alloc), new_signals(alloc)) else {
        return Err(AllocError);
    };
    let (sender_ends, backup_ends) = channels;
    let (signals, pace) = signals;
    let Members {
        runner,
        sender,
        backup,
        warden,
        line,
    } = members;
    let running = Running {
        runner,
        epochs,
        steps,
        pace,
    };
    let sending = Sending {
        sender,
        line,
        ends: sender_ends,
    };
    let committing = Committing {
        alloc,
        backup,
        ends: backup_ends,
    };
    let (served, backup) = run_threads(rt, running, sending, committing, sessions, &signals)?;
    Ok(Ended {
        sessions: served,
        warden,
        backup,
        is_whole: !signals.is_stopped(),
    })
}

/// Runs the three in threads of their own, and serves the sessions. Answers the sessions and the backup, once all threads have ended.
///
/// # Errors
///
/// [`AllocError`] where the memory for the lists of sessions can't be had, or one of the three has no thread.
fn run_threads<P: Pair + Send + Sync, S: Session, R: Threads + Wait + Sync>(
    rt: &R,
    running: Running<P>,
    sending: Sending<P>,
    committing: Committing<P>,
    sessions: Vec<S>,
    signals: &Signals,
) -> Result<(Vec<S>, Box<FirstBackup<P>>), AllocError>
    ensures { IfOk result (λ done. AreServed S.served sessions.items done.0.items) }
{
    thread::scope(
        thread::scope_env(),
        rt,
        move |scope| -> Result<(Vec<S>, Box<FirstBackup<P>>), AllocError>
            ensures { IfOk result (λ done. AreServed S.served sessions.items done.0.items) }
        {
            let has_runner = scope.spawn(move || run_epochs(rt, running)).is_ok();
            let has_sender = scope.spawn(move || send_all(rt, sending, signals)).is_ok();
            let Ok(committing) = scope.spawn(move || commit_all(rt, committing, signals)) else {
                signals.stop();
                return Err(AllocError);
            };
            if !(has_runner && has_sender) {
                signals.stop();
                return Err(AllocError);
            }
            let served = serve_all(rt, sessions, signals);
            if served.is_err() {
                signals.stop();
            }
            let backup = committing.join(rt);
            match served {
                Ok(sessions) => Ok((sessions, backup)),
                Err(why) => {
                    // By a call: else the proof would go over every part of it here.
                    drop(backup);
                    Err(why)
                }
            }
        },
    )
}

/// Serves each session, in a thread of its own where one can be made.
///
/// # Errors
///
/// [`AllocError`] where the memory for the lists of sessions can't be had.
fn serve_all<S: Session, R: Threads + Wait + Sync>(
    rt: &R,
    sessions: Vec<S>,
    signals: &Signals,
) -> Result<Vec<S>, AllocError>
    ensures { IfOk result (λ done. AreServed S.served sessions.items done.items) }
{
    thread::map_vec(rt, sessions, &|session| serve(rt, session, signals))
}
