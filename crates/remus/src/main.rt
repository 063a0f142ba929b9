//! The programs of the pair.
#![tactic(auto)]

use command_line::Invocation;
use node_player::host::serve as serve_node;
use pair_core::Shape;
use pair_threads::run as run_pair;
use script_player::check_stream::check_stream;
use script_player::live::live;
use script_player::sim::sim;
use script_player::streams::{CheckedReader, CheckedWriter};
use std::alloc::Global;
use std::io::BufWriter;
use std::process::ExitCode;
use std::sync::Wait;
use std::thread::Threads;
use std::{env, fs, io};

/// The exit status of a refusal.
const REFUSED: u8 = 1;

/// The exit status of a bad command line.
const BAD_COMMAND_LINE: u8 = 2;

/// The largest block, in bytes, that [`keep_freed`] can have the C library keep: it is to be smaller than glibc's
/// `DEFAULT_MMAP_THRESHOLD_MAX`, 32 MiB, with what stands before it and in whole pages.
const LARGEST_KEPT: usize = (32 << 20) - 2 * 4096;

fn main(rt: HostRuntime) -> ExitCode {
    keep_freed(rt.alloc());
    match run(&rt, &rt) {
        Ok(status) => ExitCode::from(status),
        Err(_) => ExitCode::from(REFUSED),
    }
}

/// Has the C library keep what is given back to it and give it out again. It would go back to the system, which takes longer to give out a
/// page than an epoch takes to fill it. glibc keeps blocks up to the size of the largest that was given back (mallopt(3),
/// `M_MMAP_THRESHOLD`), so one is taken and given back. Nothing is written to it, so it costs no memory.
fn keep_freed(alloc: Global) {
    let _block = Vec::<u8>::with_capacity(alloc, LARGEST_KEPT);
}

/// Does what the command line asks for, if need be in threads. Answers the exit status.
fn run<T: Threads + Wait + Sync>(rt: &HostRuntime, threads: &T) -> io::Result<u8> {
    let Ok(words) = arguments(rt) else {
        return refuse_command_line(rt);
    };
    match command_line::read(rt.alloc(), words.as_slice()) {
        Some(Invocation::Sim(file)) => play_script(rt, file),
        Some(Invocation::Run(file)) => run_file(rt, threads, file),
        Some(Invocation::CheckStream(file, shape)) => list_stream(rt, file, shape),
        Some(Invocation::Live) => Ok(play_lines(rt)),
        Some(Invocation::Node) => Ok(play_node(rt)),
        None => refuse_command_line(rt),
    }
}

/// Plays the script of this file. Answers the exit status.
fn play_script(rt: &HostRuntime, file: &str) -> io::Result<u8> {
    let alloc = rt.alloc();
    let Ok(source) = fs::read(rt, file) else {
        return refuse_file(rt, file);
    };
    let Ok(out) = BufWriter::new(alloc, rt.stdout()) else {
        return refuse_memory(rt);
    };
    let mut out = CheckedWriter::new(out);
    let mut err = CheckedWriter::new(rt.stderr());
    Ok(sim(alloc, source.as_slice(), &mut out, &mut err))
}

/// Runs the pair of this file in threads. Answers the exit status.
fn run_file<T: Threads + Wait + Sync>(rt: &HostRuntime, threads: &T, file: &str) -> io::Result<u8> {
    let alloc = rt.alloc();
    let Ok(source) = fs::read(rt, file) else {
        return refuse_file(rt, file);
    };
    let Ok(out) = BufWriter::new(alloc, rt.stdout()) else {
        return refuse_memory(rt);
    };
    let mut out = CheckedWriter::new(out);
    let mut err = CheckedWriter::new(rt.stderr());
    Ok(run_pair(threads, alloc, source.as_slice(), &mut out, &mut err))
}

/// Plays the lines of standard input as they come. Answers the exit status. Nothing stands between an answer and standard output.
fn play_lines(rt: &HostRuntime) -> u8 {
    let mut input = CheckedReader::new(rt.stdin());
    let mut out = CheckedWriter::new(rt.stdout());
    live(rt.alloc(), &mut input, &mut out)
}

/// Plays the lines of one host as they come on standard input. Answers the exit status. Nothing stands between an answer and standard
/// output.
fn play_node(rt: &HostRuntime) -> u8 {
    let mut input = CheckedReader::new(rt.stdin());
    let mut out = CheckedWriter::new(rt.stdout());
    serve_node(rt.alloc(), &mut input, &mut out)
}

/// Lists the checkpoints of this file. Answers the exit status.
fn list_stream(rt: &HostRuntime, file: &str, shape: Shape) -> io::Result<u8> {
    let alloc = rt.alloc();
    let Ok(source) = fs::read(rt, file) else {
        return refuse_file(rt, file);
    };
    let Ok(out) = BufWriter::new(alloc, rt.stdout()) else {
        return refuse_memory(rt);
    };
    let mut out = CheckedWriter::new(out);
    Ok(check_stream(alloc, source.as_slice(), shape, &mut out))
}

/// Answers the status of a file that can't be read, and says that it can't.
fn refuse_file(rt: &HostRuntime, file: &str) -> io::Result<u8> {
    eprintln!(rt; "remus: cannot read {file}")?;
    Ok(REFUSED)
}

/// Answers the status where there is no memory to begin with, and prints the refusal.
fn refuse_memory(rt: &HostRuntime) -> io::Result<u8> {
    println!(rt; "refused 12 NoMemory")?;
    Ok(REFUSED)
}

/// The words of the command line. One that is no text is an error.
fn arguments(rt: &HostRuntime) -> io::Result<Vec<String>> {
    let words = env::args(rt)?.collect(rt.alloc())?;
    Ok(words)
}

/// Answers the status of a bad command line, and says that it is one.
fn refuse_command_line(rt: &HostRuntime) -> io::Result<u8> {
    eprintln!(rt; "remus: bad command line")?;
    Ok(BAD_COMMAND_LINE)
}
