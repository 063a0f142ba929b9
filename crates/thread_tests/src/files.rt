//! What is printed of files that are run.

use super::asserts::{is_text, same};
use pair_threads::run;
use script_player::streams::CheckedWriter;
use std::process::Abort;
use std::sync::Wait;
use std::test::*;
use std::thread::Threads;

/// Runs a file, and compares all that is printed, and the status.
fn runs<R: Threads + Wait + Abort + AllocGlobal + Sync>(
    rt: &R,
    source: &[u8],
    printed: &str,
    said: &str,
    status: u8,
) {
    let mut out = CheckedWriter::new(Vec::new(rt.alloc()));
    let mut err = CheckedWriter::new(Vec::new(rt.alloc()));
    let came = run(rt, rt.alloc(), source, &mut out, &mut err);
    is_text(rt, out.inner.as_slice(), printed);
    is_text(rt, err.inner.as_slice(), said);
    same(rt, "the status", came.into(), status.into());
}

#[test]
fn a_client_delivers_and_takes(rt: HostRuntime) {
    runs(
        &rt,
        b"boot 2 1 1 idle\nepochs 0 0\nclient 1 deliver:02000000010102000000000188b5 take\n",
        "client 1\ndelivered 1\nnone\nentries 2\n",
        "",
        0,
    );
}

#[test]
fn a_beacons_frame_lands(rt: HostRuntime) {
    // 22 steps, and the frame that lands.
    runs(
        &rt,
        b"boot 2 1 1 beacon\nepochs 1 22\n",
        "entries 23\n",
        "",
        0,
    );
    runs(
        &rt,
        b"boot 2 1 1 beacon\nepochs 22 1\n",
        "entries 23\n",
        "",
        0,
    );
}

#[test]
fn a_bad_line_starts_nothing(rt: HostRuntime) {
    runs(&rt, b"boot 2 1 1 idle\n", "", "remus: line 2: bad\n", 1);
}
