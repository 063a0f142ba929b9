//! What files of a run say, and what is printed of a run.
use super::asserts::{holds, is_text};
use pair_record::Reply;
use pair_run::{Action, Answered, ClientLine, RunFile, Unread, read_run, write_run};
use script_player::streams::CheckedWriter;
use std::alloc::Global;
use std::process::Abort;
use std::test::Fail;

/// The number of the bad line of this file, where one is bad.
fn bad_line(alloc: Global, source: &[u8]) -> Option<u64> {
    match read_run(alloc, source) {
        Err(Unread::Bad(number)) => Some(number),
        Ok(_) => None,
        Err(Unread::NoMemory(_)) => None,
    }
}

/// The line of this number is the file's bad one.
fn assert_bad(rt: &impl Abort, alloc: Global, source: &[u8], number: u64) {
    holds(rt, "the bad line", bad_line(alloc, source) == Some(number));
}

#[test]
fn bad_lines_of_a_file_of_a_run(rt: HostRuntime) {
    static ROWS: [(&[u8], u64); 16] = [
        (b"", 1),
        (b"boot 2 1 1 idle", 1),
        (b"boot 2 1 1 idle\n", 2),
        (b"# none\n\nboot 2 1 1 idle\n\n", 5),
        (b"epochs 0 0\n", 1),
        (b"boot 1 1 1 beacon\nepochs 0 0\n", 1),
        (b"boot 2 1 1 idle\nepochs 0\n", 2),
        (b"boot 2 1 1 idle\nepochs 0 0 0\n", 2),
        (b"boot 2 1 1 idle\nclient 1 take\n", 2),
        (b"boot 2 1 1 idle\nepochs 0 0\nepochs 0 0\n", 3),
        (b"boot 2 1 2 idle\nepochs 0 0\nclient 0 take\n", 3),
        (b"boot 2 1 2 idle\nepochs 0 0\nclient 3 take\n", 3),
        (
            b"boot 2 1 2 idle\nepochs 0 0\nclient 2 take\nclient 1 take\nclient 02 take\n",
            5,
        ),
        (b"boot 2 1 2 idle\nepochs 0 0\nclient 1\n", 3),
        (b"boot 2 1 2 idle\nepochs 0 0\nclient 1 take \n", 3),
        (
            b"boot 2 1 2 idle\nepochs 0 0\nclient 1 take deliver:0A\n",
            3,
        ),
    ];
    for (source, number) in &ROWS {
        assert_bad(&rt, rt.alloc(), source, *number);
    }
}

/// Whether a client's line is of this client, and has as many actions.
fn is_line(line: &ClientLine, client: u64, actions: usize) -> bool {
    line.client == client && line.actions.len() == actions
}

/// Whether an action delivers these bytes.
fn delivers(action: &Action, bytes: &[u8]) -> bool {
    match action {
        Action::Take => false,
        Action::Deliver(delivered) => delivered.as_slice() == bytes,
    }
}

/// Whether a file says two epochs of 22 steps, and what two clients do.
fn is_two_clients(file: &RunFile) -> bool {
    let [second, first] = file.clients.as_slice() else {
        return false;
    };
    let [delivery, _] = second.actions.as_slice() else {
        return false;
    };
    file.epochs == 2
        && file.steps == 22
        && is_line(second, 2, 2)
        && is_line(first, 1, 1)
        && delivers(delivery, &[0xab, 0])
}

#[test]
fn a_file_of_two_clients(rt: HostRuntime) -> Result<(), Fail> {
    let source =
        b"# two\nboot 2 1 2 idle\n\nepochs 2 022\nclient 2 deliver:ab00 take\n#\nclient 01 take";
    match read_run(rt.alloc(), source) {
        Ok(file) => {
            holds(&rt, "two clients", is_two_clients(&file));
            Ok(())
        }
        Err(_) => Err("it isn't read".into()),
    }
}

#[test]
fn a_run_is_printed(rt: HostRuntime) -> Result<(), Fail> {
    let replies = Vec::from_array(rt.alloc(), [Reply::Delivered(1), Reply::Took(None)])?;
    let clients = [Answered { client: 1, replies }];
    let mut out = CheckedWriter::new(Vec::new(rt.alloc()));
    holds(
        &rt,
        "it is written",
        write_run(&clients, 2, &mut out).is_ok(),
    );
    let wanted = "client 1\ndelivered 1\nnone\nentries 2\n";
    is_text(&rt, out.inner.as_slice(), wanted);
    Ok(())
}
