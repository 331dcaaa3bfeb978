//! The module on a line, call by call, and in a script.
use crate::kinds::ByShape;
use crate::saying::say_answer;
use std::alloc::Global;
use std::io;
use std::sync::Wait;
use std::thread::Threads;
use strm_head::{Driver, Outcome, Request, Stream};
use strm_module::BoxedModule;
use strm_msg::{End, Message};
use strm_script::{play, print};

/// A module, in the box in which a push takes it.
fn module(alloc: Global, serial: u64) -> Option<BoxedModule<ByShape>> {
    BoxedModule::new(alloc, ByShape::sequence(serial, b"seq", (8, 2)).ok()?).ok()
}

/// Makes a call at end A, and prints its answer.
fn ask<R: Print>(
    rt: &R,
    stream: &mut Stream<ByShape>,
    word: &str,
    request: Request<BoxedModule<ByShape>>,
) -> Option<()> {
    let Outcome { answer, .. } = stream.apply(End::A, request);
    say_answer(rt, word, &answer)
}

/// Takes the module out, and prints the number of messages that were lost.
fn take_out<R: Print>(rt: &R, stream: &mut Stream<ByShape>) -> Option<()> {
    let Outcome { mut back, .. } = stream.apply(End::A, Request::Pop);
    let instance = back.pop()??;
    println!(rt; "taken out: {} lost", instance.shape().kind.lost).ok()
}

/// Plays a line on which three messages come in. The last one shows that two were lost before it.
pub fn play_calls<R: Print>(rt: &R, alloc: Global) -> Option<()> {
    let mut stream = Stream::new(alloc, Driver::Line, (16, 4), (16, 4)).ok()?;
    ask(
        rt,
        &mut stream,
        "push",
        Request::Push {
            instance: module(alloc, 1)?,
        },
    )?;
    for bytes in [b"\x00a", b"\x01b", b"\x04c"] {
        let _ = stream.arrive(Message::of_data(alloc, 0, bytes).ok()?);
    }
    ask(rt, &mut stream, "read", Request::Read { max: 16 })?;
    ask(rt, &mut stream, "str", Request::Str { cmd: 1, dat: None })?;
    take_out(rt, &mut stream)
}

/// A script of two callers on a loop, each with a module on its end, and of a line that is fed and on which
/// nobody calls.
const SCRIPT: &str = "\
stream s loop 16/4 16/4
stream l line 16/4 16/4 4
process writer
push s:b sequence far - 8/2 7
push s:a sequence near - 8/2 7
write s:a =ab
write s:a =c
process reader
read s:b 16
str s:b 1 -
feed l
data 0 =%00x
";

/// Plays a script with the module, and prints its transcript.
pub fn play_script<R: Print + Threads + Wait + Sync>(rt: &R, alloc: Global) -> Option<()> {
    let outcome = play::<ByShape, R>(rt, alloc, SCRIPT.as_bytes(), 1).ok()?;
    print(&outcome.transcript, &outcome.names, &mut io::writer(rt)).ok()
}

/// Texts that are no scripts: one has a first number of more than one byte, one a word that the vocabulary
/// does not have.
const WRONG: [&str; 2] = [
    "stream s echo 16/4 16/4\nprocess p\npush s:a sequence m - 8/2 256\n",
    "stream s echo 16/4 16/4\nprocess p\npush s:a pass m - 8/2\n",
];

/// Prints why scripts are not played: the first fault of each, with its line.
pub fn say_faults<R: Print + Threads + Wait + Sync>(rt: &R, alloc: Global) -> Option<()> {
    for script in WRONG {
        match play::<ByShape, R>(rt, alloc, script.as_bytes(), 1) {
            Ok(_) => return None,
            Err(fault) => println!(rt; "{fault}").ok()?,
        }
    }
    Some(())
}
