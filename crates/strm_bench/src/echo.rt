//! A discipline that echoes, as a terminal on one end of a loop and over a wire. Data that is typed comes up,
//! and goes back.
use port_echo::ByShape;
use std::alloc::Global;
use strm_head::{Answer, Arrived, Driver, Outcome, Reply, Request, Stream};
use strm_module::BoxedModule;
use strm_msg::{Bytes, End, Message};

/// The marks of each queue, which is full at 5 bytes and slack at 4.
const MARKS: (u32, u32) = (5, 4);

/// A stream with the discipline on end A.
fn terminal(alloc: Global, driver: Driver) -> anyhow::Result<Stream<ByShape>> {
    let mut stream = Stream::new(alloc, driver, MARKS, MARKS)?;
    let instance = BoxedModule::new(alloc, ByShape::echoing(alloc, 1, b"echo", MARKS)?)?;
    let Outcome { answer, .. } = stream.apply(End::A, Request::Push { instance });
    anyhow::ensure!(answer == Answer::Done(Reply::Push), "the push was refused");
    Ok(stream)
}

/// Prints the answer of a call.
fn say<R: Print>(rt: &R, word: &str, answer: &Answer) -> anyhow::Result<()> {
    match answer {
        Answer::Done(Reply::Read { dat }) => println!(rt; "{word}: {dat:?}")?,
        Answer::Done(Reply::Message { m }) => println!(rt; "{word}: {:?}", m.dat)?,
        Answer::Done(_) => println!(rt; "{word}: done")?,
        Answer::Refused(refusal) => println!(rt; "{word}: {refusal}")?,
        Answer::Broke => println!(rt; "{word}: the stream broke")?,
    }
    Ok(())
}

/// Makes a call, and prints its answer.
fn ask<R: Print>(
    rt: &R,
    stream: &mut Stream<ByShape>,
    (word, end): (&str, End),
    request: Request<BoxedModule<ByShape>>,
) -> anyhow::Result<()> {
    let Outcome { answer, .. } = stream.apply(end, request);
    say(rt, word, &answer)
}

/// Hands a message of data in from outside.
fn comes_in<R: Print + AllocGlobal>(
    rt: &R,
    stream: &mut Stream<ByShape>,
    bytes: &[u8],
) -> anyhow::Result<()> {
    let arrived = match stream.arrive(Message::of_data(rt.alloc(), 0, bytes)?) {
        Arrived::Taken { .. } => "taken",
        Arrived::Full(_) => "full",
        Arrived::NoMem(_) => "no memory",
        Arrived::Broke => "the stream broke",
    };
    println!(rt; "typed: {arrived}")?;
    Ok(())
}

/// Plays data that is typed at end B of a loop: it comes up end A, and its echo end B.
fn play_on_a_loop<R: Print + AllocGlobal>(rt: &R) -> anyhow::Result<()> {
    let alloc = rt.alloc();
    let mut stream = terminal(alloc, Driver::Loop)?;
    let dat = Bytes::from_slice(alloc, b"ab")?;
    ask(rt, &mut stream, ("write b", End::B), Request::Write { dat })?;
    ask(
        rt,
        &mut stream,
        ("read a", End::A),
        Request::Read { max: 16 },
    )?;
    ask(
        rt,
        &mut stream,
        ("read b", End::B),
        Request::Read { max: 16 },
    )
}

/// Plays data that is typed while the earlier echoes are not taken: it waits behind a window, and its echo
/// goes before data that was written.
fn play_over_a_wire<R: Print + AllocGlobal>(rt: &R) -> anyhow::Result<()> {
    let alloc = rt.alloc();
    let mut stream = terminal(alloc, Driver::Wire)?;
    for bytes in [b"abcd".as_slice(), b"efgh", b"ijkl", b"m"] {
        comes_in(rt, &mut stream, bytes)?;
        ask(
            rt,
            &mut stream,
            ("read a", End::A),
            Request::Read { max: 16 },
        )?;
    }
    let dat = Bytes::from_slice(alloc, b"x")?;
    ask(rt, &mut stream, ("write a", End::A), Request::Write { dat })?;
    for _ in 0..6 {
        ask(rt, &mut stream, ("take a", End::A), Request::Take)?;
    }
    ask(
        rt,
        &mut stream,
        ("read a", End::A),
        Request::Read { max: 16 },
    )
}

/// Plays a terminal on a loop, and one over a wire.
pub fn play<R: Print + AllocGlobal>(rt: &R) -> anyhow::Result<()> {
    play_on_a_loop(rt)?;
    play_over_a_wire(rt)
}
