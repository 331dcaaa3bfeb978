//! A short exchange, and its chart.
ghost use Rattle.strm_run_callers.specs.Run.{CallsFit};

use port_arq_module::ByShape;
use std::alloc::Global;
use std::io;
use std::sync::Wait;
use std::thread::Threads;
use strm_head_calls::SameKind;
use strm_script::{Outcome, PlayModule, PrintKind, ReadKind, chart, play, unmet};

/// Two messages, of which the link doubles the first and loses the second. The acknowledgement of the first
/// comes back. Then the timer runs out, and the second is sent again.
const EXCHANGE: &str = "\
stream near wire 64/16 64/16 8
stream far wire 64/16 64/16 8
link out near far acts dxk
link back far near
process p
push near:a arq end - 64/16 2 3
push far:a arq end - 64/16 2 3
write near:a =A
write near:a =B
carry out 2
carry back
tick near:a 3
carry out
read far:a 9 : =AB
";

/// Plays a script, and prints its chart if each reply is the expected one.
fn draw<M: PlayModule, R: Print + Threads + Wait + Sync>(
    rt: &R,
    alloc: Global,
    script: &str,
) -> Option<()>
where
    M::Kind: ReadKind + PrintKind + SameKind + Send + Sync,
    requires { CallsFit M.row M.Kind.row M.Kind.Kinds }
{
    let Outcome {
        names,
        transcript,
        expected,
    } = play::<M, R>(rt, alloc, script.as_bytes(), 1).ok()?;
    if !unmet(alloc, &transcript, expected).ok()?.is_empty() {
        return None;
    }
    chart(&transcript, &names, &mut io::writer(rt)).ok()
}

/// Plays the short exchange, and prints its chart.
pub fn draw_exchange<R: Print + Threads + Wait + Sync>(rt: &R, alloc: Global) -> Option<()> {
    draw::<ByShape, R>(rt, alloc, EXCHANGE)
}
