//! Work in threads of its own.
ghost use Rattle.std.specs.Prelude.{◌≡◌, ◌+◌, length, IfOk, IsOk, OnOk};
ghost use Rattle.std.specs.Thread.{IsSend, IsSync};

use std::alloc::Global;
use std::sync::Wait;
use std::thread;
use std::thread::Threads;
use strm_msg::NoMem;

/// The earlier results with one more; or out of memory, if it was met before or is met now.
fn with_one<T: Drop>(before: Result<Vec<T>, NoMem>, one: T) -> Result<Vec<T>, NoMem>
    ensures one { IfOk result (λ more. IfOk before (λ all. length more.items ≡ length all.items + 1)) }
    ensures met { OnOk result (IsOk before) }
{
    let mut all = before?;
    all.push(one)?;
    Ok(all)
}

/// Runs `work` on each of these in a thread of its own, and meanwhile `here` in the caller's thread, and
/// waits for all threads that were started. Returns the result of each, in order, and that of `here`. Only
/// the type is known of a thread's result.
///
/// Fails when memory runs out or a thread cannot be started. Then no more threads are started, and `here` is
/// not run, unless memory ran out for the results. Also then each thread that was started is waited for, and
/// its result is dropped.
pub fn run_alongside<
    R: Threads + Wait + Sync,
    W: Send + Drop,
    T: Send + Drop,
    F: Fn(W) -> T + Sync,
    A: Drop,
    H: FnOnce() -> A,
>(rt: &R, alloc: Global, all: Vec<W>, work: &F, here: H) -> Result<(Vec<T>, A), NoMem>
    requires work { (one : W) → F.pre work.now one }
    requires here { H.pre here }
    ensures many { IfOk result (λ both. length both.0.items ≡ length all.items) }
    ensures here { IfOk result (λ both. H.post here both.1) }
{
    thread::scope(
        thread::scope_env(),
        rt,
        |scope| -> Result<(Vec<T>, A), NoMem>
            requires { IsSync R.row × IsSend W.row × IsSend T.row × IsSync F.row × ((one : W) → F.pre work.now one) × H.pre here }
            ensures many { IfOk result (λ both. length both.0.items ≡ length all.items) }
            ensures here { IfOk result (λ both. H.post here both.1) }
        {
            let mut handles = Vec::new(alloc);
            let mut is_short = false;
            for one in all {
                let Ok(()) = handles.reserve(1) else {
                    is_short = true;
                    break;
                };
                let Ok(handle) = scope.spawn(
                    move || -> T
                        requires { (one : W) → F.pre work.now one }
                    { work(one) },
                ) else {
                    is_short = true;
                    break;
                };
                handles.push_reserved(handle);
            }
            let mine = if is_short { Err(NoMem) } else { Ok(here()) };
            // A handle that is dropped loses the result of its thread. So each is joined, also if memory ran
            // out.
            let mut left = Ok(Vec::new(alloc));
            for handle in handles {
                left = with_one(left, handle.join(rt));
            }
            Ok((left?, mine?))
        },
    )
}
