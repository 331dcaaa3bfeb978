//! Work that is shared out among a few threads.
ghost use Rattle.std.specs.Prelude.{◌≡◌, ◌<◌, ◌≤◌, [], All, IfOk, length, map, vec_capacity, vec_len};
ghost use Rattle.std.specs.Fork.{AcceptsJobs, GivesJobs};
ghost use Rattle.strm_run_threads.specs.JobSlots.{AreDoneBy, IsDone, IsDoneBy, IsReady};
ghost use Rattle.strm_run_threads.specs.declared.sharing.JobSlot.TheVariants.{Done, Waiting};

use crate::chunks::each_in_threads;
use std::alloc::Global;
use std::mem;
use std::thread::Threads;
use strm_msg::NoMem;

/// A job in its place, before it is done and after.
#[derive(Drop)]
enum JobSlot<J, X> {
    /// The job is to be done.
    Waiting(J),
    /// The job was done, with this result.
    Done(X),
    /// The job is being done.
    Running,
}

/// Places for these jobs, each with a job to be done. Fails only when memory runs out.
fn job_slots<J: Drop, X: Drop>(alloc: Global, jobs: Vec<J>) -> Result<Vec<JobSlot<J, X>>, NoMem>
    ensures { IfOk result (λ turns. turns.items ≡ map Waiting jobs.items) }
{
    let mut turns = Vec::with_capacity(alloc, jobs.len())?;
    for job in jobs {
        turns.push(JobSlot::Waiting(job))?;
    }
    Ok(turns)
}

/// Does a job in its place.
fn run_job<J: Drop, X: Drop, F: Fn(J) -> X>(turn: &mut JobSlot<J, X>, work: &F)
    requires { IsReady F.Fn work.now turn.old }
    ensures { IsDoneBy F.Fn work.now turn.old turn.new }
{
    if let JobSlot::Waiting(job) = mem::replace(turn, JobSlot::Running) {
        *turn = JobSlot::Done(work(job));
    }
}

/// Does jobs in their places, in at most that many threads, and waits for all threads.
fn run_jobs<R: Threads + Sync, J: Send + Drop, X: Send + Drop, F: Fn(J) -> X + Sync>(
    rt: &R,
    turns: &mut [JobSlot<J, X>],
    threads: usize,
    work: &F,
)
    requires threads { 0 < threads }
    requires ready { All (IsReady F.Fn work.now) turns.old }
    ensures { AreDoneBy F.Fn work.now turns.old turns.new }
{
    each_in_threads(
        rt,
        turns,
        threads,
        &|turn: &mut JobSlot<J, X>| run_job(turn, work),
    );
}

/// The result of a job that was done.
fn result_of<J: Drop, X>(turn: JobSlot<J, X>) -> X
    requires { IsDone turn }
    ensures { turn ≡ Done result }
{
    match turn {
        JobSlot::Done(left) => left,
        JobSlot::Waiting(_) => unreachable!(),
        JobSlot::Running => unreachable!(),
    }
}

/// The results of jobs that were done, in order. They go into room that was made for them before.
fn all_results<J: Drop, X: Drop>(mut all: Vec<X>, turns: Vec<JobSlot<J, X>>) -> Vec<X>
    requires none { all.items ≡ [] }
    requires room { length turns.items ≤ vec_capacity all }
    requires done { All IsDone turns.items }
    ensures { map Done result.items ≡ turns.items }
{
    for turn in turns {
        all.push_reserved(result_of(turn));
    }
    all
}

/// Runs `work` on each of these jobs, in at most `threads` threads, waits for all threads, and returns the
/// results in order. One thread takes neighbours, one after another. If one thread is enough, it is the
/// caller's; otherwise the caller's runs none of it.
///
/// Fails only when memory runs out, and then nothing was done. If a thread cannot be started, the caller's
/// does its work.
pub fn parallel_map<R: Threads + Sync, J: Send + Drop, X: Send + Drop, F: Fn(J) -> X + Sync>(
    rt: &R,
    alloc: Global,
    jobs: Vec<J>,
    threads: usize,
    work: &F,
) -> Result<Vec<X>, NoMem>
    requires threads { 0 < threads }
    requires work { AcceptsJobs F.Fn work.now jobs.items }
    ensures many { IfOk result (λ all. vec_len all ≡ vec_len jobs) }
    ensures each { IfOk result (λ all. GivesJobs F.Fn work.now jobs.items all.items) }
{
    let all = Vec::with_capacity(alloc, jobs.len())?;
    let mut turns = job_slots(alloc, jobs)?;
    run_jobs(rt, turns.as_mut_slice(), threads, work);
    Ok(all_results(all, turns))
}
