//! Work on values in place, each portion of them by a thread of its own.
ghost use Rattle.std.specs.Prelude.{◌<◌, All};
ghost use Rattle.std.specs.Thread.{IsSend, IsSync};
ghost use Rattle.strm_run_threads.specs.Chunks.{Accepts, AreChanged, Changes};

use std::thread;
use std::thread::Threads;

/// Runs `work` on a value in place.
fn on_one<T, F: Fn(&mut T)>(work: &F, one: &mut T)
    requires { Accepts F.Fn work.now one.old }
    ensures { Changes F.Fn work.now one.old one.new }
{
    work(one);
}

/// Runs `work` on each of these values in place, one after another.
fn each_in_order<R: Threads + Sync, T: Send, F: Fn(&mut T) + Sync>(rt: &R, work: &F, all: &mut [T])
    requires { All (Accepts F.Fn work.now) all.old }
    ensures { AreChanged F.Fn work.now all.old all.new }
{
    thread::for_each_mut(rt, all, 1, &|_, one: &mut T| on_one(work, one));
}

/// Runs `work` on each of these values in place. Each `size` neighbours have a thread of their own. Waits for
/// all threads.
#[cycle(portions)]
fn each_in_chunks<R: Threads + Sync, T: Send, F: Fn(&mut T) + Sync>(
    rt: &R,
    work: &F,
    size: usize,
    all: &mut [T],
)
    requires size { 0 < size }
    requires accepts { All (Accepts F.Fn work.now) all.old }
    ensures { AreChanged F.Fn work.now all.old all.new }
{
    if all.is_empty() {
        return;
    }
    let (near, far) = all.split_at_mut(size.min(all.len()));
    chunk_and_rest(rt, work, size, near, far);
}

/// Runs `work` on each of the near values in a thread of their own, and on the far ones in others. This
/// thread only starts them.
#[cycle(portions)]
fn chunk_and_rest<R: Threads + Sync, T: Send, F: Fn(&mut T) + Sync>(
    rt: &R,
    work: &F,
    size: usize,
    near: &mut [T],
    far: &mut [T],
)
    requires size { 0 < size }
    requires near { All (Accepts F.Fn work.now) near.old }
    requires far { All (Accepts F.Fn work.now) far.old }
    ensures near { AreChanged F.Fn work.now near.old near.new }
    ensures far { AreChanged F.Fn work.now far.old far.new }
{
    let mut there = ||
        requires { IsSync R.row × IsSync F.row × IsSend T.row × All (Accepts F.Fn work.now) near.now }
        ensures { AreChanged F.Fn work.entry.now near.entry.now near.exit.now }
    { each_in_order(rt, work, near) };
    let mut beyond = ||
        requires { IsSync R.row × IsSync F.row × IsSend T.row × All (Accepts F.Fn work.now) far.now × (0 < size) }
        ensures { AreChanged F.Fn work.entry.now far.entry.now far.exit.now }
    { each_in_chunks(rt, work, size, far) };
    thread::join_mut(rt, &mut there, &mut beyond);
}

/// Runs `work` on each of these values in place, in at most that many threads, and waits for all threads. One
/// thread takes neighbours, one after another. If one thread is enough, it is the caller's.
///
/// Otherwise the caller's thread runs none of it, but starts the others and waits: a thread may have to wait
/// for the processor of the one that starts it, if that has work of its own.
pub(crate) fn each_in_threads<R: Threads + Sync, T: Send, F: Fn(&mut T) + Sync>(
    rt: &R,
    all: &mut [T],
    threads: usize,
    work: &F,
)
    requires threads { 0 < threads }
    requires accepts { All (Accepts F.Fn work.now) all.old }
    ensures { AreChanged F.Fn work.now all.old all.new }
{
    let size = all.len().div_ceil(threads);
    if all.len() <= size {
        each_in_order(rt, work, all);
    } else {
        each_in_chunks(rt, work, size, all);
    }
}
