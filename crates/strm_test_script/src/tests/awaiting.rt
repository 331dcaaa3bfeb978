//! The feeds that the processes of a script await, as a run is given them. No contract sees them there.
use super::handed;
use std::alloc::Global;

/// A process that awaits two feeds before its first and its second call and one behind its last, and one that
/// awaits none.
const SCRIPT: &[u8] = b"stream n line 16/4 16/4 1\nstream w wire 16/4 16/4 1\n\
    process p\nawait w\nread n:a 1\nawait n\nawait w\nread n:a 1\nawait n\nprocess q\nread w:a 1\n";

#[test]
fn a_run_is_given_what_each_process_awaits(rt: HostRuntime) {
    let alloc: Global = rt.alloc();
    let mut scripts = handed(&rt, alloc, SCRIPT).scripts;
    let mut none = scripts.pop().expect(&rt, "a process");
    assert!(rt; none.take_awaits(alloc).is_empty());
    let mut some = scripts.pop().expect(&rt, "a process before it");
    let awaits = some.take_awaits(alloc);
    assert!(rt; awaits.iter().map(|one| one.call).eq([0, 1, 1, 2]));
    assert!(rt; awaits.iter().map(|one| one.stream).eq([1, 0, 1, 0]));
}
