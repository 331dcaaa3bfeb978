//! The opening and the closing of handles.
ghost use Rattle.std.specs.Prelude.{◌≡◌, true, false, if◌then◌else◌, IfOk, IfErr, OnOk};
ghost use Rattle.strm_msg.specs.declared.errno.Errno.TheVariants.{EINVAL, ENOSR};
ghost use Rattle.strm_head_calls.specs.Setup.{are_marks};
ghost use Rattle.strm_c_calls.specs.Call.{fresh_with};
ghost use Rattle.strm_c_calls.specs.OnHandle.{OpensOn};

use crate::handle::Handle;
use crate::held::Held;
use std::alloc::Global;
use strm_c_numbers::number_of;
use strm_head::{Driver, NewFault, Stream};
use strm_msg::Errno;

/// A new stream in a box. Refused with EINVAL for marks of which a low one is not below its high one, and
/// with ENOSR when memory runs out.
fn opened(
    alloc: Global,
    driver: Driver,
    head: (u32, u32),
    drv: (u32, u32),
) -> Result<Box<Held>, Errno>
    ensures marks { OnOk result (are_marks head drv ≡ true) }
    ensures ok { IfOk result (λ held. held.value.stream ≡ fresh_with driver head drv) }
    ensures err { IfErr result (λ errno. errno ≡ (if are_marks head drv then ENOSR else EINVAL)) }
{
    match Stream::new(alloc, driver, head, drv) {
        Ok(stream) => match Box::new(alloc, Held { stream }) {
            Ok(held) => Ok(held),
            Err(refused) => {
                drop(refused);
                Err(Errno::ENOSR)
            }
        },
        Err(NewFault::Marks) => Err(Errno::EINVAL),
        Err(NewFault::NoMem) => Err(Errno::ENOSR),
    }
}

/// Opens a stream of a driver into a closed handle, if there is such a driver.
pub fn open_stream(
    alloc: Global,
    s: &mut Handle,
    driver: Option<Driver>,
    head: (u32, u32),
    drv: (u32, u32),
) -> i32
    requires { s.old.is_open ≡ false }
    ensures { OpensOn s.old driver head drv result s.new }
{
    let Some(driver) = driver else {
        return 22;
    };
    match opened(alloc, driver, head, drv) {
        Ok(held) => {
            s.put(held);
            0
        }
        Err(errno) => number_of(errno),
    }
}

/// Frees the stream of an open handle with all that it holds, and closes the handle.
pub fn free_stream(alloc: Global, s: &mut Handle)
    requires { s.old.is_open ≡ true }
    ensures { s.new.is_open ≡ false }
{
    let held = s.take(alloc);
    drop(held);
}
