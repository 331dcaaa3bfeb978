//! Streams in boxes behind handles, and the calls on them. A handle has one pointer. A call makes a request
//! of its arguments, takes the step, and writes the parts of the answer.
#![tactic(auto)]

mod arguments;
mod arrival;
mod calls;
mod codes;
mod handle;
mod held;
mod judged;
mod opening;
mod parts;
mod polling;
mod returned;

pub use arguments::{
    Asked, find_of, flush_of, flushband_of, getmsg_of, getpmsg_of, kind_of, marks_of, part_of,
    peek_of, push_of, putmsg_of, putpmsg_of, read_of, setread_of, shape_of, str_of, write_of,
};
pub use arrival::arrive;
pub use calls::{answered, call, call_for_name, call_for_value, call_for_values, call_taking};
pub use codes::{code_of, driver_of, noenable_of, wanted_of};
pub use handle::Handle;
pub use held::Held;
pub use judged::{are_too_long, or_length};
pub use opening::{free_stream, open_stream};
pub use parts::Parts;
pub use polling::poll;
pub use returned::Returned;
