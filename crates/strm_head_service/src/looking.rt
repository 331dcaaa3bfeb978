//! A look at a queue that the program serves.
ghost use Rattle.std.specs.Prelude.{◌≡◌, option_copied};
ghost use Rattle.strm_head_service.specs.First.{first_served};

use crate::served::{Served, served_at};
use strm_chain::Chain;
use strm_head_calls::Name;
use strm_module::ModuleOf;
use strm_msg::{End, Message, Side};

/// The first message of the queue of a side that a name means to a service call, which a getq of any message
/// takes. None where no message waits, and where the name means nothing.
pub fn first_served<'a, M: ModuleOf>(
    chain: &'a Chain<M>,
    end: End,
    name: &Name,
    side: Side,
) -> Option<&'a Message>
    ensures { option_copied result ≡ first_served chain.now.image end name.now.items side }
{
    match (served_at(chain, end, name), side) {
        (Some(Served::Module { i }), _) => chain.first_of(end, i, side),
        (Some(Served::Output), Side::Wr) => chain.driver_list(end).first(),
        _ => None,
    }
}
