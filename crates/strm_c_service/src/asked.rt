//! The request of a service call, of its arguments.
ghost use Rattle.std.specs.Prelude.{◌≡◌};
ghost use Rattle.strm_c_service.specs.Service as asks;

use strm_c_calls::Asked;
use strm_c_numbers::side_of;
use strm_head_calls::{Name, Refusal, Request, ServiceCall};

/// A name, if the name of a module can be as long.
pub fn name_of(name: &[u8]) -> Option<Name>
    ensures { result ≡ asks.name_of name.now }
{
    Name::of(name)
}

/// A service call, by the name of its module and the number of a side.
pub fn service_of(name: &[u8], side: u32, call: ServiceCall) -> Asked
    ensures { result ≡ asks.service_of name.now side call }
{
    let Some(side) = side_of(side) else {
        drop(call);
        return Err(Refusal::Invalid);
    };
    let Some(name) = name_of(name) else {
        drop(call);
        return Err(Refusal::Invalid);
    };
    Ok(Request::Service { name, side, call })
}
