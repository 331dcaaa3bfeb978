//! What a program serves, by its name: a module, or the output of a wire.
ghost use Rattle.std.specs.Prelude.{◌≡◌, ◌≤◌, ◌&&◌, true, IfSome, length};
ghost use Rattle.std.specs.Str.{bytes_eq};
ghost use Rattle.strm_module.specs.declared.driver.TheConstants.{MOST_MODULES};
ghost use Rattle.strm_chain_ends.specs.Image.{end_of};
ghost use Rattle.strm_head_service.specs.Served.{programs_module, names_output, served_at, is_output, IsThere, spot_past};

use strm_chain::{Chain, Spot};
use strm_head_calls::Name;
use strm_head_ioctl::has_output;
use strm_module::{ModuleOf, Shape};
use strm_msg::{End, Side};

/// What a program serves at an end.
#[derive(Clone, Copy)]
pub enum Served {
    /// A module whose service procedures are the program's, counted from 1.
    Module { i: u8 },
    /// The output of a wire.
    Output,
}

/// Whether the service procedures of a module are the program's, and it has a name.
fn is_programs<K>(shape: &Shape<K>, name: &Name) -> bool
    ensures { result ≡ (shape.now.noenable && bytes_eq shape.now.name.items name.now.items) }
{
    shape.noenable && shape.name.as_slice() == name.as_slice()
}

/// The number of the topmost module of a name whose service procedures are the program's, counted from 1.
fn programs_module<M: ModuleOf>(chain: &Chain<M>, end: End, name: &Name) -> Option<u8>
    ensures number { result ≡ programs_module (end_of chain.now.image end) name.now.items }
    ensures there { IfSome result (λ i. (1 ≤ i) × (i ≤ length (end_of chain.now.image end).modules)) }
    ensures few { IfSome result (λ i. i ≤ MOST_MODULES) }
{
    let count = chain.count(end);
    for i in 0..count {
        let shape = chain.shape(end, i as u8 + 1).unwrap();
        if is_programs(shape, name) {
            return Some(i as u8 + 1);
        }
    }
    None
}

/// Whether an end is that of a wire, and a name the driver's.
fn names_output<M: ModuleOf>(chain: &Chain<M>, end: End, name: &Name) -> bool
    ensures { result ≡ names_output chain.now.image end name.now.items }
{
    has_output(chain, end) && chain.driver().name() == name.as_slice()
}

/// What a name means on an end: the topmost module of the program's that has it, or else the output of a
/// wire.
pub(crate) fn served_at<M: ModuleOf>(chain: &Chain<M>, end: End, name: &Name) -> Option<Served>
    ensures served { result ≡ served_at chain.now.image end name.now.items }
    ensures there { IfSome result (λ it. IsThere chain.now.image end it) }
{
    match programs_module(chain, end, name) {
        Some(i) => Some(Served::Module { i }),
        None if names_output(chain, end, name) => Some(Served::Output),
        None => None,
    }
}

/// Whether what a name means is the output of a wire.
pub(crate) fn is_output(found: Option<Served>) -> bool
    ensures { result ≡ is_output found }
{
    matches!(found, Some(Served::Output))
}

/// The spot where a message is handed in that a module sends on to a side.
pub(crate) fn spot_past(end: End, i: u8, side: Side) -> Spot
    requires there { 1 ≤ i }
    requires few { i ≤ MOST_MODULES }
    ensures { result ≡ spot_past end i side }
{
    match side {
        Side::Rd => Spot::Up { end, i: i - 1 },
        Side::Wr => Spot::Down { end, i: i + 1 },
    }
}
