//! How many orders there are.
ghost use Rattle.std.specs.Prelude.{◌≡◌, ◌+◌, ◌<◌, ◌^◌, IfOk, min};
ghost use Rattle.strm_script_orders.specs.Counting.{HasPlayed, IsPlaying, orders_from, orders_of};
ghost use Rattle.strm_script_orders.specs.Lanes.{at_start, steps_left};

use crate::lanes::Lanes;
use crate::listed::ListedOrder;
use std::alloc::Global;
use strm_msg::NoMem;
use strm_run_input::Order;

/// Plays an order to its end.
fn play_out(lanes: &mut Lanes, order: &mut ListedOrder)
    requires { IsPlaying lanes.old lanes.old order.old.choices order.old.made order.old.steps }
    ensures played { HasPlayed lanes.old order.new.choices }
    ensures begun { orders_from (steps_left lanes.old) order.new.choices lanes.old
        ≡ orders_from (steps_left lanes.old) order.old.choices lanes.old }
    ensures steps { order.new.steps ≡ order.old.steps }
    ensures same { at_start lanes.new ≡ at_start lanes.old }
{
    loop {
        let many = lanes.many();
        if many == 0 {
            return;
        }
        let _ = lanes.step(order.next(many));
    }
}

/// The number of orders that there are, or one more than the limit if there are more than the limit, which is
/// below 2^63. It is a product, unless a process awaits a feed; then orders are walked through one after
/// another, which takes the time of as many plays.
///
/// Fails only when memory runs out. Some have taken steps then, or all.
pub fn count(alloc: Global, lanes: &mut Lanes, limit: u64) -> Result<u64, NoMem>
    requires { limit < 2 ^ 63 }
    ensures count { IfOk result (λ count. count ≡ min (orders_of (at_start lanes.old)) (limit + 1)) }
    ensures same { at_start lanes.new ≡ at_start lanes.old }
{
    lanes.start_again();
    if let Some(count) = lanes.free_count() {
        return Ok(count.min(limit + 1));
    }
    let mut order = ListedOrder::new(alloc, lanes.steps_left())?;
    let mut count = 0;
    while count <= limit {
        play_out(lanes, &mut order);
        count += 1;
        if !order.advance() {
            return Ok(count);
        }
        lanes.start_again();
    }
    Ok(count)
}
