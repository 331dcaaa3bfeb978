//! The number of orders of those who await nobody.
ghost use Rattle.std.specs.Prelude.{◌≡◌, ◌+◌, ◌-◌, ◌<◌, ◌^◌, min};
ghost use Rattle.strm_script_orders.specs.Free as says;
ghost use Rattle.strm_script_orders.specs.Free.{is_free, lefts};
ghost use Rattle.strm_script_orders.specs.Lanes.{steps_left};

use crate::lanes::Lane;

/// The number of orders of two who take so many steps, or 2^64 - 1 if there are more, by multiplication.
fn ways_of(many: u64, few: u64) -> u64
    requires { many + few < 2 ^ 64 }
    ensures { result ≡ min (says.ways many few) (2 ^ 64 - 1) }
{
    let mut ways: u64 = 1;
    for k in 0..few {
        let next = u128::from(ways) * u128::from(many + k + 1) / u128::from(k + 1);
        if next > u128::from(u64::MAX) {
            return u64::MAX;
        }
        ways = next as u64;
    }
    ways
}

/// The number of orders of two who take so many steps, or 2^64 - 1 if there are more.
fn ways(a: u64, b: u64) -> u64
    requires { a + b < 2 ^ 64 }
    ensures { result ≡ min (says.ways a b) (2 ^ 64 - 1) }
{
    if a < b { ways_of(b, a) } else { ways_of(a, b) }
}

/// The number of orders of all steps that are left, or 2^64 - 1 if there are more.
pub(crate) fn free_orders(lanes: &[Lane]) -> u64
    requires { steps_left lanes.now < 2 ^ 64 }
    ensures { result ≡ min (says.free_orders (lefts lanes.now)) (2 ^ 64 - 1) }
{
    let mut orders: u64 = 1;
    let mut steps: u64 = 0;
    let mut number = lanes.len();
    while number > 0 {
        number -= 1;
        let left = lanes[number].left() as u64;
        orders = ways(left, steps).saturating_mul(orders);
        steps += left;
    }
    orders
}

/// Whether nobody awaits a feed.
pub(crate) fn are_free(lanes: &[Lane]) -> bool
    ensures { result ≡ is_free lanes.now }
{
    for lane in lanes {
        if !lane.awaits_nobody() {
            return false;
        }
    }
    true
}
