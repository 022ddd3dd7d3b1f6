// Orders drawn from the stream of the test hum, one state each.

ghost use Rattle.std.specs.Prelude.{◌≡◌, Some};
ghost use Rattle.test_setting.specs.Orders.{rate_from, order_from, next_order};

use crate::NextOrder;
use control::Order;

// 1 + (state div 2^24)/64: a whole number over 64, which an f32 holds exactly.
fn rate_from(state: u32) -> f32
    ensures { result ≡ rate_from state }
{
    (64 + state / (1 << 24)) as f32 * 0.015625
}

// A jump if the state is even, else a glide over 10 outputs.
#[tactic(auto, unfolding(crate::specs::Orders::order_from))]
fn order_from(state: u32) -> Order
    ensures { result ≡ order_from state }
{
    let rate = rate_from(state);
    if state % 2 == 0 {
        return Order::Jump(rate);
    }
    Order::Glide {
        target: rate,
        count: 10,
    }
}

// The next order, from the state that the last one left.
#[tactic(auto, unfolding(crate::specs::Orders::next_order))]
pub fn next_order(state: u32) -> NextOrder
    ensures { result ≡ next_order state }
{
    let state = test_hum::next_state(state);
    NextOrder {
        state,
        order: order_from(state),
    }
}

// The orders of the stream behind a state, without end.
#[derive(Clone, Copy)]
pub struct Orders {
    pub state: u32,
}

impl Iterator for Orders {
    type Item = Order;

    ghost next_gives = { λ before order after. let next = next_order before.state in (order ≡ Some next.order) × (after.state ≡ next.state) };

    fn next(&mut self) -> Option<Order> {
        let next = next_order(self.state);
        self.state = next.state;
        Some(next.order)
    }
}
