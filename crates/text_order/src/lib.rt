// TEXT is compared by bytes, a proper prefix first: one pass over both.
#![tactic(auto)]

ghost use Rattle.std.specs.Prelude.{◌≡◌};
ghost use Rattle.text_order.specs.Order.{order_of};

use std::cmp::Ordering;

// How the first text stands to the second.
#[tactic(auto, using(crate::specs::Order::told_cmp))]
pub fn compare(a: &[u8], b: &[u8]) -> Ordering
    ensures { result ≡ order_of a.now b.now }
{
    a.cmp(b)
}
