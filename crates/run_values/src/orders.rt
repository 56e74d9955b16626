// Comparison by kind, of whatever has an order.
ghost use Rattle.std.specs.Prelude.{◌≡◌, ◌≤◌, ◌<◌};
ghost use Rattle.image_expression.specs.Place.{bin_of};
ghost use Rattle.rules.specs.Bound.{Value};
ghost use Rattle.rules.specs.Evaluate.{binary_value};
ghost use Rattle.run_values.specs.Orders.{Ordered};
ghost use Rattle.run_values.specs.Worths.{told, heard};

use std::cmp::Ordering;

// 21 is =, 22 <>, 23 >, 24 >=, 25 <, 26 <=; AND and OR have no rule for what has an order.
#[tactic(auto, unfolding(image_expression::specs::Place::bin_of, rules::specs::Evaluate::binary_value, rules::specs::Evaluate::operate))]
pub fn compared(k: u8, o: Ordering) -> Option<bool>
    requires { (21 ≤ k) × (k < 29) }
    ensures { (p q : Value) → Ordered p q o → heard Value.bool result ≡ told (binary_value (bin_of k) p q) }
{
    match k {
        21 => Some(o.is_eq()),
        22 => Some(o.is_ne()),
        23 => Some(o.is_gt()),
        24 => Some(o.is_ge()),
        25 => Some(o.is_lt()),
        26 => Some(o.is_le()),
        _ => None,
    }
}
