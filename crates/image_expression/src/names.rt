// The name that may stand at a node.
ghost use Rattle.std.specs.Prelude.{◌≡◌};
ghost use Rattle.rules.specs.Lists.{all, any};
ghost use Rattle.rules.specs.Limits.{name_within};
ghost use Rattle.rules.specs.Names.{beyond_ascii};
ghost use Rattle.rules.specs.Statements.{Name};
ghost use Rattle.image_expression.specs.Place.{node_at, HasNode};
ghost use Rattle.image_expression.specs.Names.{node_names};

use crate::{kind, text};

// A node that is no name is within the limit.
#[tactic(auto, using(crate::specs::Names::within_none, crate::specs::Names::within_one), unfolding(rules::specs::Limits::name_within))]
pub fn within(s: &[u8], i: usize) -> bool
    requires { HasNode s.now i }
    ensures { result ≡ all (λ (n : Name). name_within n.text) (node_names (node_at s.now i)) }
{
    kind(s, i) > 1 || text(s, i).len() <= 128
}

// Quoted names keep their bytes, so that only unquoted ones are looked at.
#[tactic(auto, using(crate::specs::Names::beyond_none, crate::specs::Names::beyond_one, crate::proofs::Scan::some_beyond))]
pub fn beyond_ascii(s: &[u8], i: usize) -> bool
    requires { HasNode s.now i }
    ensures { result ≡ any beyond_ascii (node_names (node_at s.now i)) }
{
    kind(s, i) == 0 && !text(s, i).is_ascii()
}
