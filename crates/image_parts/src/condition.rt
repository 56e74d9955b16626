// The condition that a SELECT, an UPDATE or a DELETE may have.
ghost use Rattle.std.specs.Prelude.{◌≡◌};
ghost use Rattle.std.proofs.Math.Option.{Option};
ghost use Rattle.bytes_bundle.specs.Bundle.{is_there};
ghost use Rattle.bytes_bundle.specs.Held.{Holds};
ghost use Rattle.rules.specs.Statements.{Expr};
ghost use Rattle.image_parts.specs.Layout.{condition};

// No byte at all where there is no condition; an expression has one byte at least.
pub fn is_condition(s: &[u8]) -> bool
    ensures { result ≡ is_there (condition.read s.now) }
{
    s.is_empty() || image_expression::is_expression(s)
}

// Whether there is a condition. Where there is one, its bytes are the expression's (`condition_holds`).
#[tactic(auto, using(crate::specs::NamesHeld::condition_present))]
pub fn has_condition(c: &[u8]) -> bool
    ensures { (v : Option Expr) → Holds condition c.now v → result ≡ is_there v }
{
    !c.is_empty()
}
