// A list with a top size: how many entries, and each by a test of its own.
ghost use Rattle.std.specs.Prelude.{◌≡◌, Bool, List, ℕ};
ghost use Rattle.bytes_bundle.specs.Bundle.{parts_of, IsBundle};
ghost use Rattle.statement_limits.specs.Within.{list_within};
ghost use Rattle.statement_limits.specs.Lists.{TakesEach, TellsEach};

// Whether there are at most so many entries, and each passes the test.
pub fn is_list_within<F: Fn(&[u8]) -> bool>(s: &[u8], most: usize, is_within: F) -> bool
    requires bundle { IsBundle 2 s.now }
    requires takes { TakesEach F.Fn is_within (parts_of 2 s.now) }
    ensures { (t : List ℕ → Bool) → TellsEach F.Fn is_within t (parts_of 2 s.now) → result ≡ list_within most t (parts_of 2 s.now) }
{
    bytes_bundle::parts(s, 2) <= most && bytes_bundle::iter(s, 2).all(is_within)
}
