// A record replayed: each case is bound or run here, and the cases whose answer is not the expected one are counted.
// `replay_record` says how a record is laid out.
#![tactic(auto)]

ghost use Rattle.std.specs.Prelude.{true, ◌≡◌, length};
ghost use Rattle.replay_record.specs.declared.Of.TheVariants as of;
ghost use Rattle.replay_record.specs.Layout.{parts_of, room, is_case};
ghost use Rattle.replay_record.specs.Counts.{Replays};
ghost use Rattle.replay_walk.specs.Differs.{differs};

use op_bind::bind;
use op_run::run;
use replay_record::{
    BIND_PARTS, Damaged, Of, RUN_PARTS, Tally, agrees, case_length, is_case, part, size, untouched,
};

// These three are over an output as long as the case says, which still holds `before`.
fn bind_differs(s: &[u8], before: &[u8], out: &mut [u8]) -> bool
    requires { (is_case 3 s.now ≡ true) × (out.old ≡ before.now) × (length before.now ≡ room s.now) }
    ensures { result ≡ differs of.Binds s.now }
{
    let heard = bind(part(s, BIND_PARTS, 0), part(s, BIND_PARTS, 1), out);
    !agrees(heard, s[0], part(s, BIND_PARTS, 2), before, out)
}

fn run_differs(s: &[u8], before: &[u8], out: &mut [u8]) -> bool
    requires { (is_case 4 s.now ≡ true) × (out.old ≡ before.now) × (length before.now ≡ room s.now) }
    ensures { result ≡ differs of.Runs s.now }
{
    let heard = run(
        part(s, RUN_PARTS, 0),
        part(s, RUN_PARTS, 1),
        part(s, RUN_PARTS, 2),
        out,
    );
    !agrees(heard, s[0], part(s, RUN_PARTS, 3), before, out)
}

fn differs_in(s: &[u8], of: Of, before: &[u8], out: &mut [u8]) -> bool
    requires { (is_case (parts_of of) s.now ≡ true) × (out.old ≡ before.now) × (length before.now ≡ room s.now) }
    ensures { result ≡ differs of s.now }
{
    match of {
        Of::Binds => bind_differs(s, before, out),
        Of::Runs => run_differs(s, before, out),
    }
}

// Whether the case at the front has another answer than the expected one.
fn differs(s: &[u8], of: Of) -> bool
    requires { is_case (parts_of of) s.now ≡ true }
    ensures { result ≡ differs of s.now }
{
    let end = size(s, 1);
    let before = untouched();
    let mut out = before;
    differs_in(s, of, &before[..end], &mut out[..end])
}

pub fn replayed(bytes: &[u8], of: Of) -> Result<Tally, Damaged>
    ensures { Replays (differs of) (parts_of of) bytes.now result }
{
    let mut tally = Tally::default();
    if bytes.len() < 4 {
        return Err(Damaged { tally });
    }
    let k = of.parts();
    let cases = size(bytes, 0);
    let start = 4;
    let mut rest = &bytes[start..];
    for _ in 0..cases {
        if !is_case(rest, k) {
            return Err(Damaged { tally });
        }
        tally.count(rest[0], differs(rest, of));
        let end = case_length(rest, k);
        rest = &rest[end..];
    }
    if rest.is_empty() {
        Ok(tally)
    } else {
        Err(Damaged { tally })
    }
}
