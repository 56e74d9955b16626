// Records of cases with the answers that are expected: how one is laid out, whether an answer is the expected one, and what is counted.
// `specs/Layout.antt` has the layout.
#![tactic(auto)]

ghost use Rattle.std.specs.Prelude.{true, ◌≡◌, ◌+◌, ◌*◌, ◌≤◌, ◌<◌, length};
ghost use Rattle.bytes_wire.specs.Le.{Got};
ghost use Rattle.replay_record.specs.Layout.{parts_of, starts, part, most, is_case};
ghost use Rattle.op_reply.specs.Leaves.{told};
ghost use Rattle.replay_record.specs.Agrees.{agreeing};
ghost use Rattle.replay_record.specs.Counts.{added, Few};

use op_reply::{Refused, told_number};
use std::fmt;

// The longest room of a case.
const MOST: usize = 4500;

// Of a case.
pub const BIND_PARTS: usize = 3;

pub const RUN_PARTS: usize = 4;

// What a record is of: statements bound, or run on a row.
#[derive(Clone, Copy)]
pub enum Of {
    Binds,
    Runs,
}

impl Of {
    // Of a case.
    pub fn parts(self) -> usize
        ensures { (result ≡ parts_of self) × (result ≤ 4) }
    {
        match self {
            Of::Binds => BIND_PARTS,
            Of::Runs => RUN_PARTS,
        }
    }
}

// What was counted of some cases, by the answers that are expected: 0, 11, and any other.
#[derive(Clone, Copy, Debug, Default)]
pub struct Tally {
    pub cases: u64,
    pub answered: u64,
    pub faults: u64,
    pub others: u64,
    pub differences: u64,
}

impl Tally {
    // One case more.
    pub fn count(&mut self, number: u8, differs: bool)
        requires { Few self.old }
        ensures { self.new ≡ added self.old number differs }
    {
        self.cases += 1;
        match number {
            0 => self.answered += 1,
            11 => self.faults += 1,
            _ => self.others += 1,
        }
        self.differences += u64::from(differs);
    }
}

// Of a record that is not whole, the cases in front of the damage are counted.
#[derive(Clone, Copy, Debug)]
pub struct Damaged {
    pub tally: Tally,
}

// Cases are counted from 0.
impl fmt::Display for Damaged {
    fn fmt<W: fmt::Write>(&self, f: &mut fmt::Formatter<W>) -> fmt::Result {
        write!(f, "the record is damaged at case {}", self.tally.cases)
    }
}

// The number in the four bytes from `at` on.
pub fn size(s: &[u8], at: usize) -> usize
    requires { at + 4 ≤ length s.now }
    ensures { Got s.now at 4 result }
{
    bytes_wire::get(s, at, 4) as usize
}

// Where part j of a case of k parts starts; past the last part, where the case ends.
fn starts(s: &[u8], k: usize, j: usize) -> usize
    requires { (5 + 4 * k ≤ length s.now) × (j ≤ k) × (k ≤ 4) }
    ensures { result ≡ starts k j s.now }
{
    let mut at = 5 + 4 * k;
    for i in 0..j {
        at += size(s, 5 + 4 * i);
    }
    at
}

// Whether a case of k parts stands at the front.
pub fn is_case(s: &[u8], k: usize) -> bool
    requires { k ≤ 4 }
    ensures { result ≡ is_case k s.now }
{
    if s.len() < 5 + 4 * k {
        return false;
    }
    if s.len() < starts(s, k, k) {
        return false;
    }
    size(s, 1) <= MOST
}

pub fn part(s: &[u8], k: usize, j: usize) -> &[u8]
    requires { (is_case k s.now ≡ true) × (j < k) × (k ≤ 4) }
    ensures { result.now ≡ part k j s.now }
{
    let from = starts(s, k, j);
    let end = from + size(s, 5 + 4 * j);
    &s[from..end]
}

// How long the case is.
pub fn case_length(s: &[u8], k: usize) -> usize
    requires { (is_case k s.now ≡ true) × (k ≤ 4) }
    ensures { (result ≡ starts k k s.now) × (result ≤ length s.now) }
{
    starts(s, k, k)
}

// An output before it is lent, for every room. The byte stands in few answers, so that a byte too many is seen.
pub fn untouched() -> [u8; 4500]
    ensures { most ≡ length result }
{
    [165; 4500]
}

// The number, the length, every byte, and the room behind them as it was.
pub fn agrees(
    heard: Result<usize, Refused>,
    number: u8,
    expected: &[u8],
    before: &[u8],
    out: &[u8],
) -> bool
    ensures { result ≡ agreeing (told heard) number expected.now before.now out.now }
{
    let told = told_number(heard);
    if told != number {
        return false;
    }
    let length = heard.unwrap_or(0);
    let end = expected.len();
    if length != end {
        return false;
    }
    if out.len() < end {
        return false;
    }
    if before.len() < end {
        return false;
    }
    if !text_names::same(&out[..end], expected) {
        return false;
    }
    text_names::same(&out[end..], &before[end..])
}
