// Where a node's bytes lie. No other file of src/ reads a run's bytes.
ghost use Rattle.std.specs.Prelude.{◌≡◌, ◌+◌, ◌≤◌, ◌<◌, length};
ghost use Rattle.bytes_wire.specs.Le.{Got};
ghost use Rattle.image_expression.specs.Place.{node_count, end_at, start_at, node_at, behind, all_there, AllThere, Room, Content};

// The number in the two bytes at `at`.
fn two(s: &[u8], at: usize) -> usize
    requires { at + 2 ≤ length s.now }
    ensures { Got s.now at 2 result }
{
    bytes_wire::get(s, at, 2) as usize
}

pub fn count(s: &[u8]) -> usize
    requires { 2 ≤ length s.now }
    ensures { (result ≡ node_count s.now) × (result < 65536) }
{
    two(s, 0)
}

// Whether as many nodes are there as the count says.
pub fn all_there(s: &[u8]) -> bool
    ensures { result ≡ all_there s.now }
{
    if s.len() < 2 {
        return false;
    }
    5 * count(s) + 2 <= s.len()
}

pub fn bytes_behind(s: &[u8]) -> usize
    requires { AllThere s.now }
    ensures { result ≡ behind s.now }
{
    s.len() - (5 * count(s) + 2)
}

pub fn kind(s: &[u8], i: usize) -> u8
    requires { Room s.now i }
    ensures { result ≡ (node_at s.now i).kind }
{
    s[5 * i + 2]
}

pub fn span(s: &[u8], i: usize) -> usize
    requires { Room s.now i }
    ensures { (result ≡ (node_at s.now i).span) × (result < 65536) }
{
    two(s, 5 * i + 3)
}

// Where the content of node i ends, counted from the first content on.
pub fn end(s: &[u8], i: usize) -> usize
    requires { Room s.now i }
    ensures { (result ≡ end_at s.now i) × (result < 65536) }
{
    two(s, 5 * i + 5)
}

pub fn start(s: &[u8], i: usize) -> usize
    requires { Room s.now i }
    ensures { (result ≡ start_at s.now i) × (result < 65536) }
{
    if i == 0 {
        return 0;
    }
    end(s, i - 1)
}

pub fn text(s: &[u8], i: usize) -> &[u8]
    requires { Content s.now i }
    ensures { result.now ≡ (node_at s.now i).text }
{
    let behind = 5 * count(s) + 2;
    let from = behind + start(s, i);
    let to = behind + end(s, i);
    &s[from..to]
}
