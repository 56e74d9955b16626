// An expression's run, read: whether bytes are one, its nodes by their numbers, how deep its tree is, and its names.
#![tactic(auto)]

mod layout;
mod names;
mod reader;

ghost use Rattle.std.specs.Prelude.{◌≡◌, leb};
ghost use Rattle.tree.specs.Tree.{depth};
ghost use Rattle.rules.specs.Lists.{is_some, all, any};
ghost use Rattle.rules.specs.Limits.{expression_names, name_within};
ghost use Rattle.rules.specs.Names.{beyond_ascii};
ghost use Rattle.rules.specs.Statements.{Name, Expr};
ghost use Rattle.image_expression.specs.Expression.{expression};
ghost use Rattle.image_expression.specs.Place.{node_count, node_at, Root, IsExpression, IsImage, HasNode};

pub fn nodes(s: &[u8]) -> usize
    requires { IsImage s.now }
    ensures { result ≡ node_count s.now }
{
    layout::count(s)
}

// The node's kind, as docs/IMAGES.md numbers them: leaves 0 to 8, one operand 9 to 15, two 16 to 29.
pub fn kind(s: &[u8], i: usize) -> u8
    requires { HasNode s.now i }
    ensures { result ≡ (node_at s.now i).kind }
{
    layout::kind(s, i)
}

// How many nodes the tree has whose root is node i.
pub fn span(s: &[u8], i: usize) -> usize
    requires { HasNode s.now i }
    ensures { result ≡ (node_at s.now i).span }
{
    layout::span(s, i)
}

pub fn text(s: &[u8], i: usize) -> &[u8]
    requires { HasNode s.now i }
    ensures { result.now ≡ (node_at s.now i).text }
{
    layout::text(s, i)
}

// Whether the bytes are an expression's image: one pass over the nodes. That a node is the root of a tree follows from those before it, so that
// the spans alone say where its operands are, and the last one says whether a node is left over.
pub fn is_expression(s: &[u8]) -> bool
    ensures { result ≡ is_some (expression.read s.now) }
{
    if !layout::all_there(s) {
        return false;
    }
    let n = layout::count(s);
    if n == 0 {
        return false;
    }
    let last = n - 1;
    if !(0..n).all(|i| reader::content_ok(s, i) && reader::shape_ok(s, i)) {
        return false;
    }
    layout::end(s, last) == layout::bytes_behind(s) && layout::span(s, last) == n
}

// Whether the tree whose root is node i is at most `budget` nodes deep (a leaf is 1). It calls itself at most `budget` deep, whatever the tree;
// an operand on the left takes no call.
// kept: a turn moves the node by spans of the image and the budget by one, so that neither a range nor a chain tells the turns.
pub fn depth_at_most(s: &[u8], i: usize, budget: usize) -> bool
    requires { HasNode s.now i }
    ensures { (e : Expr) → Root (node_at s.now) i e → result ≡ leb (depth e) budget }
{
    let mut node = i;
    let mut left = budget;
    while 0 < left {
        let k = kind(s, node);
        if k < 9 {
            return true;
        }
        left -= 1;
        node -= 1;
        if 16 <= k {
            if !depth_at_most(s, node, left) {
                return false;
            }
            node -= span(s, node);
        }
    }
    false
}

// Whether every name of the expression is within paper 01's limit.
pub fn names_within(s: &[u8]) -> bool
    requires { IsImage s.now }
    ensures { (e : Expr) → IsExpression s.now e → result ≡ all (λ (n : Name). name_within n.text) (expression_names e) }
{
    (0..nodes(s)).all(|i| names::within(s, i))
}

// Whether an unquoted name of the expression holds a byte past ASCII.
pub fn names_beyond_ascii(s: &[u8]) -> bool
    requires { IsImage s.now }
    ensures { (e : Expr) → IsExpression s.now e → result ≡ any beyond_ascii (expression_names e) }
{
    (0..nodes(s)).any(|i| names::beyond_ascii(s, i))
}
