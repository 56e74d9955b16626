// Writes the bound expression of an expression over a table: one row for each of its nodes, operands first, and the contents of its leaves.
// Rows and contents are written side by side. Binding is known to be given here, and to have room.
#![tactic(auto)]

pub mod columns;
mod counts;
mod leaves;
mod nodes;

ghost use Rattle.std.specs.Prelude.{◌≡◌, ◌<◌, ◌≤◌};
ghost use Rattle.image_expression.specs.Place.{node_at};
ghost use Rattle.rules.specs.Bound.{BoundExpr};
ghost use Rattle.rules.specs.Tables.{TableSchema};
ghost use Rattle.rules.specs.Statements.{Expr};
ghost use Rattle.rules.specs.Answers.{given};
ghost use Rattle.rules.specs.Marking.{bind_expression};
ghost use Rattle.bytes_wire.specs.Sets.{Wrote};
ghost use Rattle.image_catalogue.specs.Layout.{table};
ghost use Rattle.image_expression.specs.Expression.{expression};
ghost use Rattle.bytes_bundle.specs.Held.{Holds};
ghost use Rattle.image_bound.specs.Expression.{bound_expression};
ghost use Rattle.write_expression.specs.Writes.{Writable, Writes, Ready};

use bind_operators::null_test;
use counts::bound_nodes;
use image_bound::fields::put_count;
use image_bound::nodes::NODE;
use image_expression::{kind, span, text};
use leaves::{put_content, put_number};
use nodes::{one_operand, put_root, signs_number, two_operands};

// What a node is bound to: its mark, how many nodes it has, and how many bytes the contents of its leaves have.
#[derive(Clone, Copy)]
pub struct Bound {
    pub mark: rules::Mark,
    pub nodes: usize,
    pub content: usize,
}

// A leaf whose content is written: its kind as a bound node, its mark in two parts, and where its content ends.
// `end` stands between the parts: side by side they are stored byte by byte and loaded as one, which waits for both stores at each leaf.
#[derive(Clone, Copy)]
struct Leaf {
    kind: u8,
    ty: rules::ExpressionType,
    end: usize,
    nullable: bool,
}

// Node i, its rows from `row` on and its contents from `content` on. `from` bytes of content stand in front of its own.
#[cycle(write_write_binary_write_null_test_write_unary)]
pub fn write(
    t: &[u8],
    e: &[u8],
    i: usize,
    out: &mut [u8],
    row: usize,
    content: usize,
    from: usize,
) -> Bound
    requires { Writable t.now e.now i out.old row content from }
    ensures { Writes t.now e.now i from out.old row content result out.new }
{
    let k = kind(e, i);
    if k < 9 {
        let l = put_content(t, e, i, k, out, content);
        let ty = l.ty;
        let m = rules::Mark {
            ty,
            nullable: l.nullable,
        };
        return put_root(out, row, l.kind, m, 0, from, l.end - content);
    }
    if 16 <= k {
        return write_binary(t, e, i, k, out, row, content, from);
    }
    // parentheses have no node of their own
    if k == 9 {
        return write(t, e, i - 1, out, row, content, from);
    }
    if k < 12 {
        return write_null_test(t, e, i, k, out, row, content, from);
    }
    write_unary(t, e, i, k, out, row, content, from)
}

// 10 is IS NULL, 11 IS NOT NULL.
#[cycle(write_write_binary_write_null_test_write_unary)]
fn write_null_test(
    t: &[u8],
    e: &[u8],
    i: usize,
    k: u8,
    out: &mut [u8],
    row: usize,
    content: usize,
    from: usize,
) -> Bound
    requires writable { Writable t.now e.now i out.old row content from }
    requires k_value { (k ≡ (node_at e.now i).kind) × ((10 ≤ k) × (k < 12)) }
    ensures { Writes t.now e.now i from out.old row content result out.new }
{
    let a = write(t, e, i - 1, out, row, content, from);
    put_root(out, row, k - 5, null_test(), a.nodes, from, a.content)
}

// A sign, which makes one literal with a number directly below it, or NOT.
#[cycle(write_write_binary_write_null_test_write_unary)]
fn write_unary(
    t: &[u8],
    e: &[u8],
    i: usize,
    k: u8,
    out: &mut [u8],
    row: usize,
    content: usize,
    from: usize,
) -> Bound
    requires writable { Writable t.now e.now i out.old row content from }
    requires k_value { (k ≡ (node_at e.now i).kind) × ((12 ≤ k) × (k < 16)) }
    ensures { Writes t.now e.now i from out.old row content result out.new }
{
    let below = i - 1;
    if signs_number(e, below, k) {
        let l = put_number(text(e, below), k == 13, out, content);
        let ty = l.ty;
        let m = rules::Mark {
            ty,
            nullable: l.nullable,
        };
        return put_root(out, row, l.kind, m, 0, from, l.end - content);
    }
    let a = write(t, e, below, out, row, content, from);
    let m = one_operand(k, a.mark);
    put_root(out, row, k - 10, m, a.nodes, from, a.content)
}

#[cycle(write_write_binary_write_null_test_write_unary)]
fn write_binary(
    t: &[u8],
    e: &[u8],
    i: usize,
    k: u8,
    out: &mut [u8],
    row: usize,
    content: usize,
    from: usize,
) -> Bound
    requires writable { Writable t.now e.now i out.old row content from }
    requires k_value { (k ≡ (node_at e.now i).kind) × (16 ≤ k) }
    ensures { Writes t.now e.now i from out.old row content result out.new }
{
    let right = i - 1;
    let left = right - span(e, right);
    let a = write(t, e, left, out, row, content, from);
    let nodes = a.nodes;
    let bytes = a.content;
    let b = write(
        t,
        e,
        right,
        out,
        row + NODE * nodes,
        content + bytes,
        from + bytes,
    );
    let more = b.nodes;
    let rest = b.content;
    let m = two_operands(k, a.mark, b.mark);
    put_root(out, row, k - 9, m, nodes + more, from, bytes + rest)
}

// The bound expression of the whole expression e over the table t.
pub fn put_expression(out: &mut [u8], at: usize, t: &[u8], e: &[u8]) -> usize
    requires { Ready t.now e.now out.old at }
    ensures { (v : TableSchema) (x : Expr) (b : BoundExpr) → Holds table t.now v → Holds expression e.now x → bind_expression v x ≡ given b
        → Wrote out.old at (bound_expression.write b) result out.new }
{
    let n = bound_nodes(e);
    let rows = put_count(out, at, n);
    let content = rows + NODE * n;
    let last = image_expression::nodes(e) - 1;
    let r = write(t, e, last, out, rows, content, 0);
    content + r.content
}
