// The bound statement's image, written where the statement is bound and its image has room: by the raw text, and then by the kind, as
// `bind_statement` measures it.
#![tactic(auto)]

ghost use Rattle.std.specs.Prelude.{◌≡◌};
ghost use Rattle.image_bound.specs.Layout.{bound_statement};
ghost use Rattle.bytes_bundle.specs.Held.{Holds};
ghost use Rattle.image_catalogue.specs.Layout.{catalogue};
ghost use Rattle.bind_table.specs.Room.{Bindable};
ghost use Rattle.rules.specs.Analyze.{analyze};
ghost use Rattle.rules.specs.Answers.{given};
ghost use Rattle.rules.specs.Bound.{BoundStatement};
ghost use Rattle.rules.specs.Statements.{Statement};
ghost use Rattle.rules.specs.Tables.{Catalogue};
ghost use Rattle.image_parts.specs.Layout.{statement};
ghost use Rattle.bytes_wire.specs.Sets.{Wrote};
ghost use Rattle.bind_statement.specs.Dispatch.{by_kind};
ghost use Rattle.bind_statement.specs.Within.{StatementWithin};

use image_bound::fields::put_byte;
use write_create::write_create_table;
use write_delete::write_delete;
use write_insert::write_insert;
use write_select::write_select;
use write_update::write_update;

// A BEGIN, a COMMIT, a ROLLBACK or a SHOW TABLES is bound to a code alone.
fn write_kind(c: &[u8], s: &[u8], out: &mut [u8]) -> usize
    requires { StatementWithin s.now × Bindable statement bound_statement by_kind c.now s.now out.old }
    ensures { (cat : Catalogue) (v : Statement) (b : BoundStatement) → Holds catalogue c.now cat → Holds statement s.now v
        → by_kind cat v ≡ given b → Wrote out.old 0 (bound_statement.write b) result out.new }
{
    let body = image_statement::kind_body(s);
    match image_statement::kind_code(s) {
        0 => write_create_table(c, body, out),
        1 => write_insert(c, body, out),
        2 => write_select(c, body, out),
        3 => write_update(c, body, out),
        4 => write_delete(c, body, out),
        5 => put_byte(out, 0, 5),
        6 => put_byte(out, 0, 6),
        7 => put_byte(out, 0, 7),
        8 => put_byte(out, 0, 8),
        // never: no other kind is bound
        _ => 0,
    }
}

pub fn write(c: &[u8], s: &[u8], out: &mut [u8]) -> usize
    requires { StatementWithin s.now × Bindable statement bound_statement analyze c.now s.now out.old }
    ensures { (cat : Catalogue) (v : Statement) (b : BoundStatement) → Holds catalogue c.now cat → Holds statement s.now v
        → analyze cat v ≡ given b → Wrote out.old 0 (bound_statement.write b) result out.new }
{
    if text_trim::is_show_transactions(image_statement::raw_of(s)) {
        return put_byte(out, 0, 9);
    }
    write_kind(c, s, out)
}
