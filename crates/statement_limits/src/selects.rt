// A query: the table, the items and the condition of a plain SELECT.
ghost use Rattle.std.specs.Prelude.{◌≡◌};
ghost use Rattle.bytes_bundle.specs.Held.{Is, Holds};
ghost use Rattle.image_expression.specs.Names.{Within};
ghost use Rattle.rules.specs.Lists.{all};
ghost use Rattle.rules.specs.Statements.{From, Select, QueryBody, Query};
ghost use Rattle.rules.specs.Limits.{from_names, held_by_select, held_by_body, held_within};
ghost use Rattle.image_parts.specs.Layout.{select_from, select, query_body, selection};

use crate::entries::is_item_within;
use crate::expressions::is_condition_within;
use crate::lists::is_list_within;
use crate::names::is_table_within;

fn is_from_within(f: &[u8]) -> bool
    requires { Is select_from f.now }
    ensures { (v : From) → Holds select_from f.now v → result ≡ all Within (from_names v) }
{
    if image_select::from_code(f) != 1 {
        return true;
    }
    is_table_within(image_select::table_of(f))
}

fn is_select_within(s: &[u8]) -> bool
    requires { Is select s.now }
    ensures { (v : Select) → Holds select s.now v → result ≡ held_within (held_by_select v) }
{
    is_from_within(image_select::from_of(s))
        && is_list_within(image_select::items_of(s), 64, is_item_within)
        && is_condition_within(image_select::condition_of(s))
}

fn is_body_within(b: &[u8]) -> bool
    requires { Is query_body b.now }
    ensures { (v : QueryBody) → Holds query_body b.now v → result ≡ held_within (held_by_body v) }
{
    if image_select::body_code(b) != 1 {
        return true;
    }
    is_select_within(image_select::select_of(b))
}

pub fn is_query_within(q: &[u8]) -> bool
    requires { Is selection q.now }
    ensures { (v : Query) → Holds selection q.now v → result ≡ held_within (held_by_body v.body) }
{
    is_body_within(image_select::body_of(q))
}
