// A query: the names of a plain SELECT.
ghost use Rattle.std.specs.Prelude.{◌≡◌};
ghost use Rattle.bytes_bundle.specs.Held.{Is, Holds};
ghost use Rattle.rules.specs.Statements.{Item, From, Select, QueryBody, Query};
ghost use Rattle.rules.specs.Limits.{item_names, from_names, held_by_select, held_by_body};
ghost use Rattle.image_parts.specs.Layout.{item, select_from, select, query_body, selection};
ghost use Rattle.statement_ascii.specs.Beyond.{Beyond};

use crate::named::{condition_beyond, name_beyond, table_beyond};

fn item_beyond(i: &[u8]) -> bool
    requires { Is item i.now }
    ensures { (v : Item) → Holds item i.now v → result ≡ Beyond (item_names v) }
{
    if image_select::item_code(i) != 2 {
        return false;
    }
    name_beyond(image_select::column_of(i))
}

fn from_beyond(f: &[u8]) -> bool
    requires { Is select_from f.now }
    ensures { (v : From) → Holds select_from f.now v → result ≡ Beyond (from_names v) }
{
    if image_select::from_code(f) != 1 {
        return false;
    }
    table_beyond(image_select::table_of(f))
}

fn select_beyond(s: &[u8]) -> bool
    requires { Is select s.now }
    ensures { (v : Select) → Holds select s.now v → result ≡ Beyond (held_by_select v).names }
{
    from_beyond(image_select::from_of(s))
        || bytes_bundle::iter(image_select::items_of(s), 2).any(item_beyond)
        || condition_beyond(image_select::condition_of(s))
}

fn body_beyond(b: &[u8]) -> bool
    requires { Is query_body b.now }
    ensures { (v : QueryBody) → Holds query_body b.now v → result ≡ Beyond (held_by_body v).names }
{
    if image_select::body_code(b) != 1 {
        return false;
    }
    select_beyond(image_select::select_of(b))
}

pub fn query_beyond(q: &[u8]) -> bool
    requires { Is selection q.now }
    ensures { (v : Query) → Holds selection q.now v → result ≡ Beyond (held_by_body v.body).names }
{
    body_beyond(image_select::body_of(q))
}
