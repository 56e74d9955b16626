// The first entry of a list that repeats an earlier one, by the names that entries have: columns of an INSERT and of a CREATE TABLE,
// names of a key, targets of an UPDATE.
#![tactic(auto)]

ghost use Rattle.std.specs.Prelude.{◌≡◌};
ghost use Rattle.std.proofs.Math.Option.{none, some};
ghost use Rattle.bytes_bundle.specs.Held.{Holds, Is};
ghost use Rattle.rules.specs.Statements.{Name};
ghost use Rattle.image_parts.specs.Layout.{name, object_name, assignment_target};
ghost use Rattle.bind_repeats.specs.Repeats.{is_at};
ghost use Rattle.bind_repeats.specs.Entries.{form, alike_names, object_in, target_in, name_in, maybe_name, Named, ShortIn, ShortName, AllShort, ComparesNames, FindsRepeat};

use image_parts::names::{name_is_quoted, name_text, object_name_code, only_name};

// What an entry is: a name, a column's definition or an assignment. An assignment to a tuple or to a qualified name has no name.
#[derive(Clone, Copy)]
pub enum Of {
    Names,
    Columns,
    Targets,
}

// Whether the place is entry i.
pub fn is_at(place: Option<usize>, i: usize) -> bool
    ensures { result ≡ is_at i place }
{
    place == Some(i)
}

// Whether two names are one.
pub fn are_alike_names(a: &[u8], b: &[u8]) -> bool
    requires { ShortIn name some a.now × ShortIn name some b.now }
    ensures { (v w : Name) → Holds name a.now v → Holds name b.now w → result ≡ alike_names (some v) (some w) }
{
    text_names::are_same_name(
        name_is_quoted(a),
        name_text(a),
        name_is_quoted(b),
        name_text(b),
    )
}

// No name at all: no byte. A name has one at least, its mark.
fn no_name(s: &[u8]) -> &[u8]
    ensures { Holds maybe_name result.now none }
{
    &s[..0]
}

fn object_name(o: &[u8]) -> &[u8]
    requires { Is object_name o.now }
    ensures { Named object_name object_in o.now result.now }
{
    if object_name_code(o) == 0 {
        return no_name(o);
    }
    only_name(o)
}

fn target_named(g: &[u8]) -> &[u8]
    requires { Is assignment_target g.now }
    ensures { Named assignment_target target_in g.now result.now }
{
    if image_update::target_code(g) == 0 {
        return no_name(g);
    }
    object_name(image_update::target_name(g))
}

// The name that an entry has, or no byte where it has none.
fn named(e: &[u8], of: Of) -> &[u8]
    requires { Is (form of) e.now }
    ensures { Named (form of) (name_in of) e.now result.now }
{
    match of {
        Of::Names => e,
        Of::Columns => image_create::column_name(e),
        Of::Targets => target_named(image_update::target_of(e)),
    }
}

// Whether two entries have one name.
fn are_alike(a: &[u8], b: &[u8]) -> bool
    requires { ShortName a.now × ShortName b.now }
    ensures { ComparesNames a.now b.now result }
{
    if a.len() == 0 {
        return false;
    }
    if b.len() == 0 {
        return false;
    }
    are_alike_names(a, b)
}

// The first entry that repeats an earlier one: both loops are left at once.
pub fn first_repeated(s: &[u8], of: Of) -> Option<usize>
    requires { AllShort of s.now }
    ensures { FindsRepeat of s.now result }
{
    let n = bytes_bundle::parts(s, 2);
    let mut place = None;
    let mut at = bytes_bundle::first(s, 2);
    let mut i = 0;
    'search: while i < n {
        let end = bytes_bundle::next(s, 2, i, at);
        let name = named(&s[at..end], of);
        let mut from = bytes_bundle::first(s, 2);
        let mut j = 0;
        while j < i {
            let to = bytes_bundle::next(s, 2, j, from);
            if are_alike(name, named(&s[from..to], of)) {
                place = Some(i);
                break 'search;
            }
            from = to;
            j += 1;
        }
        at = end;
        i += 1;
    }
    place
}
