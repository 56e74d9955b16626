// Entries of a list of the catalogue's image told apart: the first that a later one repeats.
#![tactic(auto)]

ghost use Rattle.std.specs.Prelude.{◌≡◌};
ghost use Rattle.bytes_bundle.specs.Bundle.{parts_of, IsBundle};
ghost use Rattle.rules.specs.Lists.{distinct};
ghost use Rattle.catalogue_repeats.specs.Repeats.{Told, AllTold, alike_by, first_repeated};

// What tells two entries of a list apart: the name of a table or a column, its id, or an id that stands for itself.
// kept: a closure at each of the callers' five places would spell the same three comparisons again, and what each needs of the entries.
#[derive(Clone, Copy)]
pub enum By {
    Name,
    Id,
    Whole,
}

// Whether two entries are alike.
fn alike(a: &[u8], b: &[u8], by: By) -> bool
    requires { Told by a.now × Told by b.now }
    ensures { result ≡ alike_by by a.now b.now }
{
    match by {
        By::Name => text_names::same(
            image_catalogue::entry_name(a),
            image_catalogue::entry_name(b),
        ),
        By::Id => image_catalogue::entry_id(a) == image_catalogue::entry_id(b),
        By::Whole => image_catalogue::key_id(a) == image_catalogue::key_id(b),
    }
}

// The first entry that a later one repeats.
fn first_repeat(s: &[u8], by: By) -> Option<usize>
    requires { IsBundle 2 s.now × AllTold by s.now }
    ensures { result ≡ first_repeated (alike_by by) 0 (parts_of 2 s.now) }
{
    let mut entries = bytes_bundle::iter(s, 2);
    // kept: the later entries are a copy of the iterator, and `Enumerate`, which would count them, can't be copied
    let mut i = 0;
    while let Some(entry) = entries.next() {
        let mut later = entries;
        if later.any(|e| alike(entry, e, by)) {
            return Some(i);
        }
        i += 1;
    }
    None
}

// Whether no two entries are alike.
pub fn are_distinct(s: &[u8], by: By) -> bool
    requires { IsBundle 2 s.now × AllTold by s.now }
    ensures { result ≡ distinct (alike_by by) (parts_of 2 s.now) }
{
    first_repeat(s, by).is_none()
}
