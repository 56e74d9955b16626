// The table of a bound statement, made of its image in the catalogue.
#![tactic(auto)]

ghost use Rattle.std.specs.Prelude.{◌≡◌, ◌≤◌, length};
ghost use Rattle.bytes_wire.specs.Sets.{Wrote};
ghost use Rattle.bytes_bundle.specs.Held.{Is, Holds};
ghost use Rattle.image_bound.specs.Columns.{bound_table_ref};
ghost use Rattle.image_catalogue.specs.Layout.{table};
ghost use Rattle.rules.specs.Lookup.{bound_table};
ghost use Rattle.rules.specs.Tables.{TableSchema};
ghost use Rattle.bind_table_ref.specs.Room.{RefRoom};

use image_bound::columns::{put_table_ref, table_ref_len};
use image_catalogue::{table_id, table_name, version};

pub fn table_size(t: &[u8]) -> usize
    requires { Is table t.now }
    ensures few { result ≤ 65552 }
    ensures told { (v : TableSchema) → Holds table t.now v → result ≡ length (bound_table_ref.write (bound_table v)) }
{
    let name = table_name(t);
    table_ref_len(name.len())
}

pub fn put_table(out: &mut [u8], at: usize, t: &[u8]) -> usize
    requires { RefRoom t.now out.old at }
    ensures { (v : TableSchema) → Holds table t.now v
        → Wrote out.old at (bound_table_ref.write (bound_table v)) result out.new }
{
    put_table_ref(out, at, table_id(t), version(t), table_name(t))
}
