// A value beside its column.
ghost use Rattle.std.specs.Prelude.{◌≡◌};
ghost use Rattle.bytes_bundle.specs.Held.{Holds, Is};
ghost use Rattle.image_value.specs.Parts.{column_schema};
ghost use Rattle.rules.specs.Tables.{ColumnSchema};
ghost use Rattle.image_row.specs.Obeyed.{value_obeyed};

use rules::DataType;

// Whether bytes are a value of a column's type, or NULL where the column is nullable.
pub fn value_obeys(p: &[u8], c: &[u8]) -> bool
    requires { Is (column_schema 2) c.now }
    ensures { (v : ColumnSchema) → Holds (column_schema 2) c.now v → result ≡ value_obeyed v p.now }
{
    if !image_value::is_value(p) {
        return false;
    }
    let code = image_value::type_code(p);
    if code == 3 {
        return image_catalogue::column_nullable(c);
    }
    match image_catalogue::column_type(c) {
        DataType::Int => code == 0,
        DataType::Text => code == 1,
        DataType::Bool => code == 2,
    }
}
