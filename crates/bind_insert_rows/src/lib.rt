// The rows of an INSERT, held against its target columns.
#![tactic(auto)]

ghost use Rattle.std.specs.Prelude.{◌≡◌, ◌≤◌, length, IfOk};
ghost use Rattle.bytes_format.proofs.Formats.{list_of};
ghost use Rattle.bytes_bundle.specs.Held.{Is, Holds};
ghost use Rattle.image_value.specs.Parts.{value};
ghost use Rattle.image_expression.specs.Expression.{expression};
ghost use Rattle.rules.specs.Answers.{each};
ghost use Rattle.rules.specs.Bound.{Value, BoundColumnRef};
ghost use Rattle.rules.specs.Statements.{Expr};
ghost use Rattle.image_parts.specs.Layout.{source_body, insertion};
ghost use Rattle.rules.specs.Analyze.{value_fit, insert_row, insert_body};
ghost use Rattle.bind_fits.specs.Told.{kind_of};
ghost use Rattle.bind_operators.specs.Told.{told};
ghost use Rattle.bind_table.specs.Told.{sized};
ghost use Rattle.bind_insert_columns.specs.Coded.{column_code};
ghost use Rattle.bind_insert_rows.specs.Values.{Measures, insert_value, fit_told};
ghost use Rattle.bind_insert_rows.specs.Sources.{given_rows};

use bind_fits::{ValueKind, value_fit};
use bind_literal::{Scalar, insert_literal, text_of};
use image_bound::values::{bool_len, int_len, null_len, text_len};
use image_insert::{body_of, explicit_row, has_clauses, has_source, is_values, rows_of, source_of};
use rules::{Class, DataType, Refusal};

// A column's byte: 0 INT, 1 TEXT, 2 BOOL, and 4 more where it is nullable.
fn type_in(code: u8) -> DataType
    ensures { (c : BoundColumnRef) → code ≡ column_code c → result ≡ c.ty }
{
    let ty = code % 4;
    if ty == 0 {
        return DataType::Int;
    }
    if ty == 1 {
        return DataType::Text;
    }
    DataType::Bool
}

fn fits(given: ValueKind, code: u8) -> Result<(), Class>
    ensures { (v : Value) (c : BoundColumnRef) → kind_of v ≡ given → code ≡ column_code c → result ≡ told (value_fit v c) }
{
    value_fit(given, type_in(code), 4 <= code)
}

// What fits is n bytes long.
fn fitted(fit: Result<(), Class>, n: usize) -> Result<usize, Refusal>
    ensures { result ≡ fit_told fit n }
{
    fit?;
    Ok(n)
}

fn value_len(e: &[u8], code: u8) -> Result<usize, Refusal>
    requires { Is expression e.now × (length e.now ≤ 65536) }
    ensures { IfOk result (λ k. k ≤ 65537) × ((x : Expr) (c : BoundColumnRef) → Holds expression e.now x → code ≡ column_code c → result ≡ sized value (insert_value x c)) }
{
    match insert_literal(e) {
        Ok(Scalar::Int(_)) => fitted(fits(ValueKind::Int, code), int_len()),
        Ok(Scalar::Text) => fitted(fits(ValueKind::Text, code), text_len(text_of(e).len())),
        Ok(Scalar::Bool(_)) => fitted(fits(ValueKind::Bool, code), bool_len()),
        Ok(Scalar::Null) => fitted(fits(ValueKind::Null, code), null_len()),
        Err(r) => Err(r),
    }
}

// As many values as there are columns, each fit for its own.
fn row_len(row: &[u8], codes: &[u8; 64], n: usize) -> Result<usize, Refusal>
    requires { Is (list_of 2 expression) row.now × (n ≤ 64) }
    ensures { IfOk result (λ k. k ≤ 4194628) × Measures codes.now n (list_of 2 expression) row.now (list_of 4 value) insert_row result }
{
    if bytes_bundle::parts(row, 2) != n {
        return Err(Refusal {
            class: Class::ConstraintViolation,
        });
    }
    let mut total = 4;
    for (j, e) in bytes_bundle::iter(row, 2).enumerate() {
        total += 4 + value_len(e, codes[j])?;
    }
    Ok(total)
}

fn rows_len(rows: &[u8], codes: &[u8; 64], n: usize) -> Result<usize, Refusal>
    requires { Is (list_of 2 (list_of 2 expression)) rows.now × (n ≤ 64) }
    ensures { IfOk result (λ k. k ≤ 300000000000)
        × Measures codes.now n (list_of 2 (list_of 2 expression)) rows.now (list_of 4 (list_of 4 value)) (λ cs. each (insert_row cs)) result }
{
    let mut total = 4;
    for row in bytes_bundle::iter(rows, 2) {
        total += 4 + row_len(row, codes, n)?;
    }
    Ok(total)
}

// The rows of VALUES: some, and not in the ROW form.
fn body_len(b: &[u8], codes: &[u8; 64], n: usize) -> Result<usize, Refusal>
    requires { Is source_body b.now × (n ≤ 64) }
    ensures { IfOk result (λ k. k ≤ 300000000000) × Measures codes.now n source_body b.now (list_of 4 (list_of 4 value)) insert_body result }
{
    if !is_values(b) {
        return Err(Refusal {
            class: Class::UnsupportedSql,
        });
    }
    if explicit_row(b) {
        return Err(Refusal {
            class: Class::UnsupportedSql,
        });
    }
    let rows = rows_of(b);
    if bytes_bundle::parts(rows, 2) == 0 {
        return Err(Refusal {
            class: Class::InvalidArgument,
        });
    }
    rows_len(rows, codes, n)
}

pub fn source_len(i: &[u8], codes: &[u8; 64], n: usize) -> Result<usize, Refusal>
    requires { Is insertion i.now × (n ≤ 64) }
    ensures { IfOk result (λ k. k ≤ 300000000000)
        × Measures codes.now n insertion i.now (list_of 4 (list_of 4 value)) (λ cs v. given_rows cs v.source) result }
{
    if !has_source(i) {
        return Err(Refusal {
            class: Class::UnsupportedSql,
        });
    }
    let s = source_of(i);
    if has_clauses(s) {
        return Err(Refusal {
            class: Class::UnsupportedSql,
        });
    }
    body_len(body_of(s), codes, n)
}
