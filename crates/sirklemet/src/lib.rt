// The public operations and the readers as C calls them: a slice is a pointer and a length, and any bytes will do. Nothing is judged here that
// a crate below does not judge.
#![tactic(auto)]

ghost use Rattle.std.specs.Prelude.{◌≡◌, length};
ghost use Rattle.bytes_bundle.specs.Bundle.{is_there};
ghost use Rattle.image_parts.specs.Layout.{statement};
ghost use Rattle.image_catalogue.specs.Layout.{catalogue};
ghost use Rattle.image_row.specs.Layout.{row};
ghost use Rattle.op_received.specs.Entry.{bind_bytes, run_bytes};
ghost use Rattle.op_reply.specs.Leaves.{Leaves, reply};
ghost use Rattle.op_received.specs.Told.{told_of_statement, told_of_catalogue};
ghost use Rattle.sirklemet.specs.Told.{told_obeys};

use op_reply::told_number;

// 0, with `written` bytes of the bound statement at the front of `out`; or the number of a refusal, with `written` 0 and `out` as it was.
#[unsafe(no_mangle)]
pub extern "C" fn sirklemet_bind(
    statement: &[u8],
    catalogue: &[u8],
    out: &mut [u8],
    written: &mut usize,
) -> u8
    ensures { Leaves (bind_bytes statement.now catalogue.now (length out.old)) out.old
        (reply result written.new) out.new }
{
    let heard = op_bind::bind(statement, catalogue, out);
    *written = heard.unwrap_or(0);
    told_number(heard)
}

// The same of an UPDATE that is run on one row: the new row at the front of `out`, or a refusal.
#[unsafe(no_mangle)]
pub extern "C" fn sirklemet_run<'a>(
    statement: &'a [u8],
    catalogue: &'a [u8],
    row: &'a [u8],
    out: &mut [u8],
    written: &mut usize,
) -> u8
    ensures { Leaves (run_bytes statement.now catalogue.now row.now (length out.old))
        out.old (reply result written.new) out.new }
{
    let ran = op_run::run(statement, catalogue, row, out);
    *written = ran.unwrap_or(0);
    told_number(ran)
}

#[unsafe(no_mangle)]
pub extern "C" fn sirklemet_is_statement(bytes: &[u8]) -> bool
    ensures { result ≡ is_there (statement.read bytes.now) }
{
    image_statement::is_statement(bytes)
}

// 5: no statement. 7: one past a limit. 8: one with an unquoted name beyond ASCII. 0: one that the rules judge.
#[unsafe(no_mangle)]
pub extern "C" fn sirklemet_read_statement(bytes: &[u8]) -> u8
    ensures { result ≡ told_of_statement bytes.now }
{
    told_number(op_received::read_statement(bytes))
}

#[unsafe(no_mangle)]
pub extern "C" fn sirklemet_is_catalogue(bytes: &[u8]) -> bool
    ensures { result ≡ is_there (catalogue.read bytes.now) }
{
    catalogue_sound::is_catalogue(bytes)
}

// 6: no catalogue. 7: one past a limit. 0: one that can be bound against.
#[unsafe(no_mangle)]
pub extern "C" fn sirklemet_read_catalogue(bytes: &[u8]) -> u8
    ensures { result ≡ told_of_catalogue bytes.now }
{
    told_number(op_received::read_catalogue(bytes))
}

// Of whatever table.
#[unsafe(no_mangle)]
pub extern "C" fn sirklemet_is_row(bytes: &[u8]) -> bool
    ensures { result ≡ is_there (row.read bytes.now) }
{
    image_row::is_row(bytes)
}

// Whether a row obeys the table of this number, from 0. No row obeys a table that is not there.
#[unsafe(no_mangle)]
pub extern "C" fn sirklemet_obeys(bytes: &[u8], tables: &[u8], number: usize) -> bool
    ensures { result ≡ told_obeys bytes.now tables.now number }
{
    if !catalogue_sound::is_catalogue(tables) {
        return false;
    }
    if bytes_bundle::parts(tables, 2) <= number {
        return false;
    }
    image_row::obeys(bytes, bytes_bundle::part(tables, 2, number))
}
