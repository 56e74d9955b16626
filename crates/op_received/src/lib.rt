// What is told of a statement's bytes and of a catalogue's before the rules are asked: refusals 5 to 8, or nothing.
#![tactic(auto)]

ghost use Rattle.std.specs.Prelude.{◌≡◌, cond, length};
ghost use Rattle.std.proofs.Math.Option.{some};
ghost use Rattle.bytes_bundle.specs.Bundle.{is_there};
ghost use Rattle.bytes_bundle.specs.Held.{Is, Holds};
ghost use Rattle.rules.specs.Statements.{Statement};
ghost use Rattle.image_parts.specs.Layout.{statement};
ghost use Rattle.op_reply.specs.Leaves.{told_number};
ghost use Rattle.op_received.specs.Told.{of_statement, told_of_statement, told_of_catalogue, told_of_both};

use op_reply::Refused;

// 5.
fn is_statement(s: &[u8]) -> Result<(), Refused>
    ensures { told_number result ≡ cond (is_there (statement.read s.now)) 0 5 }
{
    if image_statement::is_statement(s) {
        Ok(())
    } else {
        Err(Refused::NoStatement)
    }
}

// 7, then 8.
fn judged(s: &[u8]) -> Result<(), Refused>
    requires { Is statement s.now }
    ensures { (v : Statement) → Holds statement s.now v → told_number result ≡ of_statement (length s.now) (some v) }
{
    if !statement_limits::statement_within(s) {
        return Err(Refused::PastALimit);
    }
    if statement_ascii::names_beyond_ascii(s) {
        return Err(Refused::NameBeyondAscii);
    }
    Ok(())
}

// Whether the rules judge it.
pub fn read_statement(s: &[u8]) -> Result<(), Refused>
    ensures { told_number result ≡ told_of_statement s.now }
{
    is_statement(s)?;
    judged(s)
}

// Whether it can be bound against.
pub fn read_catalogue(c: &[u8]) -> Result<(), Refused>
    ensures { told_number result ≡ told_of_catalogue c.now }
{
    if !catalogue_sound::is_catalogue(c) {
        return Err(Refused::NoCatalogue);
    }
    if !catalogue_limits::catalogue_within(c) {
        return Err(Refused::PastALimit);
    }
    Ok(())
}

// 5, 6, 7, 8 of both, in this order: of what a statement is refused for, only 5 comes before the catalogue's 6 and 7.
pub fn received(s: &[u8], c: &[u8]) -> Result<(), Refused>
    ensures { told_number result ≡ told_of_both s.now c.now }
{
    is_statement(s)?;
    read_catalogue(c)?;
    judged(s)
}
