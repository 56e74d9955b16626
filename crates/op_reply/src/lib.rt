// What a caller of a public operation hears: how many bytes were written at the front of the output, or why not. `specs/Leaves.antt` has the
// numbers, and what an output then holds.
#![tactic(auto)]

ghost use Rattle.std.specs.Prelude.{◌≡◌};
ghost use Rattle.rules.specs.Heard.{class_no};
ghost use Rattle.op_reply.specs.Leaves.{number_of, told_number};

use rules::{Class, Refusal};
use std::fmt;

// Why a caller is refused, by its number. Nothing is written then.
#[derive(Clone, Copy, Debug, PartialEq, Eq)]
pub enum Refused {
    SchemaMismatch = 1,
    ConstraintViolation = 2,
    UnsupportedSql = 3,
    InvalidArgument = 4,
    NoStatement = 5,
    NoCatalogue = 6,
    PastALimit = 7,
    NameBeyondAscii = 8,
    NoRoom = 9,
    NoRow = 10,
    Fault = 11,
    NoUpdate = 12,
}

impl Refused {
    pub fn number(self) -> u8
        ensures { result ≡ number_of self }
    {
        self as u8
    }
}

// What the rules refuse: 1 to 4.
impl From<Refusal> for Refused {
    ghost from_gives = { λ refusal refused. number_of refused ≡ class_no refusal.class };

    fn from(refusal: Refusal) -> Refused {
        match refusal.class {
            Class::SchemaMismatch => Refused::SchemaMismatch,
            Class::ConstraintViolation => Refused::ConstraintViolation,
            Class::UnsupportedSql => Refused::UnsupportedSql,
            Class::InvalidArgument => Refused::InvalidArgument,
        }
    }
}

impl fmt::Display for Refused {
    fn fmt<W: fmt::Write>(&self, f: &mut fmt::Formatter<W>) -> fmt::Result {
        write!(f, "refused {}", self.number())
    }
}

// The number of the refusal, and 0 where there is none.
pub fn told_number<T: Copy>(heard: Result<T, Refused>) -> u8
    ensures { result ≡ told_number heard }
{
    match heard {
        Ok(_) => 0,
        Err(refused) => refused.number(),
    }
}
