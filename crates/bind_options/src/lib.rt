// What the options of a column have said so far. Each option is taken by a method, which hands back the new state or the class of a refusal.
#![tactic(auto, unfolding(rules::specs::Analyze::option_of, rules::specs::Analyze::set_nullability))]

ghost use Rattle.std.specs.Prelude.{◌≡◌, Bool, not, ◌&&◌};
ghost use Rattle.std.proofs.Math.Option.{some};
ghost use Rattle.rules.specs.Statements.{option_null, option_not_null, option_key};
ghost use Rattle.rules.specs.Analyze.{no_options, set_nullability, option_of, said_null, said_not_null};
ghost use Rattle.bind_options.specs.Steps.{nullability_of, state_of, step_of};

use rules::Class;

#[derive(Clone, Copy, PartialEq, Eq)]
pub enum Nullability {
    Unsaid,
    Null,
    NotNull,
}

#[derive(Clone, Copy)]
pub struct OptionState {
    pub nullability: Nullability,
    pub key: bool,
}

// A column of which no option is read yet.
pub fn start() -> OptionState
    ensures { state_of result ≡ no_options }
{
    OptionState {
        nullability: Nullability::Unsaid,
        key: false,
    }
}

impl OptionState {
    // Nullability that is given again is refused, even where it agrees.
    fn set_nullability(self, given: Nullability) -> Result<OptionState, Class>
        ensures { (n : Bool) → nullability_of given ≡ some n → step_of result ≡ set_nullability (state_of self) n }
    {
        if self.nullability != Nullability::Unsaid {
            return Err(Class::ConstraintViolation);
        }
        Ok(OptionState {
            nullability: given,
            ..self
        })
    }

    pub fn null(self) -> Result<OptionState, Class>
        ensures { step_of result ≡ option_of (state_of self) option_null }
    {
        self.set_nullability(Nullability::Null)
    }

    pub fn not_null(self) -> Result<OptionState, Class>
        ensures { step_of result ≡ option_of (state_of self) option_not_null }
    {
        self.set_nullability(Nullability::NotNull)
    }

    // A key may be given twice. With NULL it is refused only once all options are read, by `is_refused_key`.
    pub fn key(self) -> Result<OptionState, Class>
        ensures { step_of result ≡ option_of (state_of self) option_key }
    {
        Ok(OptionState { key: true, ..self })
    }

    // A key together with NULL.
    pub fn is_refused_key(self) -> bool
        ensures { result ≡ ((state_of self).key && said_null (state_of self).nullability) }
    {
        self.key && self.nullability == Nullability::Null
    }

    // Whether the column may be null: key columns are not nullable, others are unless NOT NULL.
    pub fn nullable(self) -> bool
        ensures { result ≡ (not (state_of self).key && not (said_not_null (state_of self).nullability)) }
    {
        !self.key && self.nullability != Nullability::NotNull
    }
}
