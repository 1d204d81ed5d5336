//! A value with its type.
ghost use Rattle.std.specs.Prelude.{◌≡◌};

use point_types::IlType;
use std::marker::Model;

/// A number with its type: a result, or a deferred value. BOOL counts FALSE as 0, TRUE as 1.
#[derive(Clone, Copy, PartialEq, Eq, Debug)]
pub(crate) struct Value {
    kind: IlType,
    number: i64,
}

impl Model for Value {
    ghost use Rattle.point_types.specs.Value.{Value as TypedNumber};

    ghost Value = { TypedNumber };

    ghost view = { λ v. record { kind = v.kind; number = v.number } };

    ghost inverse = { λ v. record { kind = v.kind; number = v.number } };
}

impl Value {
    ghost use Rattle.point_types.specs.Value.{truth};

    pub fn new(kind: IlType, number: i64) -> Self
        ensures { result ≡ record { kind = kind; number = number } }
    {
        Value { kind, number }
    }

    pub fn truth(value: bool) -> Self
        ensures { result ≡ truth value }
    {
        Value {
            kind: IlType::Bool,
            number: value as i64,
        }
    }

    pub fn kind(self) -> IlType
        ensures { result ≡ self.kind }
    {
        self.kind
    }

    pub fn number(self) -> i64
        ensures { result ≡ self.number }
    {
        self.number
    }
}
