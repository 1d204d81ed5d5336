//! What mends types that don't agree.
use crate::refusing::operands;
use crate::typing::taker_kind;
use facts::abstract_value::AbstractValue;
use facts::fact::Fact;
use point_types::{IlType, Operator};
use scan_code::{Image, Op};

/// What mends the types at an instruction that is refused for them, and where.
#[derive(Clone, Copy, PartialEq, Eq, Debug)]
pub struct Mend {
    pub way: Way,
    pub place: MendPlace,
}

/// By what types that don't agree are mended.
#[derive(Clone, Copy, PartialEq, Eq, Debug)]
pub enum Way {
    /// A conversion from the first type to the second.
    Convert(IlType, IlType),
    /// No conversion: the value has the type to which it is converted.
    LeaveAway,
    /// A comparison, which makes a BOOL of a number.
    Compare,
    /// SEL, which makes a number of this type of a BOOL.
    Choose(IlType),
    /// A store in place of S or R.
    Store,
}

/// Where types are mended.
#[derive(Clone, Copy, PartialEq, Eq, Debug)]
pub enum MendPlace {
    /// On a line before the one that is refused.
    Before,
    /// In parentheses after the operator, which take the operand.
    Inside,
    /// On lines before, with a variable for the operand: the operator takes no parentheses.
    Apart,
}

/// The type of a number that is chosen by a BOOL, where nothing says which one is wanted.
const ANY_NUMBER: IlType = IlType::Int;

/// What mends the types, by what is known before an instruction; None where there is no result.
pub(crate) fn mended_by(image: &Image, fact: &Fact, op: Op) -> Option<Mend> {
    let (result, deferred) = operands(fact);
    let kind = result?.kind;
    match op {
        Op::StoreVariable(_) | Op::StoreOutput(_) => {
            Some(before(made(kind, taker_kind(image, op)?)))
        }
        Op::SetVariable(_) | Op::ResetVariable(_) | Op::SetOutput(_) | Op::ResetOutput(_) => {
            Some(before(set(taker_kind(image, op)?)))
        }
        Op::Apply(operator) => Some(applied(operator, deferred?.kind, kind)),
        Op::Select => chosen(fact.deferred.as_slice(), kind),
        Op::Convert(from, to) => Some(before(converted(kind, from, to))),
        Op::Absolute => Some(before(Way::Choose(ANY_NUMBER))),
        _ => Some(before(Way::Compare)),
    }
}

fn before(way: Way) -> Mend {
    Mend {
        way,
        place: MendPlace::Before,
    }
}

/// What makes a value of the second type of one of the first.
fn made(from: IlType, to: IlType) -> Way {
    if from == to {
        Way::LeaveAway
    } else if to == IlType::Bool {
        Way::Compare
    } else if from == IlType::Bool {
        Way::Choose(to)
    } else {
        Way::Convert(from, to)
    }
}

/// What a conversion from one type to another wants of a value of a third one.
fn converted(kind: IlType, from: IlType, to: IlType) -> Way {
    if kind == IlType::Bool {
        Way::Choose(from)
    } else {
        made(kind, to)
    }
}

/// S and R want a BOOL, and one to set.
fn set(taker: IlType) -> Way {
    if taker == IlType::Bool {
        Way::Compare
    } else {
        Way::Store
    }
}

/// Of the operands of an operator: of the first one on a line before, else of the second one.
fn applied(operator: Operator, first: IlType, second: IlType) -> Mend {
    let wants_bool = matches!(operator, Operator::And | Operator::Or | Operator::Xor);
    if wants_bool && first != IlType::Bool {
        return before(Way::Compare);
    }
    let way = if wants_bool {
        Way::Compare
    } else if first == IlType::Bool {
        return before(Way::Choose(number_beside(second)));
    } else if second == IlType::Bool {
        Way::Choose(first)
    } else if is_wider(second, first) {
        return before(Way::Convert(first, second));
    } else {
        Way::Convert(second, first)
    };
    Mend {
        way,
        place: place_of_operand(operator),
    }
}

/// The type of a number that stands beside a value of this type.
fn number_beside(kind: IlType) -> IlType {
    if kind == IlType::Bool {
        ANY_NUMBER
    } else {
        kind
    }
}

/// Whether a type holds numbers that another one doesn't.
fn is_wider(one: IlType, other: IlType) -> bool {
    one.low() < other.low() || one.high() > other.high()
}

/// Where the operand of an operator is mended.
fn place_of_operand(operator: Operator) -> MendPlace {
    match operator {
        Operator::Min | Operator::Max => MendPlace::Apart,
        _ => MendPlace::Inside,
    }
}

/// Of SEL, by the deferred values and the last one.
fn chosen(deferred: &[Option<AbstractValue>], last: IlType) -> Option<Mend> {
    let [Some(first), Some(chooser), ..] = deferred else {
        return None;
    };
    if chooser.kind != IlType::Bool {
        return Some(before(Way::Compare));
    }
    Some(Mend {
        way: alike(first.kind, last),
        place: MendPlace::Apart,
    })
}

/// What makes two values of one type: a number of the BOOL, or a conversion of the narrower one.
fn alike(first: IlType, second: IlType) -> Way {
    if first == IlType::Bool {
        Way::Choose(second)
    } else if second == IlType::Bool {
        Way::Choose(first)
    } else if is_wider(second, first) {
        Way::Convert(first, second)
    } else {
        Way::Convert(second, first)
    }
}
