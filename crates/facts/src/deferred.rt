//! Lists of deferred values: copied, met, and without what a store makes untrue.
ghost use Rattle.std.specs.Prelude.{◌≡◌, ◌∷◌, IfOk, OnOk, drop, map};
ghost use Rattle.facts.specs.Fact.{met_value, zipped};
ghost use Rattle.facts.specs.Flow.{forgets_in};

use crate::abstract_value::{AbstractValue, meet_value};
use point_types::Items;
use std::alloc::{AllocError, Global};

/// A value that may be nothing, once more.
pub(crate) fn copied_value(
    alloc: Global,
    value: &Option<AbstractValue>,
) -> Result<Option<AbstractValue>, AllocError>
    ensures { IfOk result (λ copy. copy ≡ value.now) }
{
    match value {
        Some(known) => Ok(Some(known.copied(alloc)?)),
        None => Ok(None),
    }
}

/// Deferred values, once more.
pub(crate) fn copied_values(
    alloc: Global,
    values: &[Option<AbstractValue>],
) -> Result<Items<Option<AbstractValue>>, AllocError>
    ensures { IfOk result (λ copies. copies ≡ values.now) }
{
    let mut copies = Vec::with_capacity(alloc, values.len())?;
    for value in values {
        copies.push(copied_value(alloc, value)?)?;
    }
    Ok(Items::from_vec(copies))
}

/// What is still known of a value once a variable has another value.
pub(crate) fn forget_in(
    alloc: Global,
    value: &mut Option<AbstractValue>,
    v: usize,
) -> Result<(), AllocError>
    ensures { OnOk result (value.new ≡ forgets_in v value.old) }
{
    match value {
        Some(known) => known.forget(alloc, v),
        None => Ok(()),
    }
}

/// What is still known of deferred values once a variable has another value.
pub(crate) fn forgetting(
    alloc: Global,
    values: Items<Option<AbstractValue>>,
    v: usize,
) -> Result<Items<Option<AbstractValue>>, AllocError>
    ensures { IfOk result (λ kept. kept ≡ map (forgets_in v) values) }
{
    let mut kept = Vec::with_capacity(alloc, values.len())?;
    for value in values.into_vec() {
        let mut value = value;
        forget_in(alloc, &mut value, v)?;
        kept.push(value)?;
    }
    Ok(Items::from_vec(kept))
}

/// What is known of deferred values on ways that meet.
pub(crate) fn met_values(
    alloc: Global,
    ones: Items<Option<AbstractValue>>,
    others: &[Option<AbstractValue>],
) -> Result<Items<Option<AbstractValue>>, AllocError>
    ensures { IfOk result (λ values. values ≡ zipped met_value ones others.now) }
{
    let mut values = Vec::with_capacity(alloc, ones.len())?;
    let mut ones = ones.into_vec().into_iter();
    let mut others = others;
    while let Some(one) = ones.next() {
        let [other, after @ ..] = others else {
            break;
        };
        values.push(meet_value(alloc, one, other))?;
        others = after;
    }
    Ok(Items::from_vec(values))
}

/// The deferred values but for the last one, if there is one.
pub(crate) fn without_last(values: Items<Option<AbstractValue>>) -> Items<Option<AbstractValue>>
    ensures { result ≡ drop 1 values }
{
    let mut others = values.into_vec();
    if !others.is_empty() {
        others.remove(0);
    }
    Items::from_vec(others)
}

/// The deferred values with one more, which is the last.
pub(crate) fn deferring(
    value: Option<AbstractValue>,
    values: Items<Option<AbstractValue>>,
) -> Result<Items<Option<AbstractValue>>, AllocError>
    ensures { IfOk result (λ deferred. deferred ≡ value ∷ values) }
{
    let mut values = values.into_vec();
    values.insert(0, value)?;
    Ok(Items::from_vec(values))
}
