//! The ends of the total of some tags, and of a partial one.
ghost use Rattle.std.specs.Prelude.{◌≡◌, ◌+ℤ◌, ◌≤ℤ◌, ◌^◌, neg_ℤ, pos, slice_get, option_map, IfSome};
ghost use Rattle.point_types.specs.Reading.{IsExponent};
ghost use Rattle.served_ranges.specs.Shown.{exponent_of, greater, greatest_choice, highest_partial, highest_total, least_choice, lesser, lowest_partial, lowest_total};

use site_model::SiteTag;

/// The least total of the numbers in the ranges of some tags; None where one of them is none.
pub(crate) fn lowest_total(tags: &[SiteTag], parts: &[usize]) -> Option<i128>
    ensures { result ≡ lowest_total tags.now parts.now }
{
    let mut total: i128 = 0;
    for part in parts {
        let Some(low) = low_at(tags, *part) else {
            return None;
        };
        total = added(total, low);
    }
    Some(total)
}

/// The greatest total of the numbers in the ranges of some tags; None where one of them is none.
pub(crate) fn highest_total(tags: &[SiteTag], parts: &[usize]) -> Option<i128>
    ensures { result ≡ highest_total tags.now parts.now }
{
    let mut total: i128 = 0;
    for part in parts {
        let Some(high) = high_at(tags, *part) else {
            return None;
        };
        total = added(total, high);
    }
    Some(total)
}

/// The least total of one or more of some tags, by the numbers in their ranges; None where one of them is none.
pub(crate) fn lowest_partial(tags: &[SiteTag], parts: &[usize]) -> Option<i128>
    ensures { result ≡ lowest_partial tags.now parts.now }
{
    let mut least: Option<i128> = None;
    for part in parts {
        let Some(low) = low_at(tags, *part) else {
            return None;
        };
        least = Some(least_choice(least, low));
    }
    least
}

/// The greatest total of one or more of some tags.
pub(crate) fn highest_partial(tags: &[SiteTag], parts: &[usize]) -> Option<i128>
    ensures { result ≡ highest_partial tags.now parts.now }
{
    let mut greatest: Option<i128> = None;
    for part in parts {
        let Some(high) = high_at(tags, *part) else {
            return None;
        };
        greatest = Some(greatest_choice(greatest, high));
    }
    greatest
}

/// The least of what there was, of one more number, and of both together.
fn least_choice(before: Option<i128>, n: i64) -> i128
    requires least { IfSome before (λ b. neg_ℤ (pos (2 ^ 126)) ≤ℤ b) }
    requires most { IfSome before (λ b. b ≤ℤ pos (2 ^ 126)) }
    ensures value { result ≡ least_choice before n }
    ensures least { neg_ℤ (pos (2 ^ 63)) ≤ℤ n }
    ensures most { n ≤ℤ pos (2 ^ 63) }
{
    match before {
        Some(before) => lesser(lesser(before, i128::from(n)), added(before, n)),
        None => i128::from(n),
    }
}

/// The greatest of them.
fn greatest_choice(before: Option<i128>, n: i64) -> i128
    requires least { IfSome before (λ b. neg_ℤ (pos (2 ^ 126)) ≤ℤ b) }
    requires most { IfSome before (λ b. b ≤ℤ pos (2 ^ 126)) }
    ensures value { result ≡ greatest_choice before n }
    ensures least { neg_ℤ (pos (2 ^ 63)) ≤ℤ n }
    ensures most { n ≤ℤ pos (2 ^ 63) }
{
    match before {
        Some(before) => greater(greater(before, i128::from(n)), added(before, n)),
        None => i128::from(n),
    }
}

fn lesser(m: i128, n: i128) -> i128
    ensures { result ≡ lesser m n }
{
    if m <= n { m } else { n }
}

fn greater(m: i128, n: i128) -> i128
    ensures { result ≡ greater m n }
{
    if m <= n { n } else { m }
}

/// The exponent of the first of some tags.
pub(crate) fn exponent_of(tags: &[SiteTag], parts: &[usize]) -> Option<i8>
    ensures value { result ≡ exponent_of tags.now parts.now }
    ensures scalable { IfSome result IsExponent }
{
    match parts {
        [first, ..] => exponent_at(tags, *first),
        [] => None,
    }
}

fn low_at(tags: &[SiteTag], i: usize) -> Option<i64>
    ensures { result ≡ option_map (λ t. t.low) (slice_get tags.now i) }
{
    match tag_at(tags, i) {
        Some(tag) => Some(tag.low),
        None => None,
    }
}

fn high_at(tags: &[SiteTag], i: usize) -> Option<i64>
    ensures { result ≡ option_map (λ t. t.high) (slice_get tags.now i) }
{
    match tag_at(tags, i) {
        Some(tag) => Some(tag.high),
        None => None,
    }
}

fn exponent_at(tags: &[SiteTag], i: usize) -> Option<i8>
    ensures value { result ≡ option_map (λ t. t.exponent) (slice_get tags.now i) }
    ensures scalable { IfSome result IsExponent }
{
    match tag_at(tags, i) {
        Some(tag) => Some(tag.exponent),
        None => None,
    }
}

fn tag_at(tags: &[SiteTag], i: usize) -> Option<&SiteTag>
    ensures { option_map (λ t. t.now) result ≡ slice_get tags.now i }
{
    tags.get(i)
}

fn added(total: i128, n: i64) -> i128
    requires least { neg_ℤ (pos (2 ^ 126)) ≤ℤ total }
    requires most { total ≤ℤ pos (2 ^ 126) }
    ensures value { result ≡ total +ℤ n }
    ensures least { neg_ℤ (pos (2 ^ 63)) ≤ℤ n }
    ensures most { n ≤ℤ pos (2 ^ 63) }
{
    total + i128::from(n)
}
