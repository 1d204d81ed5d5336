//! Values as decimal numbers.
use crate::tests::assert_same;
use note_text::decimal;

/// Numbers, their exponents, and how they are shown.
const VALUES: &[(i128, i8, &str)] = &[
    (0, 3, "0"),
    (25, 0, "25"),
    (25, 2, "2500"),
    (-25, 1, "-250"),
    (25, -1, "2.5"),
    (-5, -2, "-0.05"),
    (1, -10, "0.0000000001"),
    (65535, 10, "655350000000000"),
];

#[test]
fn values_are_decimal(rt: HostRuntime) {
    for (number, exponent, shown) in VALUES {
        let text = decimal(rt.alloc(), *number, *exponent).expect(&rt, "memory");
        assert_same(&rt, &text.as_str(), shown);
    }
}
