use super::OVER;
use ftl_base::{Val, Width, add, div_floor, mul, neg, sub};

/// Two operands, their sum, their difference and their product in the narrow width.
static NARROW: [[i64; 5]; 10] = [
    [10, 15, 25, -5, 150],
    [2147483646, 1, 2147483647, 2147483645, 2147483646],
    [2147483647, 1, OVER, 2147483646, 2147483647],
    [-2147483648, 1, -2147483647, OVER, -2147483648],
    [-2147483648, -1, OVER, -2147483647, OVER],
    [46340, 46340, 92680, 0, 2147395600],
    [46341, 46341, 92682, 0, OVER],
    [65536, -32768, 32768, 98304, -2147483648],
    [OVER, 0, OVER, OVER, OVER],
    [0, OVER, OVER, OVER, OVER],
];

/// The same in the wide width.
static WIDE: [[i64; 5]; 10] = [
    [2147483647, 1, 2147483648, 2147483646, 2147483647],
    [140737488355327, 1, OVER, 140737488355326, 140737488355327],
    [
        -140737488355328,
        1,
        -140737488355327,
        OVER,
        -140737488355328,
    ],
    [-140737488355328, -1, OVER, -140737488355327, OVER],
    [11863283, 11863283, 23726566, 0, 140737483538089],
    [11863284, 11863284, 23726568, 0, OVER],
    [16777216, -8388608, 8388608, 25165824, -140737488355328],
    [140737488355327, 140737488355327, OVER, 0, OVER],
    [-140737488355328, 140737488355327, -1, OVER, OVER],
    [OVER, OVER, OVER, OVER, OVER],
];

#[test]
fn sums_differences_and_products(rt: HostRuntime) {
    for (width, rows) in [(Width::Narrow, &NARROW), (Width::Wide, &WIDE)] {
        for &[a, b, sum, difference, product] in rows {
            let (a, b) = (Val::num(a), Val::num(b));
            assert_eq!(rt; add(width, a, b), Val::num(sum));
            assert_eq!(rt; sub(width, a, b), Val::num(difference));
            assert_eq!(rt; mul(width, a, b), Val::num(product));
        }
    }
}

/// An operand, the number with the other sign, and the quotient by 1, by 2 and by 2147483647.
static QUOTIENTS: [(Width, [i64; 5]); 10] = [
    (Width::Narrow, [7, -7, 7, 3, 0]),
    (Width::Narrow, [-7, 7, -7, -4, -1]),
    (Width::Narrow, [0, 0, 0, 0, 0]),
    (
        Width::Narrow,
        [2147483647, -2147483647, 2147483647, 1073741823, 1],
    ),
    (
        Width::Narrow,
        [-2147483648, OVER, -2147483648, -1073741824, -2],
    ),
    (
        Width::Narrow,
        [2147483648, -2147483648, OVER, 1073741824, 1],
    ),
    (Width::Narrow, [OVER, OVER, OVER, OVER, OVER]),
    (
        Width::Wide,
        [
            140737488355327,
            -140737488355327,
            140737488355327,
            70368744177663,
            65536,
        ],
    ),
    (
        Width::Wide,
        [
            -140737488355328,
            OVER,
            -140737488355328,
            -70368744177664,
            -65537,
        ],
    ),
    (Width::Wide, [OVER, OVER, OVER, OVER, OVER]),
];

#[test]
fn quotients(rt: HostRuntime) {
    for &(width, [a, negated, by_one, by_two, by_greatest]) in &QUOTIENTS {
        let a = Val::num(a);
        assert_eq!(rt; neg(width, a), Val::num(negated));
        assert_eq!(rt; div_floor(width, a, 1), Val::num(by_one));
        assert_eq!(rt; div_floor(width, a, 2), Val::num(by_two));
        assert_eq!(rt; div_floor(width, a, 2147483647), Val::num(by_greatest));
    }
}
