use super::OVER;
use ftl_base::Truth::{No, Overflow, Yes};
use ftl_base::{Cmp, Truth, Val, both, choose, compare, either, greatest, least, not};

/// Two operands, the least and the greatest of them, and whether the first is less, not above and
/// equal.
static COMPARISONS: [(i64, i64, i64, i64, Truth, Truth, Truth); 8] = [
    (1, 2, 1, 2, Yes, Yes, No),
    (2, 2, 2, 2, No, Yes, Yes),
    (-4, -7, -7, -4, No, No, No),
    (-1, 140737488355327, -1, 140737488355327, Yes, Yes, No),
    (0, -140737488355328, -140737488355328, 0, No, No, No),
    (
        OVER,
        140737488355327,
        OVER,
        OVER,
        Overflow,
        Overflow,
        Overflow,
    ),
    (-5, OVER, OVER, OVER, Overflow, Overflow, Overflow),
    (OVER, OVER, OVER, OVER, Overflow, Overflow, Overflow),
];

#[test]
fn comparisons(rt: HostRuntime) {
    for &(a, b, lesser, greater, less, less_eq, equal) in &COMPARISONS {
        let (a, b) = (Val::num(a), Val::num(b));
        assert_eq!(rt; least(a, b), Val::num(lesser));
        assert_eq!(rt; greatest(a, b), Val::num(greater));
        assert_eq!(rt; compare(Cmp::Less, a, b), less);
        assert_eq!(rt; compare(Cmp::MoreEq, a, b), not(less));
        assert_eq!(rt; compare(Cmp::LessEq, a, b), less_eq);
        assert_eq!(rt; compare(Cmp::More, a, b), not(less_eq));
        assert_eq!(rt; compare(Cmp::Equal, a, b), equal);
        assert_eq!(rt; compare(Cmp::Unequal, a, b), not(equal));
    }
}

/// Two truths, the opposite of the first, whether both hold, and whether one holds.
static TRUTHS: [[Truth; 5]; 9] = [
    [Yes, Yes, No, Yes, Yes],
    [Yes, No, No, No, Yes],
    [Yes, Overflow, No, Overflow, Overflow],
    [No, Yes, Yes, No, Yes],
    [No, No, Yes, No, No],
    [No, Overflow, Yes, Overflow, Overflow],
    [Overflow, Yes, Overflow, Overflow, Overflow],
    [Overflow, No, Overflow, Overflow, Overflow],
    [Overflow, Overflow, Overflow, Overflow, Overflow],
];

#[test]
fn truths(rt: HostRuntime) {
    for &[a, b, opposite, all, one] in &TRUTHS {
        assert_eq!(rt; not(a), opposite);
        assert_eq!(rt; both(a, b), all);
        assert_eq!(rt; either(a, b), one);
    }
    let two = Val::num(2);
    assert_eq!(rt; choose(Yes, two, Val::overflow()), two);
    assert_eq!(rt; choose(No, Val::overflow(), two), two);
    assert_eq!(rt; choose(Overflow, two, two), Val::overflow());
}
