ghost use Rattle.std.specs.Prelude.{◌≡◌, ◌≤◌, ◌*ℤ◌};
ghost use Rattle.ftl_model.specs.layout.Values.{value_of, sum_of, difference_of, product_of};
ghost use Rattle.ftl_model.specs.layout.Values.{negated_of};
ghost use Rattle.ftl_model.specs.layout.Values.{quotient_of, least_of, greatest_of};
ghost use Rattle.ftl_base.specs.Widths.{greatest_of_width};

use crate::val::Val;
use crate::width::Width;

/// The sum. A sum out of the width's range is Overflow, and so is a sum with Overflow.
pub fn add(width: Width, a: Val, b: Val) -> Val
    ensures sum { result ≡ sum_of (greatest_of_width width) a b }
{
    match (a.get(), b.get()) {
        (Some(m), Some(n)) => width.value(m + n),
        _ => Val::overflow(),
    }
}

/// The difference, with Overflow as for a sum.
pub fn sub(width: Width, a: Val, b: Val) -> Val
    ensures difference { result ≡ difference_of (greatest_of_width width) a b }
{
    match (a.get(), b.get()) {
        (Some(m), Some(n)) => width.value(m - n),
        _ => Val::overflow(),
    }
}

/// The product, with Overflow as for a sum.
pub fn mul(width: Width, a: Val, b: Val) -> Val
    ensures product { result ≡ product_of (greatest_of_width width) a b }
{
    match (a.get(), b.get()) {
        (Some(m), Some(n)) => product(width, m, n),
        _ => Val::overflow(),
    }
}

/// The product of two numbers. One that fits no machine number is out of range too.
fn product(width: Width, m: i64, n: i64) -> Val
    ensures value { result ≡ value_of (greatest_of_width width) (m *ℤ n) }
{
    match m.checked_mul(n) {
        Some(exact) => width.value(exact),
        None => Val::overflow(),
    }
}

/// The number with the other sign, with Overflow as for a sum.
pub fn neg(width: Width, a: Val) -> Val
    ensures negated { result ≡ negated_of (greatest_of_width width) a }
{
    match a.get() {
        Some(m) => width.value(-m),
        None => Val::overflow(),
    }
}

/// The quotient by a whole number, rounded towards minus infinity, with Overflow as for a sum.
pub fn div_floor(width: Width, a: Val, k: u32) -> Val
    requires from_one { 1 ≤ k }
    requires bound { k ≤ 2147483647 }
    ensures quotient { result ≡ quotient_of (greatest_of_width width) a k }
{
    match a.get() {
        Some(m) => width.value(m.div_euclid(k as i64)),
        None => Val::overflow(),
    }
}

/// The least of two values, or Overflow where one of them is.
pub fn least(a: Val, b: Val) -> Val
    ensures least { result ≡ least_of a b }
{
    match (a.get(), b.get()) {
        (Some(m), Some(n)) => Val { number: m.min(n) },
        _ => Val::overflow(),
    }
}

/// The greatest of two values, or Overflow where one of them is.
pub fn greatest(a: Val, b: Val) -> Val
    ensures greatest { result ≡ greatest_of a b }
{
    // Overflow is held as a number above all others
    Val {
        number: a.number.max(b.number),
    }
}
