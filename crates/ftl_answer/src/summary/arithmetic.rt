//! One value, times the weight of its place, and sums of many.

ghost use Rattle.std.specs.Prelude.{◌≡◌, ◌≤◌, pos, ◌+ℤ◌, ◌*ℤ◌, ◌≤ℤ◌};
ghost use Rattle.std.specs.Int.RustNames.{unsigned_abs};
ghost use Rattle.ftl_model.specs.layout.Values as value;
ghost use Rattle.ftl_answer.specs.answers.Summary.{mixed};

/// The weight of a place.
pub(crate) fn weight_at(place: u64) -> i64
    ensures weight { result ≡ pos (mixed place) }
    ensures small { unsigned_abs result ≤ 1000 }
{
    (place % 1000 + 1) as i64
}

/// A number, times the weight of its place.
pub(crate) fn weighted(number: i64, place: u64) -> i64
    requires in_range { value.IsValue (value.number number) }
    ensures product { result ≡ number *ℤ pos (mixed place) }
{
    number * weight_at(place)
}

/// A sum and one number more.
pub(crate) fn plus(sum: i128, part: i64) -> i128
    requires low { pos 0 ≤ℤ (sum +ℤ pos 85070591730234615865843651857942052864) }
    requires high { sum ≤ℤ pos 85070591730234615865843651857942052864 }
    ensures sum { result ≡ sum +ℤ part }
    ensures not_less { sum ≤ℤ (result +ℤ pos 9223372036854775808) }
    ensures not_more { result ≤ℤ (sum +ℤ pos 9223372036854775808) }
{
    sum + part as i128
}
