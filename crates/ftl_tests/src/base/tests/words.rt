use ftl_base::{Val, Width, val_of, word_of};

#[test]
fn numbers_end_at_48_bits(rt: HostRuntime) {
    assert_eq!(rt; Val::num(140737488355327).get(), Some(140737488355327));
    assert_eq!(rt; Val::num(-140737488355328).get(), Some(-140737488355328));
    for n in [140737488355328, -140737488355329, i64::MAX, i64::MIN] {
        assert_eq!(rt; Val::num(n), Val::overflow());
    }
    assert_eq!(rt; Val::overflow().get(), None);
    assert_eq!(rt; Width::Narrow.greatest_number(), 2147483647);
    assert_eq!(rt; Width::Wide.greatest_number(), 140737488355327);
}

/// A number, or the one that stands for Overflow, and its word.
static WORDS: [(i64, u64); 5] = [
    (-140737488355328, 1),
    (-1, 140737488355328),
    (0, 140737488355329),
    (140737488355327, 281474976710656),
    (140737488355328, 281474976710657),
];

#[test]
fn words_of_values(rt: HostRuntime) {
    for &(n, word) in &WORDS {
        assert_eq!(rt; word_of(Val::num(n)), word);
        assert_eq!(rt; val_of(word), Some(Val::num(n)));
    }
    for word in [0, 281474976710658, u64::MAX] {
        assert_eq!(rt; val_of(word), None);
    }
}
