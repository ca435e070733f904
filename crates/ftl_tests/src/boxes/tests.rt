use ftl_boxes::{SampleFault, sample_page, shipped, shipped_by_bytes};
use std::process::Abort;
use std::test::Fail;

/// The shipped grammars, and how many bytes their texts have.
const SHIPPED: [(&str, usize); 6] = [
    ("stack", 466),
    ("block", 933),
    ("inline", 1276),
    ("float", 2245),
    ("table", 2432),
    ("flow", 4282),
];

const NOT_SHIPPED: [&str; 5] = ["", "grid", "stac", "stacks", "Stack"];

/// Sizes and grammars, and how many bytes their samples have.
const SAMPLES: [(u32, &str, usize); 8] = [
    (1, "stack", 134),
    (8, "inline", 304),
    (9, "float", 334),
    (200_000, "stack", 5_505_514),
    (200_000, "block", 6_230_553),
    (200_000, "float", 4_905_506),
    (200_000, "table", 5_455_496),
    (200_000, "flow", 6_186_765),
];

/// Sizes and grammars that have no sample.
const REFUSED: [(u32, &str, SampleFault); 4] = [
    (0, "stack", SampleFault::SizeRange { n: 0 }),
    (200_001, "flow", SampleFault::SizeRange { n: 200_001 }),
    (5, "grid", SampleFault::NameUnknown),
    (0, "grid", SampleFault::NameUnknown),
];

const TWO_PIECES: &str = "%page 1
%grammar stack
%schedule auto
%document
Sheet { body = Column { kids = [
Column { kids = [ Word { iw = 38 ih = 10 } Word { iw = 49 ih = 16 } ] }
] } }
";

#[test]
fn names(rt: HostRuntime) {
    for &(name, bytes) in &SHIPPED {
        assert_eq!(rt; shipped(name).map(|text| text.len()), Some(bytes));
        assert_eq!(rt; shipped_by_bytes(name.as_bytes()), shipped(name));
    }
    for &name in &NOT_SHIPPED {
        assert_eq!(rt; shipped(name), None);
    }
}

#[test]
fn samples(rt: HostRuntime) -> Result<(), Fail> {
    assert_eq!(rt; sample_page(rt.alloc(), 2, "stack")?.as_str(), TWO_PIECES);
    for &(size, grammar, bytes) in &SAMPLES {
        assert_eq!(rt; sample_page(rt.alloc(), size, grammar)?.len(), bytes);
    }
    Ok(())
}

#[test]
fn refusals(rt: HostRuntime) {
    for &(size, grammar, fault) in &REFUSED {
        assert_eq!(rt; sample_page(rt.alloc(), size, grammar).err(), Some(fault));
    }
}
