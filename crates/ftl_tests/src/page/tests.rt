use ftl_base::Width;
use ftl_boxes::shipped;
use ftl_page::{Need, Page, PageFault, Section, Text, split_page};
use std::process::Abort;
use std::test::Fail;

const GRAMMAR: Need = Need {
    schedule: false,
    document: false,
    edits: false,
};

const CHECK: Need = Need {
    schedule: true,
    document: false,
    edits: false,
};

const RUN: Need = Need {
    schedule: true,
    document: true,
    edits: false,
};

const EDIT: Need = Need {
    schedule: true,
    document: true,
    edits: true,
};

const DEMAND: Need = Need {
    schedule: false,
    document: true,
    edits: false,
};

/// The text that a page gives for its grammar.
#[derive(Clone, Copy, Debug)]
enum Grammar {
    Own(&'static str),
    /// The shipped one of this name.
    Shipped(&'static str),
}

/// What a command needs, a page, its width, its grammar, schedule, document and edits.
static PAGES: [(
    Need,
    &str,
    Width,
    Grammar,
    Option<&str>,
    Option<&str>,
    Option<&str>,
); 12] = [
    (
        RUN,
        "%page 1\n%grammar stack\n%schedule auto\n%document\nSheet { }\n",
        Width::Narrow,
        Grammar::Shipped("stack"),
        None,
        Some("Sheet { }\n"),
        None,
    ),
    (
        RUN,
        "%page 1\n%document\nA\n%schedule\nB\r\n\n%grammar\nC % D",
        Width::Narrow,
        Grammar::Own("C % D"),
        Some("B\r\n\n"),
        Some("A\n"),
        None,
    ),
    (
        RUN,
        "%page\t2\r\n # before\n\t\r\n%grammar  stack \t\n # after\n%schedule auto\n#\n%document",
        Width::Wide,
        Grammar::Shipped("stack"),
        None,
        Some(""),
        None,
    ),
    (
        RUN,
        "%page\r1\n%grammar\n# %\n a %\n%schedule\rauto\n \n%document\nx",
        Width::Narrow,
        Grammar::Own("# %\n a %\n"),
        None,
        Some("x"),
        None,
    ),
    (
        CHECK,
        "%page 1\n%schedule\n%document\nA\n%grammar\nC",
        Width::Narrow,
        Grammar::Own("C"),
        Some(""),
        None,
        None,
    ),
    (
        EDIT,
        "%page 2\n%edits\n1.iw = 5;\n%grammar stack\n%schedule auto\n%document\nA",
        Width::Wide,
        Grammar::Shipped("stack"),
        None,
        Some("A"),
        Some("1.iw = 5;\n"),
    ),
    (
        RUN,
        "%page 1\n%edits \nx\n%grammar stack\n%schedule auto\n%document\n",
        Width::Narrow,
        Grammar::Shipped("stack"),
        None,
        Some(""),
        None,
    ),
    (
        DEMAND,
        "%page 1\n%document\nA\n%grammar\nB",
        Width::Narrow,
        Grammar::Own("B"),
        None,
        Some("A\n"),
        None,
    ),
    (
        GRAMMAR,
        "%page 1\n%grammar block",
        Width::Narrow,
        Grammar::Shipped("block"),
        None,
        None,
        None,
    ),
    (
        RUN,
        "%page 2\n%schedule auto\n%document\nA\n%grammar\ttable\r\n # B\n",
        Width::Wide,
        Grammar::Shipped("table"),
        None,
        Some("A\n"),
        None,
    ),
    (
        GRAMMAR,
        "%page 1\n%grammar\nstack",
        Width::Narrow,
        Grammar::Own("stack"),
        None,
        None,
        None,
    ),
    (
        GRAMMAR,
        "%page 1\n%grammar\nB",
        Width::Narrow,
        Grammar::Own("B"),
        None,
        None,
        None,
    ),
];

/// What a command needs, a page, and its first fault.
static FAULTS: [(Need, &str, PageFault); 29] = [
    (RUN, "", PageFault::BadVersion),
    (RUN, " %page 1", PageFault::BadVersion),
    (RUN, "\u{feff}%page 1", PageFault::BadVersion),
    (RUN, "%page 3", PageFault::BadVersion),
    (RUN, "%page 01", PageFault::BadVersion),
    (RUN, "%page 1 2", PageFault::BadVersion),
    (RUN, "%page", PageFault::BadVersion),
    (RUN, "%page\u{c}1", PageFault::BadVersion),
    (
        RUN,
        "%page 1\n%grammar stack\nx",
        PageFault::StrayText { line: 3 },
    ),
    (RUN, "%page 1\nx\n%rules", PageFault::StrayText { line: 2 }),
    (
        RUN,
        "%page 1\n\n \u{a0}#\n",
        PageFault::StrayText { line: 3 },
    ),
    (
        RUN,
        "%page 1\n%schedule auto\n#\n\n x",
        PageFault::StrayText { line: 5 },
    ),
    (
        RUN,
        "%page 1\n%grammar stock\nx",
        PageFault::UnknownShipped { line: 2 },
    ),
    (
        GRAMMAR,
        "%page 1\n\n%grammar Flow",
        PageFault::UnknownShipped { line: 3 },
    ),
    (
        GRAMMAR,
        "%page 1\n%grammar blocks",
        PageFault::UnknownShipped { line: 2 },
    ),
    (
        RUN,
        "%page 1\n%grammar stack\n%grammar stock",
        PageFault::SectionTwice {
            which: Section::Grammar,
            line: 3,
        },
    ),
    (
        RUN,
        "%page 1\n%edits\n%edits",
        PageFault::SectionTwice {
            which: Section::Edits,
            line: 3,
        },
    ),
    (
        CHECK,
        "%page 1\n%document\n%document",
        PageFault::SectionTwice {
            which: Section::Document,
            line: 3,
        },
    ),
    (
        RUN,
        "%page 1\n%rules",
        PageFault::UnknownSection { line: 2 },
    ),
    (
        RUN,
        "%page 1\n%edits x",
        PageFault::UnknownSection { line: 2 },
    ),
    (
        RUN,
        "%page 1\n%page 1",
        PageFault::UnknownSection { line: 2 },
    ),
    (
        RUN,
        "%page 1\n%schedule automatic",
        PageFault::UnknownSection { line: 2 },
    ),
    (
        RUN,
        "%page 1\n% grammar",
        PageFault::UnknownSection { line: 2 },
    ),
    (
        RUN,
        "%page 1\n%document\n%schedule",
        PageFault::NoSection {
            which: Section::Grammar,
        },
    ),
    (
        RUN,
        "%page 1\n%grammar stack",
        PageFault::NoSection {
            which: Section::Schedule,
        },
    ),
    (
        RUN,
        "%page 1\n%schedule\n%grammar stack",
        PageFault::NoSection {
            which: Section::Document,
        },
    ),
    (
        DEMAND,
        "%page 1\n%grammar stack",
        PageFault::NoSection {
            which: Section::Document,
        },
    ),
    (
        EDIT,
        "%page 1\n%grammar stack\n%schedule auto\n%document",
        PageFault::NoSection {
            which: Section::Edits,
        },
    ),
    (
        EDIT,
        "%page 1\n%edits\n%schedule auto",
        PageFault::NoSection {
            which: Section::Grammar,
        },
    ),
];

fn split(rt: &(impl Abort + AllocGlobal), bytes: &[u8], need: Need) -> Result<Page, PageFault> {
    assert!(rt; bytes.len() <= 67_108_864);
    split_page(rt.alloc(), bytes, need)
}

fn assert_text(rt: &impl Abort, text: Option<Text>, wanted: Option<&str>) {
    match text {
        Some(text) => assert_eq!(rt; Some(text.into_string().as_str()), wanted),
        None => assert_eq!(rt; wanted, None),
    }
}

fn text_of(grammar: Grammar) -> Option<&'static str> {
    match grammar {
        Grammar::Own(text) => Some(text),
        Grammar::Shipped(name) => shipped(name),
    }
}

#[test]
fn pages(rt: HostRuntime) -> Result<(), Fail> {
    for &(need, page, width, grammar, schedule, document, edits) in &PAGES {
        let page = split(&rt, page.as_bytes(), need)?;
        assert_eq!(rt; page.width, width);
        assert_text(&rt, Some(page.grammar), text_of(grammar));
        assert_text(&rt, page.schedule, schedule);
        assert_text(&rt, page.document, document);
        assert_text(&rt, page.edits, edits);
    }
    Ok(())
}

#[test]
fn faults(rt: HostRuntime) {
    for &(need, page, fault) in &FAULTS {
        assert_eq!(rt;
            split(&rt, page.as_bytes(), need).err(),
            Some(fault),
            "{page:?}"
        );
    }
    assert_eq!(rt; split(&rt, &[255], RUN).err(), Some(PageFault::NotText));
}

/// The names that `%grammar` knows.
static NAMES: [&str; 6] = ["stack", "block", "inline", "float", "table", "flow"];

#[test]
fn shipped_grammars(rt: HostRuntime) -> Result<(), Fail> {
    for &name in &NAMES {
        let page = format!(in rt.alloc(); "%page 1\n%grammar {name}\n")?;
        let page = split(&rt, page.as_bytes(), GRAMMAR)?;
        assert!(rt; shipped(name).is_some());
        assert_text(&rt, Some(page.grammar), shipped(name));
    }
    Ok(())
}
