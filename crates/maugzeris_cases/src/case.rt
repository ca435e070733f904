//! Cases: the texts of a page, or the calls that build it, and the calls that follow.
use maugzeris::Width;

/// What the library is called with.
#[derive(Drop)]
pub(crate) struct Case<'t> {
    pub width: Width,
    pub grammar: &'t str,
    pub schedule: Option<&'t str>,
    pub document: Option<&'t str>,
    pub built: Option<&'t str>,
    pub steps: &'t str,
}

impl<'t> Case<'t> {
    /// The case with this heading and these texts.
    pub(crate) fn new(heading: &str, texts: &'t str) -> Case<'t> {
        let (rest, steps) = part(texts, "--- steps\n");
        let (rest, built) = part(rest, "--- built\n");
        let (rest, document) = part(rest, "--- document\n");
        let (rest, schedule) = part(rest, "--- schedule\n");
        Case {
            width: width_of(heading),
            grammar: rest.strip_prefix("--- grammar\n").unwrap_or(rest),
            schedule,
            document,
            built,
            steps: steps.unwrap_or(""),
        }
    }
}

/// What stands before a heading, and what stands behind it, where it is there.
fn part<'t>(texts: &'t str, heading: &str) -> (&'t str, Option<&'t str>) {
    match texts.split_once(heading) {
        Some((before, behind)) => (before, Some(behind)),
        None => (texts, None),
    }
}

fn width_of(heading: &str) -> Width {
    if heading.starts_with("wide") {
        Width::Wide
    } else {
        Width::Narrow
    }
}
