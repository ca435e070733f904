//! What the words ask for.

use crate::lines::{Fields, Style};
use clap::ArgMatches;

/// The files that are to be shown, and how.
#[derive(Clone, Copy)]
pub struct Wanted<'m, 'w> {
    pub files: &'m [&'w str],
    pub view: View<'w>,
    pub style: Style,
    /// Whether the file is shown anew each time that it changes.
    pub watch: bool,
}

/// What is shown of a page.
#[derive(Clone, Copy)]
pub enum View<'w> {
    /// All nodes, as a tree.
    Tree(Fields),
    /// One node.
    Node(u32),
    /// Where a value comes from.
    Why(Why<'w>),
    /// The page in canonical form.
    Format,
    /// Its boxes.
    Drawing(Drawing<'w>),
    /// Its boxes, its text, and all its values.
    Html(Drawing<'w>),
}

/// The value of which it is asked where it comes from.
#[derive(Clone, Copy)]
pub struct Why<'w> {
    pub node: u32,
    /// The name of an attribute of the node.
    pub name: &'w str,
    /// How many lines are shown at most.
    pub lines: u32,
}

/// How boxes are drawn.
#[derive(Clone, Copy)]
pub struct Drawing<'w> {
    pub names: BoxNames<'w>,
    /// Whether places count from the box around.
    pub relative: bool,
    pub labels: Labels,
}

/// Which boxes tell their number and class, as far as they have room.
#[derive(Clone, Copy)]
pub enum Labels {
    /// Those of nodes without kids.
    Leaves,
    All,
}

/// The names of the attributes that place a box.
#[derive(Clone, Copy)]
pub struct BoxNames<'w> {
    pub left: &'w str,
    pub top: &'w str,
    pub width: &'w str,
    pub height: &'w str,
}

/// What the words ask for; none where `--box` has not four names, `--why` not a number, a dot and a
/// name, or where a drawing is asked for of several files, or watching of any but one with a name.
pub fn wanted_by<'m, 'w>(matches: &'m ArgMatches<'w>) -> Option<Wanted<'m, 'w>> {
    let files = matches.get_strs("files")?;
    let view = view_by(matches)?;
    if is_drawing(view) && files.len() > 1 {
        return None;
    }
    let watch = matches.get_flag("watch");
    if watch && (files.len() > 1 || files.contains(&"-")) {
        return None;
    }
    let style = style_by(matches);
    Some(Wanted {
        files,
        view,
        style,
        watch,
    })
}

fn is_drawing(view: View<'_>) -> bool {
    match view {
        View::Drawing(_) | View::Html(_) => true,
        _ => false,
    }
}

fn style_by(matches: &ArgMatches<'_>) -> Style {
    Style {
        color: matches.get_flag("color"),
        width: width(matches),
    }
}

fn view_by<'w>(matches: &ArgMatches<'w>) -> Option<View<'w>> {
    if matches.get_flag("svg") {
        return Some(View::Drawing(drawing_by(matches)?));
    }
    if matches.get_flag("html") {
        return Some(View::Html(drawing_by(matches)?));
    }
    if let Some(node) = matches.get_one::<u32>("node") {
        return Some(View::Node(node));
    }
    if let Some(why) = matches.get_str("why") {
        return Some(View::Why(why_by(matches, why)?));
    }
    if matches.get_flag("format") {
        return Some(View::Format);
    }
    if matches.get_flag("all") {
        return Some(View::Tree(Fields::All));
    }
    Some(View::Tree(Fields::Shown))
}

/// The node before the dot, and the name behind it.
fn why_by<'w>(matches: &ArgMatches<'w>, text: &'w str) -> Option<Why<'w>> {
    let (node, name) = text.split_once('.')?;
    let Ok(node) = node.parse::<u32>() else {
        return None;
    };
    let lines = matches.get_one::<u32>("lines").unwrap_or(200);
    Some(Why { node, name, lines })
}

fn drawing_by<'w>(matches: &ArgMatches<'w>) -> Option<Drawing<'w>> {
    let names = box_names(matches.get_str("box").unwrap_or("x,y,w,h"))?;
    Some(Drawing {
        names,
        relative: matches.get_flag("relative"),
        labels: if matches.get_flag("names") {
            Labels::All
        } else {
            Labels::Leaves
        },
    })
}

fn width(matches: &ArgMatches<'_>) -> Option<usize> {
    match matches.get_one::<u32>("width") {
        Some(width) => Some(width.max(1) as usize),
        None => None,
    }
}

/// The four names between commas.
fn box_names(text: &str) -> Option<BoxNames<'_>> {
    let (left, rest) = text.split_once(',')?;
    let (top, rest) = rest.split_once(',')?;
    let (width, height) = rest.split_once(',')?;
    if height.contains(',') {
        return None;
    }
    Some(BoxNames {
        left,
        top,
        width,
        height,
    })
}
