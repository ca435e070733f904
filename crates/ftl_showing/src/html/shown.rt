//! Pages as HTML.

ghost use Rattle.std.specs.Prelude.{◌<◌};
ghost use Rattle.ftl_model.specs.layout.Tree.{size};
ghost use Rattle.maugzeris.specs.pages.PageState.{IsLaidOut};

use crate::drawing::{box_rows, drawn_page, hue};
use crate::html::escaped::push_escaped;
use crate::html::opening::push_opening;
use crate::html::script::{DRAW_BOXES, DRAWN_BOXES, LINK_PANELS};
use crate::html::source::push_source;
use crate::lines::{Fields, tree_text};
use crate::words::Drawing;
use maugzeris::Page;
use std::alloc::{AllocError, Global};
use std::fmt::Write;

/// How many nodes a page has at most whose boxes and lines all stand in the file as they are shown.
/// Those of larger ones stand there as data, and what is looked at is drawn by the script: a
/// browser takes half a minute for some hundred thousand elements.
const MOST_SHOWN: u32 = 20_000;

const PICTURE: &str = "<section class=\"picture\"><h2>Picture <span class=\"tools\">
<button id=\"less\">−</button><button id=\"fit\">fit</button><button id=\"more\">+</button>
</span></h2><div class=\"pane\" id=\"picture\">
";

const VALUES: &str = "<section class=\"values\"><h2 id=\"head\">Point at a box or a line</h2>
<div class=\"pane\"><dl id=\"values\"></dl></div></section>
<section class=\"tree\"><h2>Tree</h2>
<div class=\"pane code\" id=\"tree\" tabindex=\"0\"><div id=\"bar\"></div><pre id=\"lines\">
";

const SHEET: &str = "<div id=\"sheet\"><canvas id=\"canvas\"></canvas></div>\n";

/// A page as one file: its drawing, its tree, the values of the node that is pointed at, and the
/// text of its file.
pub fn shown_html(
    alloc: Global,
    name: &str,
    text: &str,
    page: &Page<'_>,
    how: Drawing<'_>,
) -> Result<String, AllocError>
    requires laid_out { IsLaidOut page.now }
{
    let is_shown = page.node_count() <= MOST_SHOWN;
    let tree = tree_text(alloc, page, Fields::Shown)?;
    let mut out = String::new(alloc);
    push_opening(
        &mut out,
        name,
        nodes_told(alloc, page.node_count())?.as_str(),
    )?;
    push_classes(alloc, &mut out, page)?;
    out.push_str("<main>\n")?;
    out.push_str(PICTURE)?;
    if is_shown {
        out.push_str(drawn_page(alloc, page, how)?.as_str())?;
    } else {
        out.push_str(SHEET)?;
    }
    out.push_str("</div></section>\n")?;
    out.push_str(VALUES)?;
    push_escaped(&mut out, if is_shown { tree.as_str() } else { "" })?;
    out.push_str("</pre></div></section>\n")?;
    push_source(&mut out, text, None)?;
    out.push_str("</main>\n")?;
    if !is_shown {
        push_data(&mut out, "boxes", box_rows(alloc, page, how)?.as_str())?;
        push_data(&mut out, "rows", tree.as_str())?;
    }
    push_data(
        &mut out,
        "all",
        tree_text(alloc, page, Fields::All)?.as_str(),
    )?;
    push_scripts(&mut out, if is_shown { DRAWN_BOXES } else { DRAW_BOXES })?;
    Ok(out)
}

/// Appends lines that the script reads.
fn push_data(out: &mut String, id: &str, text: &str) -> Result<(), AllocError> {
    write!(out, "<pre id=\"{id}\" hidden=\"hidden\">\n")?;
    push_escaped(out, text)?;
    out.push_str("</pre>\n")
}

fn push_scripts(out: &mut String, boxes: &str) -> Result<(), AllocError> {
    out.push_str("<script>\n")?;
    out.push_str(LINK_PANELS)?;
    out.push_str(boxes)?;
    out.push_str("</script>\n</body>\n</html>\n")
}

fn nodes_told(alloc: Global, count: u32) -> Result<String, AllocError> {
    let mut told = String::new(alloc);
    write!(
        told,
        "{count} {}",
        if count == 1 { "node" } else { "nodes" }
    )?;
    Ok(told)
}

/// Appends the classes of a page with their colours, as they stand out on light and dark ground.
fn push_classes(alloc: Global, out: &mut String, page: &Page<'_>) -> Result<(), AllocError> {
    let firsts = first_nodes(alloc, page)?;
    out.push_str("<style>\n")?;
    for node in firsts.iter() {
        if *node < page.node_count() {
            push_color(out, page.class(*node))?;
        }
    }
    out.push_str("</style>\n<p class=\"classes\">")?;
    for node in firsts.iter() {
        if *node < page.node_count() {
            push_class(out, page, *node)?;
        }
    }
    out.push_str("</p>\n")
}

/// The first node of each class that the page has.
fn first_nodes(alloc: Global, page: &Page<'_>) -> Result<Vec<u32>, AllocError> {
    let mut firsts = Vec::new(alloc);
    let mut classes: Vec<u32> = Vec::new(alloc);
    for node in 0..page.node_count() {
        let class = page.class(node);
        if !classes.contains(&class) {
            classes.push(class)?;
            firsts.push(node)?;
        }
    }
    Ok(firsts)
}

fn push_color(out: &mut String, class: u32) -> Result<(), AllocError> {
    let hue = hue(class);
    write!(out, "i.c{class}{{background:hsl({hue},70%,40%)}}")?;
    write!(out, "@media(prefers-color-scheme:dark){{i.c{class}")?;
    writeln!(
        out,
        "{{background:hsl({hue},70%,65%)}}svg path.c{class}{{color:hsl({hue},70%,65%)}}}}"
    )?;
    Ok(())
}

fn push_class(out: &mut String, page: &Page<'_>, node: u32) -> Result<(), AllocError>
    requires node { node < size page.now.tree }
{
    write!(out, "<span><i class=\"c{}\"></i>", page.class(node))?;
    push_escaped(out, page.class_name(node))?;
    out.push_str("</span> ")
}
