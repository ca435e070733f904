//! Numbers and classes written into boxes.

use crate::drawing::placed::{Frame, Placed};
use crate::drawing::rect::Rect;
use crate::words::Labels;
use itoa::Buffer;

/// How much room a character takes, in points, and a line.
const WIDE: i64 = 7;

const HIGH: i64 = 14;

/// How many lines of a box are tried at most, and how many boxes around are asked.
const LINES: i64 = 8;

const LEVELS: u32 = 64;

/// What is written into a box: whether its class as well as its number, and where, in points of the
/// enlarged drawing.
#[derive(Clone, Copy)]
pub struct Label {
    pub has_name: bool,
    pub space: Rect,
}

/// What is written into a box of this name, if there is room for it. `rect` is the box, enlarged,
/// and `before` the room that the labels of the boxes before it take.
pub fn label_of(
    placed: &[Placed],
    before: &[Option<Rect>],
    it: &Placed,
    name: &str,
    rect: &Rect,
    labels: Labels,
) -> Option<Label> {
    if labels == Labels::Leaves && !it.is_leaf {
        return None;
    }
    let digits = Buffer::new().format(it.node).len();
    let whole = digits
        .saturating_add(name.chars().count())
        .saturating_add(1);
    match free_space(placed, before, it, rect, whole) {
        Some(space) => Some(Label {
            has_name: true,
            space,
        }),
        None => number_label(placed, before, it, rect, digits),
    }
}

fn number_label(
    placed: &[Placed],
    before: &[Option<Rect>],
    it: &Placed,
    rect: &Rect,
    digits: usize,
) -> Option<Label> {
    let space = free_space(placed, before, it, rect, digits)?;
    Some(Label {
        has_name: false,
        space,
    })
}

/// Room in a box for so many characters that no label of a box around takes: a line below these
/// labels or, where there is none, the room beside them.
fn free_space(
    placed: &[Placed],
    before: &[Option<Rect>],
    it: &Placed,
    rect: &Rect,
    count: usize,
) -> Option<Rect> {
    match space_below(placed, before, it, rect, count) {
        Some(space) => Some(space),
        None => space_beside(placed, before, it, rect, count),
    }
}

fn space_below(
    placed: &[Placed],
    before: &[Option<Rect>],
    it: &Placed,
    rect: &Rect,
    count: usize,
) -> Option<Rect> {
    for line in 0..lines_in(rect) {
        let space = space_in(rect, line, count);
        if space.right() <= rect.right() && is_free(placed, before, it.around, &space) {
            return Some(space);
        }
    }
    None
}

fn space_beside(
    placed: &[Placed],
    before: &[Option<Rect>],
    it: &Placed,
    rect: &Rect,
    count: usize,
) -> Option<Rect> {
    for line in 0..lines_in(rect) {
        let space = moved_right(placed, before, it.around, space_in(rect, line, count));
        if space.right() <= rect.right() && is_free(placed, before, it.around, &space) {
            return Some(space);
        }
    }
    None
}

fn lines_in(rect: &Rect) -> i64 {
    (rect.height / HIGH).min(LINES)
}

/// The room that so many characters take at the beginning of a line of a box.
fn space_in(rect: &Rect, line: i64, count: usize) -> Rect {
    let wide = i64::try_from(count)
        .unwrap_or(i64::MAX)
        .saturating_mul(WIDE);
    Rect {
        left: rect.left,
        top: rect.top.saturating_add(line.saturating_mul(HIGH)),
        width: wide.saturating_add(4),
        height: HIGH,
    }
}

/// The room, moved behind the labels that are in the way.
fn moved_right(
    placed: &[Placed],
    before: &[Option<Rect>],
    around: Option<Frame>,
    space: Rect,
) -> Rect {
    let mut space = space;
    let mut around = around;
    for _level in 0..LEVELS {
        let Some(frame) = around else {
            return space;
        };
        if let Some(taken) = taken_at(before, frame.place)
            && taken.meets(&space)
        {
            space.left = taken.right();
        }
        around = frame_at(placed, frame.place);
    }
    space
}

/// Whether no label of a box around is in the way.
fn is_free(
    placed: &[Placed],
    before: &[Option<Rect>],
    around: Option<Frame>,
    space: &Rect,
) -> bool {
    let mut around = around;
    for _level in 0..LEVELS {
        let Some(frame) = around else {
            return true;
        };
        if let Some(taken) = taken_at(before, frame.place)
            && taken.meets(space)
        {
            return false;
        }
        around = frame_at(placed, frame.place);
    }
    true
}

fn taken_at(before: &[Option<Rect>], place: usize) -> Option<Rect> {
    match before.get(place) {
        Some(taken) => *taken,
        None => None,
    }
}

fn frame_at(placed: &[Placed], place: usize) -> Option<Frame> {
    placed.get(place)?.around
}
