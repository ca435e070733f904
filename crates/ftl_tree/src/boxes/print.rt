//! The printer.

ghost use Rattle.std.specs.Prelude.{◌≡◌, ◌+◌, ◌<◌, ◌≤◌, ◌++◌, length, take, IfOk};
ghost use Rattle.std.specs.List.{list_any};
ghost use Rattle.ftl_model.specs.layout.Boxes.{boxes, is_overflow, shows_overflow};
ghost use Rattle.ftl_model.specs.layout.Boxes.{value_text};
ghost use Rattle.ftl_model.specs.layout.Table.{instance_count};
ghost use Rattle.ftl_model.specs.layout.Tree.{size};
ghost use Rattle.ftl_deps.specs.reads.Meant.{meant};
ghost use Rattle.ftl_meaning.specs.grammars.GrammarOf.{names_of};
ghost use Rattle.ftl_tree.specs.boxes.LinePieces.{ArePieces, attribute_pieces};
ghost use Rattle.ftl_tree.specs.boxes.LinePieces.{line_room, row_room};
ghost use Rattle.ftl_tree.specs.boxes.PieceRoom.{field_room};
ghost use Rattle.ftl_tree.specs.boxes.Shows.{HasWords, fields_text, line_text, node_shows};
ghost use Rattle.ftl_tree.specs.boxes.Shows.{shows_in};
ghost use Rattle.ftl_tree.specs.boxes.WordValues.{table_of_words, value_of_word};

use crate::boxes::digits::put_eight;
use crate::boxes::piece::Piece;
use crate::boxes::pieces::{Pieces, attribute_piece, class_piece, pieces_of, room_at, shown_at};
use crate::boxes::room::{make_room, put, put_byte};
use crate::boxes::shown::{shown_by, shown_rows};
use crate::boxes::word::{number_of_word, short_of_word, word_at};
use crate::trees::Tree;
use itoa::Buffer;
use std::alloc::{AllocError, Global};

/// How long a text is, and whether what was put behind it shows Overflow.
#[derive(Clone, Copy)]
struct Put {
    end: usize,
    overflows: bool,
}

/// About how many bytes the line of a node takes.
const LINE_BYTES: usize = 40;

/// The printed boxes of a tree, and whether a shown value is Overflow.
#[derive(Drop)]
pub struct Printed {
    pub text: Vec<u8>,
    pub overflows: bool,
}

/// The printed boxes of a tree with these words, node by node, and whether one of them shows
/// Overflow. The memory beside the text is for small tables of what each interface shows, and of
/// the names of classes and attributes.
pub fn print_boxes(alloc: Global, tree: &Tree, words: &[u64]) -> Result<Printed, AllocError>
    requires words { length words.now ≡ instance_count (meant tree.now.checked) tree.now.tree }
    ensures text { IfOk result (λ p. p.text.items ≡ boxes (names_of tree.now.checked.grammar)
        tree.now.tree (table_of_words tree.now words.now)) }
    ensures overflows { IfOk result (λ p. p.overflows
        ≡ shows_overflow (names_of tree.now.checked.grammar) tree.now.tree
        (table_of_words tree.now words.now)) }
{
    let pieces = pieces_of(alloc, tree.checked())?;
    let count = tree.node_count();
    let mut text = Vec::with_capacity(alloc, LINE_BYTES * count as usize)?;
    let mut written = Put {
        end: 0,
        overflows: false,
    };
    for node in 0..count {
        make_room(&mut text, written.end, room_at(&pieces, tree, node)?)?;
        let line = put_line(&mut text, written.end, &pieces, tree, words, node);
        written.end = line.end;
        written.overflows |= line.overflows;
    }
    text.truncate(written.end);
    Ok(Printed {
        text,
        overflows: written.overflows,
    })
}

/// Whether a shown value of the tree is Overflow. The memory is for a small table of what each
/// interface shows.
pub fn shows_overflow(alloc: Global, tree: &Tree, words: &[u64]) -> Result<bool, AllocError>
    requires words { length words.now ≡ instance_count (meant tree.now.checked) tree.now.tree }
    ensures shown { IfOk result (λ any. any ≡ shows_overflow (names_of tree.now.checked.grammar)
        tree.now.tree (table_of_words tree.now words.now)) }
{
    let rows = shown_rows(alloc, tree.checked())?;
    for node in 0..tree.node_count() {
        if node_overflows(tree, words, shown_by(&rows, tree, node), node) {
            return Ok(true);
        }
    }
    Ok(false)
}

// The line of a node.
#[inline(always)]
fn put_line(
    bytes: &mut [u8],
    end: usize,
    pieces: &Pieces,
    tree: &Tree,
    words: &[u64],
    node: u32,
) -> Put
    requires pieces { ArePieces tree.now.checked.grammar pieces.now }
    requires words { HasWords tree.now words.now }
    requires node { node < size tree.now.tree }
    requires few { node < 100000000 }
    requires room { end + line_room tree.now node ≤ length bytes.old }
    ensures line { take result.end bytes.new ≡ take end bytes.old
        ++ line_text tree.now words.now node }
    ensures within { result.end ≤ length bytes.old }
    ensures any { result.overflows
        ≡ list_any (shows_in tree.now words.now node) (node_shows tree.now node) }
{
    let end = put_eight(bytes, end, node);
    let end = class_piece(pieces, tree, node).put(bytes, end);
    let fields = put_fields(bytes, end, pieces, tree, words, node);
    Put {
        end: put_byte(bytes, fields.end, b'\n'),
        overflows: fields.overflows,
    }
}

#[inline(always)]
fn put_fields(
    bytes: &mut [u8],
    end: usize,
    pieces: &Pieces,
    tree: &Tree,
    words: &[u64],
    node: u32,
) -> Put
    requires pieces { ArePieces tree.now.checked.grammar pieces.now }
    requires words { HasWords tree.now words.now }
    requires node { node < size tree.now.tree }
    requires room { end + row_room (attribute_pieces tree.now.checked.grammar)
        (node_shows tree.now node) ≤ length bytes.old }
    ensures fields { take result.end bytes.new ≡ take end bytes.old
        ++ fields_text tree.now words.now node (node_shows tree.now node) }
    ensures within { result.end ≤ end + row_room (attribute_pieces tree.now.checked.grammar)
        (node_shows tree.now node) }
    ensures any { result.overflows
        ≡ list_any (shows_in tree.now words.now node) (node_shows tree.now node) }
{
    let shown = shown_at(pieces, tree, node);
    let mut written = Put {
        end,
        overflows: false,
    };
    for attr in shown {
        let piece = attribute_piece(pieces, tree, node, *attr);
        let field = put_field(bytes, written.end, piece, word_at(tree, words, node, *attr));
        written.end = field.end;
        written.overflows |= field.overflows;
    }
    written
}

#[inline(always)]
fn put_field(bytes: &mut [u8], end: usize, piece: &Piece, word: u64) -> Put
    requires room { end + field_room piece.now ≤ length bytes.old }
    ensures field { take result.end bytes.new ≡ take end bytes.old ++ piece.now
        ++ value_text (value_of_word word) }
    ensures within { result.end ≤ end + field_room piece.now }
    ensures any { result.overflows ≡ is_overflow (value_of_word word) }
{
    let end = piece.put(bytes, end);
    match short_of_word(word) {
        Some(number) => Put {
            end: put_eight(bytes, end, number),
            overflows: false,
        },
        None => put_other(bytes, end, word),
    }
}

// Of numbers with a sign or many digits, and Overflow.
#[inline(never)]
fn put_other(bytes: &mut [u8], end: usize, word: u64) -> Put
    requires room { end + 20 ≤ length bytes.old }
    ensures value { take result.end bytes.new ≡ take end bytes.old
        ++ value_text (value_of_word word) }
    ensures within { result.end ≤ end + 20 }
    ensures any { result.overflows ≡ is_overflow (value_of_word word) }
{
    match number_of_word(word) {
        Some(number) => Put {
            end: put(bytes, end, Buffer::new().format(number).as_bytes()),
            overflows: false,
        },
        None => Put {
            end: put(bytes, end, b"overflow"),
            overflows: true,
        },
    }
}

fn node_overflows(tree: &Tree, words: &[u64], shown: &[u32], node: u32) -> bool
    requires words { HasWords tree.now words.now }
    requires node { node < size tree.now.tree }
    requires shown { shown.now ≡ node_shows tree.now node }
    ensures any { result ≡ list_any (shows_in tree.now words.now node) shown.now }
{
    for attr in shown {
        if number_of_word(word_at(tree, words, node, *attr)).is_none() {
            return true;
        }
    }
    false
}
