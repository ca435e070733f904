//! What the lines of a tree have between the numbers, made once for a grammar.

ghost use Rattle.std.specs.Prelude.{◌≡◌, ℕ, ◌<◌, ◌++◌, [], length, codes, slice_index_or};
ghost use Rattle.std.specs.Prelude.{Contains, IfOk};
ghost use Rattle.ftl_meaning.specs.faults.Checked.{all_attributes, attribute_at};
ghost use Rattle.ftl_meaning.specs.grammars.GrammarOf.{names_of};
ghost use Rattle.ftl_model.specs.layout.Tree.{size};
ghost use Rattle.ftl_tree.specs.boxes.LinePieces.{ArePieces, attribute_pieces, class_pieces};
ghost use Rattle.ftl_tree.specs.boxes.LinePieces.{line_room, row_room, row_rooms};
ghost use Rattle.ftl_tree.specs.boxes.Shows.{node_class, node_shows, shown_rows};

use crate::boxes::piece::Piece;
use crate::boxes::shown::{interface_at, shown_by, shown_rows};
use crate::trees::Tree;
use ftl_checked::Checked;
use sqlite_items::Items;
use std::alloc::{AllocError, Global};

/// A space and the name of each class, a space, the name and `=` of each attribute, and the
/// attributes that each interface shows, with the room that they take in a line.
#[derive(Drop)]
pub(crate) struct Pieces {
    shown: Items<Items<u32>>,
    rooms: Items<usize>,
    classes: Items<Piece>,
    attributes: Items<Piece>,
}

pub(crate) fn pieces_of(alloc: Global, checked: &Checked) -> Result<Pieces, AllocError>
    ensures pieces { IfOk result (λ p. ArePieces checked.now.grammar p) }
{
    let shown = shown_rows(alloc, checked)?;
    let attributes = attribute_pieces(alloc, checked)?;
    Ok(Pieces {
        rooms: row_rooms(alloc, checked, &attributes, &shown)?,
        classes: class_pieces(alloc, checked)?,
        attributes,
        shown,
    })
}

/// The attributes that a node shows.
pub(crate) fn shown_at<'p>(pieces: &'p Pieces, tree: &Tree, node: u32) -> &'p [u32]
    requires pieces { ArePieces tree.now.checked.grammar pieces.now }
    requires node { node < size tree.now.tree }
    ensures shown { result.now ≡ node_shows tree.now node }
{
    shown_by(&pieces.shown, tree, node)
}

/// The room that the line of a node takes at most.
#[inline(always)]
pub(crate) fn room_at(pieces: &Pieces, tree: &Tree, node: u32) -> Result<usize, AllocError>
    requires pieces { ArePieces tree.now.checked.grammar pieces.now }
    requires node { node < size tree.now.tree }
    ensures room { IfOk result (λ room. room ≡ line_room tree.now node) }
{
    let fields = pieces.rooms.as_slice()[interface_at(tree, node) as usize];
    match class_piece(pieces, tree, node)
        .field_room()
        .checked_add(fields)
    {
        Some(room) => Ok(room),
        None => Err(AllocError),
    }
}

/// The piece of a node's class.
pub(crate) fn class_piece<'p>(pieces: &'p Pieces, tree: &Tree, node: u32) -> &'p Piece
    requires pieces { ArePieces tree.now.checked.grammar pieces.now }
    requires node { node < size tree.now.tree }
    ensures piece { result.now ≡ codes " "
        ++ (names_of tree.now.checked.grammar).class_name (node_class tree.now node) }
{
    &pieces.classes.as_slice()[tree.row(node).class as usize]
}

/// The piece of an attribute that the node shows.
pub(crate) fn attribute_piece<'p>(
    pieces: &'p Pieces,
    tree: &Tree,
    node: u32,
    attr: u32,
) -> &'p Piece
    requires pieces { ArePieces tree.now.checked.grammar pieces.now }
    requires attr { Contains (node_shows tree.now node) attr }
    ensures piece { result.now ≡ codes " "
        ++ (names_of tree.now.checked.grammar).attribute_name attr ++ codes "=" }
    ensures at { result.now
        ≡ slice_index_or (attribute_pieces tree.now.checked.grammar) attr [] }
{
    &pieces.attributes.as_slice()[attr as usize]
}

fn class_pieces(alloc: Global, checked: &Checked) -> Result<Items<Piece>, AllocError>
    ensures pieces { IfOk result (λ p. p ≡ class_pieces checked.now.grammar) }
{
    let mut pieces = Items::new(alloc);
    for class in checked.grammar().classes.as_slice() {
        pieces.push(Piece::new(alloc, class.name.text().as_bytes(), b"")?)?;
    }
    Ok(pieces)
}

fn attribute_pieces(alloc: Global, checked: &Checked) -> Result<Items<Piece>, AllocError>
    ensures pieces { IfOk result (λ p. p ≡ attribute_pieces checked.now.grammar) }
{
    let mut pieces = Items::new(alloc);
    for attr in 0..checked.attr_count() {
        pieces.push(Piece::new(alloc, checked.attr_name(attr).text().as_bytes(), b"=")?)?;
    }
    Ok(pieces)
}

fn row_rooms(
    alloc: Global,
    checked: &Checked,
    attributes: &Items<Piece>,
    shown: &Items<Items<u32>>,
) -> Result<Items<usize>, AllocError>
    requires attributes { attributes.now ≡ attribute_pieces checked.now.grammar }
    requires shown { shown.now ≡ shown_rows checked.now.grammar }
    ensures rooms { IfOk result (λ rooms. rooms ≡ row_rooms checked.now.grammar) }
{
    let mut rooms = Items::new(alloc);
    for row in shown.as_slice() {
        rooms.push(row_room(attributes.as_slice(), row.as_slice())?)?;
    }
    Ok(rooms)
}

fn row_room(attributes: &[Piece], row: &[u32]) -> Result<usize, AllocError>
    requires known { (attr : ℕ) → Contains row.now attr → attr < length attributes.now }
    ensures room { IfOk result (λ room. room ≡ row_room attributes.now row.now) }
{
    let mut room: usize = 0;
    for attr in row {
        let Some(more) = room.checked_add(attributes[*attr as usize].field_room()) else {
            return Err(AllocError);
        };
        room = more;
    }
    Ok(room)
}
