//! Builders of documents.

ghost use Rattle.std.specs.Prelude.{◌≡◌, ◌↔◌, false, true, IsTrue, OnErr, OnOk};
ghost use Rattle.ftl_document.specs.nodes.Found.{AreRowsOf, IsWritten};
ghost use Rattle.ftl_document.specs.syntax.Written.{no_fields};
ghost use Rattle.ftl_building.specs.building.Calls.{closed, with_number, with_open_kid};
ghost use Rattle.ftl_building.specs.building.Calls.{with_open_list, with_open_node};
ghost use Rattle.ftl_building.specs.building.PartDocument.{document_node, document_so_far, in_node};
ghost use Rattle.ftl_building.specs.building.PartDocument.{is_whole, takes_fields};
ghost use Rattle.ftl_building.specs.building.PartSizes.{HasRoom, HasRoomForNode, TakesField};
ghost use Rattle.ftl_building.specs.building.PartSizes.{TakesKid, TakesNode};

use crate::building::places::Places;
use crate::building::rows::{close_row, nodes_of_row, push_open};
use ftl_document::syntax::NameRef;
use ftl_document::{WrittenDocument, WrittenRow};
use std::alloc::{AllocError, Global};
use std::marker::Model;

/// The most fields and nodes of lists.
const MOST_ENTRIES: usize = 4_294_967_295;

/// How many nodes may be open at once.
const DEEPEST: u32 = 512;

/// How many nodes a document may have.
const MOST_NODES: u32 = 1_048_576;

/// A document while it is written. At first its node is open, without a field. A call adds a field
/// or a node of a list, where one may stand, or closes what is open innermost. After a refusal,
/// which is want of memory, all is as before the call.
#[derive(Drop)]
pub struct DocumentBuilder<'a> {
    class: NameRef<'a>,
    rows: Vec<WrittenRow<'a>>,
    places: Places,
    levels: u32,
    nodes: u32,
}

impl<'a> Model for DocumentBuilder<'a> {
    ghost use Rattle.ftl_building.specs.building.PartCode.{part_code};
    ghost use Rattle.ftl_building.specs.building.PartDocument.{PartDocument};
    ghost use Rattle.ftl_building.specs.building.PartInside.{IsPart, part_inside};

    ghost Value = { PartDocument };

    ghost coded = { part_code };

    ghost view = { part_inside };

    ghost invariant = { IsPart };
}

impl<'a> DocumentBuilder<'a> {
    /// The document of a node of this class.
    pub fn new(alloc: Global, class: &'a str) -> DocumentBuilder<'a>
        ensures start { result ≡ in_node (document_node class.now no_fields) }
    {
        DocumentBuilder {
            class: NameRef::new(class),
            rows: Vec::new(alloc),
            places: Places::new(alloc),
            levels: 1,
            nodes: 1,
        }
    }

    /// Whether a field may come: a node is open innermost, and there is room.
    pub fn takes_field(&self) -> bool
        ensures takes { IsTrue result ↔ TakesField self.now }
    {
        self.is_in_node() && self.has_room()
    }

    /// Whether a field that is a node may come.
    pub fn takes_node(&self) -> bool
        ensures takes { IsTrue result ↔ TakesNode self.now }
    {
        self.takes_field() && self.has_room_for_node()
    }

    /// Whether a node of a list may come: a list is open innermost, and there is room.
    pub fn takes_kid(&self) -> bool
        ensures takes { IsTrue result ↔ TakesKid self.now }
    {
        !self.is_in_node() && self.has_room() && self.has_room_for_node()
    }

    /// Whether the document's node alone is open.
    pub fn is_whole(&self) -> bool
        ensures whole { result ≡ is_whole self.now }
    {
        self.places.innermost().is_none()
    }

    /// Adds a field that is a number.
    pub fn number(&mut self, name: &'a str, value: i64) -> Result<(), AllocError>
        requires takes { TakesField self.old }
        ensures number { OnOk result (self.new ≡ with_number name.now value self.old) }
        ensures unchanged { OnErr result (self.new ≡ self.old) }
    {
        self.rows.push(WrittenRow::Number {
            name: NameRef::new(name),
            value,
        })?;
        Ok(())
    }

    /// Adds a field that is a node, and opens it.
    pub fn open_node(&mut self, name: &'a str, class: &'a str) -> Result<(), AllocError>
        requires takes { TakesNode self.old }
        ensures node { OnOk result (self.new ≡ with_open_node name.now class.now self.old) }
        ensures unchanged { OnErr result (self.new ≡ self.old) }
    {
        let row = WrittenRow::Single {
            name: NameRef::new(name),
            class: NameRef::new(class),
            below: 0,
        };
        push_open(&mut self.places, &mut self.rows, row)?;
        self.levels += 1;
        self.nodes += 1;
        Ok(())
    }

    /// Adds a field that is a list, and opens it.
    pub fn open_list(&mut self, name: &'a str) -> Result<(), AllocError>
        requires takes { TakesField self.old }
        ensures list { OnOk result (self.new ≡ with_open_list name.now self.old) }
        ensures unchanged { OnErr result (self.new ≡ self.old) }
    {
        let row = WrittenRow::List {
            name: NameRef::new(name),
            below: 0,
        };
        push_open(&mut self.places, &mut self.rows, row)?;
        Ok(())
    }

    /// Adds a node of a list, and opens it.
    pub fn open_kid(&mut self, class: &'a str) -> Result<(), AllocError>
        requires takes { TakesKid self.old }
        ensures kid { OnOk result (self.new ≡ with_open_kid class.now self.old) }
        ensures unchanged { OnErr result (self.new ≡ self.old) }
    {
        let row = WrittenRow::Kid {
            class: NameRef::new(class),
            below: 0,
        };
        push_open(&mut self.places, &mut self.rows, row)?;
        self.levels += 1;
        self.nodes += 1;
        Ok(())
    }

    /// Closes the node or the list that is open innermost.
    pub fn close(&mut self)
        requires more { is_whole self.old ≡ false }
        ensures closed { self.new ≡ closed self.old }
    {
        if let Some(at) = self.places.pop() {
            self.levels -= nodes_of_row(&self.rows[at]);
            close_row(&mut self.rows, at);
        }
    }

    /// The document.
    pub fn finish(self) -> WrittenDocument<'a>
        requires whole { is_whole self ≡ true }
        ensures rows { AreRowsOf (document_so_far self.entry) result }
        ensures written { IsWritten result }
    {
        let DocumentBuilder { class, rows, .. } = self;
        WrittenDocument::new(class, rows)
    }

    /// Whether a node is open innermost.
    fn is_in_node(&self) -> bool
        ensures node { result ≡ takes_fields self.now }
    {
        match self.places.innermost() {
            Some(at) => nodes_of_row(&self.rows[at]) == 1,
            None => true,
        }
    }

    /// Whether there is room for one more field or node of a list.
    fn has_room(&self) -> bool
        ensures room { IsTrue result ↔ HasRoom self.now }
    {
        self.rows.len() < MOST_ENTRIES
    }

    /// Whether one more node may stand in those that are open, and in the document.
    fn has_room_for_node(&self) -> bool
        ensures room { IsTrue result ↔ HasRoomForNode self.now }
    {
        self.levels < DEEPEST && self.nodes < MOST_NODES
    }
}
