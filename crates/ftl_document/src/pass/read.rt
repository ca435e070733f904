//! Documents, by one pass over their bytes.

ghost use Rattle.std.specs.Prelude.{◌≡◌, ◌≤◌, length, IfOk, IfSome, OnOk};
ghost use Rattle.ftl_base.specs.Widths.{greatest_of_width};
ghost use Rattle.ftl_model.specs.layout.Limits.{most_page_bytes};
ghost use Rattle.ftl_document.specs.pass.Parts.{state_of};
ghost use Rattle.ftl_document.specs.pass.Steps.{IsGoodDocument, IsReady};
ghost use Rattle.ftl_document.specs.reading.OfText.{AreNodesOfText};

use crate::nodes::{DocumentNodes, class_tables};
use crate::pass::names::names_are_plain;
use crate::pass::nodes::Pass;
use crate::pass::open_nodes::OpenNodes;
use crate::pass::passed::{Passed, Standing};
use ftl_checked::Checked;
use ftl_tokens::ReadFault;
use ftl_tree::Place;
use std::alloc::{AllocError, Global};

/// The nodes of the tree of a text, whose numbers are at most `greatest`. None where the text is
/// not plainly good.
pub fn passed_nodes(
    alloc: Global,
    checked: &Checked,
    text: &str,
    greatest: u64,
) -> Result<Option<DocumentNodes>, AllocError>
    requires short { length text.now ≤ most_page_bytes }
    requires width { greatest ≡ greatest_of_width checked.now.width }
    ensures nodes { IfOk result (λ found. IfSome found (AreNodesOfText checked.now text.now)) }
{
    let tables = class_tables(alloc, checked)?;
    if !names_are_plain(checked, tables.as_slice()) {
        return Ok(None);
    }
    let mut passed = Passed::new(alloc, text.as_bytes(), checked.interface_count())?;
    let pass = Pass {
        checked,
        tables: tables.as_slice(),
        greatest,
    };
    match pass.document(alloc, &mut passed) {
        Ok(()) => {
            let Passed { rows, inputs, .. } = passed;
            Ok(Some(DocumentNodes { rows, inputs }))
        }
        Err(ReadFault::Refused) => Ok(None),
        Err(ReadFault::OutOfMemory) => Err(AllocError),
    }
}

impl<'g> Pass<'g> {
    /// Takes all of a document.
    fn document(&self, alloc: Global, passed: &mut Passed<'_>) -> Result<(), ReadFault>
        requires ready { IsReady self.now }
        ensures document { OnOk result (IsGoodDocument self.now.checked.now.grammar
            self.now.greatest (state_of self.now.greatest passed.old)
            (state_of self.now.greatest passed.new)) }
    {
        let root = Standing {
            wanted: self.checked.root(),
            parent: 0,
            place: Place { child: 0, kid: 0 },
        };
        let mut stack = OpenNodes::new(alloc);
        self.node(root, &mut stack, passed)?;
        self.finish(&mut stack, passed)?;
        if passed.is_done() {
            Ok(())
        } else {
            Err(ReadFault::Refused)
        }
    }
}
