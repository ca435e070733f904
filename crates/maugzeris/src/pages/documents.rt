//! The document of a page as a text, and the edits of a text.

ghost use Rattle.std.specs.Prelude.{◌≡◌, ◌≤◌, ℕ, List, IfOk, string_bytes, string_len};
ghost use Rattle.ftl_answer.specs.answers.Stages.{hands_on};
ghost use Rattle.ftl_answer.specs.answers.Texts.{edits, grown_tree};
ghost use Rattle.ftl_document.specs.faults.WrittenOf.{written_of};
ghost use Rattle.ftl_document_printing.specs.text.DocumentText.{document_text};
ghost use Rattle.ftl_edits.specs.meaning.Editable.{AreEditsOf};
ghost use Rattle.ftl_model.specs.layout.Limits.{most_page_bytes};
ghost use Rattle.maugzeris.specs.pages.PageState.{tree_on};
ghost use Rattle.maugzeris.specs.refusals.Answers.{Answers};
ghost use Rattle.maugzeris.specs.rules.RuleTexts.{edits_text};

use crate::pages::page::Page;
use crate::refusals::{Refusal, refusal_of, short_text};
use ftl_answer::reading::edits_of;
use ftl_document_printing::print_document;
use ftl_edits::EditList;
use std::alloc::{AllocError, Global};

impl<'a> Page<'a> {
    /// The canonical text of the document, with the inputs that the page has now. Numbers that
    /// `set_input` was given count from the next `relayout` on.
    pub fn document(&self, alloc: Global) -> Result<String, AllocError>
        ensures text { IfOk result (λ t. string_bytes t
            ≡ document_text (written_of self.now.checked.grammar self.now.tree)) }

        // where some text is that of the page's tree, so is this one
        ensures read_back { (text : List ℕ)
            → grown_tree self.now.checked text (hands_on self.now.tree) → IfOk result
            (λ t. grown_tree self.now.checked (string_bytes t) (hands_on self.now.tree)) }
    {
        Ok(print_document(alloc, self.tree())?)
    }

    /// The edits of a text, as a page has them in its section of that name, or its refusal. The
    /// page takes each by `set_input`.
    #[tactic(auto, using(crate::proofs::refusals::Ways::stage_steps))]
    pub fn edits_of(&self, alloc: Global, text: &str) -> Result<EditList, Refusal>
        ensures outcome { Answers (edits_text self.now.checked self.now.tree text.now) (λ es. es)
            result }
        ensures editable { IfOk result (AreEditsOf (tree_on self.now)) }
    {
        match short_text(alloc, text) {
            Ok(text) => self.edits_of_text(alloc, text),
            Err(refusal) => Err(refusal),
        }
    }

    /// The edits of a text that is not too long.
    #[tactic(auto, using(crate::proofs::refusals::Ways::stage_steps))]
    fn edits_of_text(&self, alloc: Global, text: String) -> Result<EditList, Refusal>
        requires short { string_len text ≤ most_page_bytes }
        ensures outcome { Answers (edits self.now.checked self.now.tree (string_bytes text))
            (λ es. es) result }
        ensures editable { IfOk result (AreEditsOf (tree_on self.now)) }
    {
        match edits_of(alloc, self.grammar().checked(), self.tree(), text) {
            Ok(edits) => Ok(edits),
            Err(end) => Err(refusal_of(end)),
        }
    }
}
