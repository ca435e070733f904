//! Laws of the definitions.

ghost use Rattle.std.specs.Prelude.{◌≡◌, ◌≢◌, ℕ, List, Err};
ghost use Rattle.std.specs.List.{flat_map};
ghost use Rattle.ftl_page.specs.sections.Lines.{lines_of};
ghost use Rattle.ftl_page.specs.sections.Page.{page_of};
ghost use Rattle.ftl_page.specs.declared.sections.fault.PageFault.TheVariants.{OutOfMemory};
ghost use Rattle.ftl_page.specs.declared.sections.page.Need.{Need};

/// The lines of a text, one after another, are the text.
pub fn law_of_lines()
    ensures joined { (text : List ℕ) → flat_map (λ line. line) (lines_of text) ≡ text }
{}

/// The first fault of a page is never want of memory, so that where the call tells that, the answer
/// is open.
pub fn faults_are_of_pages()
    ensures memory { (bytes : List ℕ) (need : Need) → page_of bytes need ≢ Err OutOfMemory }
{}
