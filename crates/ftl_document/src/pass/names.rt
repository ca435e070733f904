//! Which names of a grammar a pass can look for.

ghost use Rattle.std.specs.Prelude.{◌≡◌, ◌<◌, ℕ, length, get_or, IsTrue, []};
ghost use Rattle.ftl_meaning.specs.faults.Numbering.{class_at};
ghost use Rattle.ftl_document.specs.nodes.Tables.{AreTables};
ghost use Rattle.ftl_document.specs.pass.Good.{IsPlainName};
ghost use Rattle.ftl_document.specs.pass.Steps.{HasPlainNames};

use crate::nodes::ClassTable;
use crate::plain::{begins_word, is_name, word_length};
use ftl_checked::Checked;
use ftl_tokens::Name;

/// Whether the name is a word in ASCII that is not reserved, as each is that a text can have.
fn is_plain(name: &Name) -> bool
    ensures plain { IsTrue result → IsPlainName name.now }
{
    let bytes = name.text().as_bytes();
    !bytes.is_empty()
        && begins_word(bytes[0])
        && word_length(&bytes[1..]) == bytes.len() - 1
        && is_name(name.text())
}

fn all_plain(names: &[Name]) -> bool
    ensures plain { IsTrue result → (i : ℕ) → i < length names.now
        → IsPlainName (get_or names.now i []) }
{
    let mut at = 0;
    while at < names.len() {
        if !is_plain(&names[at]) {
            return false;
        }
        at += 1;
    }
    true
}

/// Whether the names of a class and of its fields are.
fn class_is_plain(checked: &Checked, tables: &[ClassTable], class: u32) -> bool
    requires tables { AreTables checked.now.grammar tables.now }
    requires count { length tables.now ≡ length checked.now.grammar.classes }
    requires known { class < length checked.now.grammar.classes }
    ensures plain { IsTrue result → HasPlainNames checked.now.grammar class }
{
    is_plain(checked.class_name(class)) && all_plain(tables[class as usize].fields.names.names())
}

/// Whether those of all classes are.
pub(crate) fn names_are_plain(checked: &Checked, tables: &[ClassTable]) -> bool
    requires tables { AreTables checked.now.grammar tables.now }
    requires count { length tables.now ≡ length checked.now.grammar.classes }
    ensures plain { IsTrue result → (k : ℕ) → k < length checked.now.grammar.classes
        → HasPlainNames checked.now.grammar k }
{
    let mut class = 0;
    while class < checked.class_count() {
        if !class_is_plain(checked, tables, class) {
            return false;
        }
        class += 1;
    }
    true
}
