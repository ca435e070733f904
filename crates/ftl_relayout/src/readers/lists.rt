//! Where the list of an attribute's readers stands that stand for a class.
ghost use Rattle.std.specs.Prelude.{◌≡◌, ◌≤◌, ◌*◌};
ghost use Rattle.ftl_model.specs.layout.Limits.{most_classes};
ghost use Rattle.ftl_relayout.specs.readers.Readers as specs;
ghost use Rattle.ftl_relayout.specs.readers.Readers.{attribute_read, whose_read};
ghost use Rattle.ftl_relayout.specs.readers.Tables as tables;

use crate::readers::reader::{Reader, Whose};
use ftl_deps::PartRead;

/// The number of lists for so many classes and attributes.
pub(crate) fn list_count(classes: u32, attributes: u32) -> usize
    requires few { classes ≤ most_classes }
    ensures count { result ≡ attributes * classes * 2 }
{
    attributes as usize * classes as usize * 2
}

/// The place of the readers of an attribute that stand for a class.
pub(crate) fn list_at(classes: u32, attr: u32, class: u32, whose: Whose) -> usize
    requires few { classes ≤ most_classes }
    ensures place { result ≡ specs.list_at classes attr class whose }
{
    let own = (attr as usize * classes as usize + class as usize) * 2;
    match whose {
        Whose::Own => own,
        Whose::Kid => own + 1,
    }
}

/// The place of the list that a reader is in.
pub(crate) fn list_of(classes: u32, reader: Reader) -> usize
    requires few { classes ≤ most_classes }
    ensures place { result ≡ tables.list_of classes reader }
{
    let attr = attribute_of(reader.read);
    list_at(classes, attr, reader.info.class, whose_of(reader.read))
}

/// The attribute that a read names.
fn attribute_of(read: PartRead) -> u32
    ensures attribute { result ≡ attribute_read read }
{
    match read {
        PartRead::Own(attr)
        | PartRead::Single(_, attr)
        | PartRead::Each(_, attr)
        | PartRead::This(_, attr)
        | PartRead::Prev(_, attr)
        | PartRead::Last(_, attr) => attr,
    }
}

/// Whose it is.
fn whose_of(read: PartRead) -> Whose
    ensures whose { result ≡ whose_read read }
{
    match read {
        PartRead::Own(_) => Whose::Own,
        PartRead::Single(_, _)
        | PartRead::Each(_, _)
        | PartRead::This(_, _)
        | PartRead::Prev(_, _)
        | PartRead::Last(_, _) => Whose::Kid,
    }
}
