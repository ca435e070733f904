//! A read, by where it is written and how it is read.
ghost use Rattle.std.specs.Prelude.{◌≡◌};
ghost use Rattle.std.specs.Option.{option_map};
ghost use Rattle.ftl_checked.specs.grammars.ReadNumbers.{leaf_in};
ghost use Rattle.ftl_order.specs.dependencies.DepReads.{dep_read, kid_read, kid_site, own_site};
ghost use Rattle.ftl_deps.specs.reads.Meant.{meant};
ghost use Rattle.ftl_meaning.specs.grammars.GrammarOf.{declaration_at, sort_of};
ghost use Rattle.ftl_meaning.specs.grammars.Meaning.{read_of};

use ftl_checked::{Checked, NumberedRead};
use ftl_grammar::AttrKind;
use ftl_order::{DepRead, Form, Site};

/// The read by number; none of what a fold has so far.
pub(crate) fn dep_of(checked: &Checked, read: NumberedRead) -> Option<DepRead>
    ensures dep { result ≡ option_map (dep_read (meant checked.now)) (read_of (leaf_in read)) }
{
    match read {
        NumberedRead::Own(attr) => Some(DepRead {
            attr,
            site: own_site(kind_of(checked, attr)),
            form: Form::Plain,
            child: None,
        }),
        NumberedRead::Single(child, attr) => Some(kid_dep(checked, Form::Plain, child, attr)),
        NumberedRead::Each(child, attr) => Some(kid_dep(checked, Form::Each, child, attr)),
        NumberedRead::This(child, attr) => Some(kid_dep(checked, Form::This, child, attr)),
        NumberedRead::Prev(child, attr) => Some(kid_dep(checked, Form::Prev, child, attr)),
        NumberedRead::Last(child, attr) => Some(kid_dep(checked, Form::Last, child, attr)),
        NumberedRead::Acc => None,
    }
}

fn kid_dep(checked: &Checked, form: Form, child: u32, attr: u32) -> DepRead
    ensures dep { result ≡ kid_read (meant checked.now) form child attr }
{
    DepRead {
        attr,
        site: kid_site(kind_of(checked, attr)),
        form,
        child: Some(child),
    }
}

fn own_site(kind: AttrKind) -> Site
    ensures site { result ≡ own_site (sort_of kind) }
{
    match kind {
        AttrKind::Input => Site::Input,
        AttrKind::Inh => Site::Above,
        AttrKind::Syn | AttrKind::Local => Site::SameVisit,
    }
}

fn kid_site(kind: AttrKind) -> Site
    ensures site { result ≡ kid_site (sort_of kind) }
{
    match kind {
        AttrKind::Input => Site::Input,
        AttrKind::Syn => Site::Below,
        AttrKind::Inh | AttrKind::Local => Site::SameVisit,
    }
}

/// The kind of an attribute; past the end that of an input.
#[tactic(auto, using(crate::proofs::reads::AttrKinds::kind_steps))]
fn kind_of(checked: &Checked, attr: u32) -> AttrKind
    ensures kind { result ≡ (declaration_at checked.now.grammar attr).kind }
{
    if attr < checked.attr_count() {
        checked.attr(attr).kind
    } else {
        AttrKind::Input
    }
}
