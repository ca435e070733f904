//! Which steps the visits of hosts have.
ghost use Rattle.ftl_host_cursors.specs.HostLaws.{ItemsAreOfTheForm, OfNestingPasses};
ghost use Rattle.ftl_host_cursors.specs.HostLaws.{RowsCutAsNests, VisitsAreWithNests};

/// A law: the steps of the visit of a node are steps of the tree, and compute what its visit in the
/// pass with the nest has, at a host with the inner steps; so do those of the nodes of an item.
pub fn host_visits()
    ensures visits { OfNestingPasses VisitsAreWithNests }
    ensures items { OfNestingPasses ItemsAreOfTheForm }
{}

/// A law: the rows of a tree tell the items of a pass with a nest, where they have its host class.
pub fn rows_cut_as_nests()
    ensures cuts { RowsCutAsNests }
{}
