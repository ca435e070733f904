ghost use Rattle.std.specs.Prelude.{◌≡◌, ◌⊎◌, ◌↔◌, ℕ, [], ◌∷◌, length};
ghost use Rattle.ftl_model.specs.layout.Path.{top};
ghost use Rattle.ftl_model.specs.layout.Solves.{instance_of};
ghost use Rattle.ftl_model.specs.layout.TreeOf.{IsTreeOf};
ghost use Rattle.ftl_order.specs.orders.Lawful.{IsLawful};
ghost use Rattle.ftl_items.specs.stage_items.Items.{item, item_steps};
ghost use Rattle.ftl_nests.specs.NestItems.{nest_form};
ghost use Rattle.ftl_nests.specs.Nests.{IsNestOrdered};
ghost use Rattle.ftl_nests.specs.Region.{InRegion, IsClosed};
ghost use Rattle.ftl_nests.specs.WorkedNests.{IsRefusedBySides, LeavesUnorderedWithNests};
ghost use Rattle.ftl_nests.specs.WorkedNests.{cell_at_root, cell_reads_row, cells_in_sheets};
ghost use Rattle.ftl_nests.specs.WorkedNests.{line_in_nest, nested_in_sheet, ph_in_topdown};
ghost use Rattle.ftl_nests.specs.WorkedNests.{rh_in_bottomup, row_reads_cells, rows_in_rows};
ghost use Rattle.ftl_nests.specs.WorkedNests.{passes_beside, slot_in_own_list, slots_first};
ghost use Rattle.ftl_nests.specs.WorkedRows.{cell_node, nested_items, nested_nexts};
ghost use Rattle.ftl_nests.specs.WorkedRows.{nested_rows, row_node, rows, two_rows};

/// A law: the grammar of rows and cells is lawful, and two rows are a tree of it. Nests in each row
/// and in each sheet are closed. Schedules are accepted with a nest in a bottomup pass and one in a
/// topdown pass, with one whose cells read what its topdown pass computes, and with one that has a
/// row's attributes and its cells'.
pub fn rows_are_ordered()
    ensures lawful { IsLawful rows }
    ensures tree { IsTreeOf rows two_rows }
    ensures row { IsClosed rows 1 }
    ensures sheet { IsClosed rows 0 }
    ensures nested_rows { IsNestOrdered rows nested_rows }
    ensures slots_first { IsNestOrdered rows slots_first }
    ensures nested_in_sheet { IsNestOrdered rows nested_in_sheet }
{}

/// A law: schedules that are refused. In the bottomup pass that computes a row's height no cell can
/// read it, and in a topdown pass no row can read its cells. A nest in each row has attributes of
/// cells alone, and the own list of its pass none of these.
pub fn refused_nests()
    ensures bottomup { LeavesUnorderedWithNests rows rh_in_bottomup cell_reads_row }
    ensures topdown { LeavesUnorderedWithNests rows ph_in_topdown row_reads_cells }
    ensures own { IsRefusedBySides rows slot_in_own_list }
    ensures inner { IsRefusedBySides rows line_in_nest }
{}

/// A law: the regions of a row and of a sheet; and three in which a nest isn't closed: where rows
/// stand in rows, where the root is a cell, and where cells stand in a sheet as well.
pub fn regions_of_rows()
    ensures row { (i : ℕ) → InRegion rows 1 i ↔ (i ≡ 2) }
    ensures sheet { (i : ℕ) → InRegion rows 0 i ↔ ((i ≡ 1) ⊎ (i ≡ 2)) }
    ensures rows_in_rows { (i : ℕ) → InRegion rows_in_rows 1 i ↔ (i ≡ 1) }
    ensures host_inside { IsClosed rows_in_rows 1 → ⊥ }
    ensures cell_at_root { (i : ℕ) → InRegion cell_at_root 1 i ↔ (i ≡ 2) }
    ensures root_inside { IsClosed cell_at_root 1 → ⊥ }
    ensures cells_in_sheets { (i : ℕ) → InRegion cells_in_sheets 1 i ↔ (i ≡ 2) }
    ensures other_parent { IsClosed cells_in_sheets 1 → ⊥ }
{}

/// A law: over a sheet of two rows each row with its cells is one item, also at a grain of 1. In
/// the bottomup pass its inner steps, from the last cell to the first, come before its own rule,
/// and it hands on to the sheet. In the topdown pass rows hand on to none. Inner passes that stand
/// beside each other follow one another in the order of the text.
pub fn items_of_two_rows()
    ensures bottomup { nested_items 1 0
        ≡ item 0 (row_node 1) ∷ item 0 (row_node 0) ∷ item 0 top ∷ [] }
    ensures row { item_steps (nest_form rows nested_rows two_rows 1 0) two_rows
        (item 0 (row_node 0))
        ≡ instance_of (cell_node 0 1) 2 ∷ instance_of (cell_node 0 0) 2
        ∷ instance_of (row_node 0) 1 ∷ [] }
    ensures beside { item_steps (nest_form rows passes_beside two_rows 1 0) two_rows
        (item 0 (row_node 0))
        ≡ instance_of (cell_node 0 1) 2 ∷ instance_of (cell_node 0 0) 2
        ∷ instance_of (cell_node 0 0) 3 ∷ instance_of (cell_node 0 1) 3
        ∷ instance_of (row_node 0) 1 ∷ [] }
    ensures sheet { item_steps (nest_form rows nested_rows two_rows 1 0) two_rows (item 0 top)
        ≡ instance_of top 0 ∷ [] }
    ensures up { nested_nexts 1 0 0 ≡ 2 ∷ [] }
    ensures whole { length (nested_items 6 0) ≡ 1 }
    ensures topdown { nested_items 1 1
        ≡ item 0 top ∷ item 0 (row_node 0) ∷ item 0 (row_node 1) ∷ [] }
    ensures cells { item_steps (nest_form rows nested_rows two_rows 1 1) two_rows
        (item 0 (row_node 0))
        ≡ instance_of (cell_node 0 0) 3 ∷ instance_of (cell_node 0 1) 3 ∷ [] }
    ensures down { nested_nexts 1 1 0 ≡ 1 ∷ 2 ∷ [] }
    ensures none { nested_nexts 1 1 1 ≡ [] }
{}
