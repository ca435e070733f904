//! Laws that hold regions against written grammars.

ghost use Rattle.std.specs.Prelude.{◌≡◌, None};
ghost use Rattle.ftl_meaning.specs.faults.FirstFault.{first_fault};
ghost use Rattle.ftl_nests.specs.Region.{IsClosed};
ghost use Rattle.ftl_regions.specs.hosts.Worked.{HasOne, HasTwo, HasTwoAttributes, numbered_of};
ghost use Rattle.ftl_regions.specs.hosts.Worked.{cell_at_root, cells_in_sheets, rows, rows_in_rows};

/// A law: in rows of cells the region of a row has the cells, with the attributes of their
/// interface and of their class; that of a sheet has the rows and the cells. A nest in each of the
/// two is closed, and so is one in each cell, whose region has nothing.
pub fn regions_of_written_rows()
    ensures lawful { first_fault rows ≡ None }
    ensures row { HasOne rows 1 2 }
    ensures sheet { HasTwo rows 0 1 2 }
    ensures attributes { HasTwoAttributes rows 1 1 3 }
    ensures closed_row { IsClosed (numbered_of rows) 1 }
    ensures closed_sheet { IsClosed (numbered_of rows) 0 }
    ensures closed_cell { IsClosed (numbered_of rows) 2 }
{}

/// A law: a nest in each row isn't closed where rows stand in rows, where the root is a cell, and
/// where cells stand in sheets as well; each time for that cause alone.
pub fn written_rows_that_are_open()
    ensures lawful { (first_fault rows_in_rows ≡ None) × (first_fault cell_at_root ≡ None)
        × (first_fault cells_in_sheets ≡ None) }
    ensures rows_in_rows { HasOne rows_in_rows 1 1 }
    ensures host_inside { IsClosed (numbered_of rows_in_rows) 1 → ⊥ }
    ensures cell_at_root { HasOne cell_at_root 1 2 }
    ensures root_inside { IsClosed (numbered_of cell_at_root) 1 → ⊥ }
    ensures cells_in_sheets { HasOne cells_in_sheets 1 2 }
    ensures other_parent { IsClosed (numbered_of cells_in_sheets) 1 → ⊥ }
{}
