//! The groups of a sample, a line for each.

ghost use Rattle.std.specs.Prelude.{◌≡◌, ◌≤◌, ◌<◌, ◌+◌, ◌*◌, ◌++◌, min, OnOk, string_bytes};
ghost use Rattle.ftl_boxes.specs.Numbers.{state};
ghost use Rattle.ftl_boxes.specs.Sample.{opening, row_text, rows_text, group_pieces, group_text};

use crate::grammar::Grammar;
use crate::numbers::Numbers;
use crate::pieces::{Sample, is_grid};
use std::alloc::AllocError;

fn opening(grammar: Grammar, group: u32) -> &'static str
    ensures text { result.now ≡ opening grammar group }
{
    match grammar {
        Grammar::Stack => "Column { kids = [ ",
        Grammar::Block => "Block { margin = 2 pad = 1 border = 0 kids = [ ",
        Grammar::Inline => "Span { kids = [ ",
        Grammar::Float => "Group { pad = 2 kids = [ ",
        Grammar::Table => "Row { cells = [ ",
        Grammar::Flow if is_grid(group) => "Grid { margin = 4 rows = [ ",
        Grammar::Flow => "Para { margin = 6 space = 4 items = [ ",
    }
}

impl Sample {
    fn push_row(
        self,
        out: &mut String,
        numbers: &mut Numbers,
        start: u32,
        end: u32,
    ) -> Result<(), AllocError>
        requires in_order { start ≤ end }
        requires state { numbers.old.state ≡ state self.size (2 * start) }
        ensures text { OnOk result (string_bytes out.new ≡ string_bytes out.old ++ row_text
            self.grammar self.size start end) }
        ensures state { OnOk result (numbers.new.state ≡ state self.size (2 * end)) }
    {
        out.push_str("Row { cells = [ ")?;
        self.push_pieces(out, numbers, start, end)?;
        out.push_str("] } ")?;
        Ok(())
    }

    fn push_rows(
        self,
        out: &mut String,
        numbers: &mut Numbers,
        start: u32,
        end: u32,
    ) -> Result<(), AllocError>
        requires in_order { start ≤ end }
        requires small { end ≤ 200000 }
        requires state { numbers.old.state ≡ state self.size (2 * start) }
        ensures text { OnOk result (string_bytes out.new ≡ string_bytes out.old ++ rows_text
            self.grammar self.size start end) }
        ensures state { OnOk result (numbers.new.state ≡ state self.size (2 * end)) }
    {
        let middle = start + 4;
        if middle < end {
            self.push_row(out, numbers, start, middle)?;
            self.push_row(out, numbers, middle, end)
        } else {
            self.push_row(out, numbers, start, end)
        }
    }

    fn push_group_pieces(
        self,
        out: &mut String,
        numbers: &mut Numbers,
        group: u32,
        end: u32,
    ) -> Result<(), AllocError>
        requires in_order { 8 * group ≤ end }
        requires small { end ≤ 200000 }
        requires state { numbers.old.state ≡ state self.size (2 * (8 * group)) }
        ensures text { OnOk result (string_bytes out.new ≡ string_bytes out.old ++ group_pieces
            self.grammar self.size group (8 * group) end) }
        ensures state { OnOk result (numbers.new.state ≡ state self.size (2 * end)) }
    {
        match self.grammar {
            Grammar::Flow if is_grid(group) => self.push_rows(out, numbers, 8 * group, end),
            _ => self.push_pieces(out, numbers, 8 * group, end),
        }
    }

    /// Writes the line of a group.
    pub(crate) fn push_group(
        self,
        out: &mut String,
        numbers: &mut Numbers,
        group: u32,
    ) -> Result<(), AllocError>
        requires small { self.size ≤ 200000 }
        requires some { 8 * group < self.size }
        requires state { numbers.old.state ≡ state self.size (2 * (8 * group)) }
        ensures text { OnOk result (string_bytes out.new ≡ string_bytes out.old ++ group_text
            self.grammar self.size group) }
        ensures state { OnOk result (numbers.new.state ≡ state self.size (2 * min self.size (8 *
            (group + 1)))) }
    {
        let end = self.size.min(8 * (group + 1));
        out.push_str(opening(self.grammar, group))?;
        self.push_group_pieces(out, numbers, group, end)?;
        out.push_str("] }\n")
    }
}
