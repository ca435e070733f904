//! Tables of at most eight columns.

ghost use Rattle.std.specs.Prelude.{◌≡◌};
ghost use Rattle.ftl_boxes.specs.Table.{table_text};

const TEXT: &str = "root Page;
interface Page { syn w, h; show w, h; }
interface Line { inh x, y, c0, c1, c2, c3, c4, c5, c6, c7;
  syn h, m0, m1, m2, m3, m4, m5, m6, m7; show x, y, h; }
interface Slot { inh col, x, y, cw, rh; syn w, h, pw, ph; show x, y, w, h; }
class Table : Page { local t0, t1, t2, t3, t4, t5, t6, t7; rows : [Line];
  self.t0 := fold rows from 0 with max(acc, this.m0);
  self.t1 := fold rows from 0 with max(acc, this.m1);
  self.t2 := fold rows from 0 with max(acc, this.m2);
  self.t3 := fold rows from 0 with max(acc, this.m3);
  self.t4 := fold rows from 0 with max(acc, this.m4);
  self.t5 := fold rows from 0 with max(acc, this.m5);
  self.t6 := fold rows from 0 with max(acc, this.m6);
  self.t7 := fold rows from 0 with max(acc, this.m7);
  self.w := self.t0 + self.t1 + self.t2 + self.t3 + self.t4 + self.t5 + self.t6 + self.t7;
  self.h := fold rows from 0 with acc + this.h;
  rows.x := 0;
  rows.y := first 0 then prev.y + prev.h;
  rows.c0 := self.t0;
  rows.c1 := self.t1;
  rows.c2 := self.t2;
  rows.c3 := self.t3;
  rows.c4 := self.t4;
  rows.c5 := self.t5;
  rows.c6 := self.t6;
  rows.c7 := self.t7;
}
class Row : Line { cells : [Slot];
  self.h := fold cells from 0 with max(acc, this.ph);
  self.m0 := fold cells from 0 with if this.col == 0 then this.pw else acc;
  self.m1 := fold cells from 0 with if this.col == 1 then this.pw else acc;
  self.m2 := fold cells from 0 with if this.col == 2 then this.pw else acc;
  self.m3 := fold cells from 0 with if this.col == 3 then this.pw else acc;
  self.m4 := fold cells from 0 with if this.col == 4 then this.pw else acc;
  self.m5 := fold cells from 0 with if this.col == 5 then this.pw else acc;
  self.m6 := fold cells from 0 with if this.col == 6 then this.pw else acc;
  self.m7 := fold cells from 0 with if this.col == 7 then this.pw else acc;
  cells.col := first 0 then prev.col + 1;
  cells.x := first self.x then prev.x + prev.cw;
  cells.y := self.y;
  cells.cw := (if this.col == 0 then self.c0 else 0) + (if this.col == 1 then self.c1 else 0)
    + (if this.col == 2 then self.c2 else 0) + (if this.col == 3 then self.c3 else 0)
    + (if this.col == 4 then self.c4 else 0) + (if this.col == 5 then self.c5 else 0)
    + (if this.col == 6 then self.c6 else 0) + (if this.col == 7 then self.c7 else 0);
  cells.rh := self.h;
}
class Cell : Slot { input iw, ih;
  self.w := self.cw;
  self.h := self.rh;
  self.pw := self.iw;
  self.ph := self.ih;
}
";

/// The text of the grammar.
#[tactic(auto, unfolding(crate::specs::Table::table_text))]
pub(crate) fn text() -> &'static str
    ensures text { result.now ≡ table_text }
{
    TEXT
}
