//! Articles of blocks, paragraphs, figures and grids.

ghost use Rattle.std.specs.Prelude.{◌≡◌};
ghost use Rattle.ftl_boxes.specs.Flow.{flow_text};

const TEXT: &str = "root Page;
interface Page { input vw; syn h; show vw, h; }
interface Box { inh px, py, aw; syn x, y, w, h, mh; show x, y, w, h; }
interface Item { inh bx, by, lw, gap, cx, ct, cb;
  syn rx, ry, x, y, w, h, ox, ot, ob; show x, y, w, h; }
interface Line { inh x, y, c0, c1, c2, c3; syn h, m0, m1, m2, m3; show x, y, h; }
interface Slot { inh col, x, y, cw, rh; syn w, h, pw, ph; show x, y, w, h; }
class Article : Page { input pad; local inner; kids : [Box];
  self.inner := fold kids from 0 with acc + this.mh;
  self.h := self.inner + 2 * self.pad;
  kids.px := self.pad;
  kids.py := first self.pad then prev.py + prev.mh;
  kids.aw := max(0, self.vw - 2 * self.pad);
}
class Section : Box { input margin, pad; local inner; kids : [Box];
  self.inner := fold kids from 0 with acc + this.mh;
  self.x := self.px + self.margin;
  self.y := self.py + self.margin;
  self.w := max(0, self.aw - 2 * self.margin);
  self.h := self.inner + 2 * self.pad;
  self.mh := self.h + 2 * self.margin;
  kids.px := self.x + self.pad;
  kids.py := first self.y + self.pad then prev.py + prev.mh;
  kids.aw := max(0, self.w - 2 * self.pad);
}
class Para : Box { input margin, space; items : [Item];
  self.x := self.px;
  self.y := self.py + self.margin;
  self.w := self.aw;
  self.h := last items.ob or 0;
  self.mh := self.h + 2 * self.margin;
  items.bx := self.x;
  items.by := self.y;
  items.lw := self.w;
  items.gap := self.space;
  items.cx := first 0 then prev.ox;
  items.ct := first 0 then prev.ot;
  items.cb := first 0 then prev.ob;
}
class Figure : Box { input iw, ih, margin;
  self.x := self.px + max(0, self.aw - self.iw) / 2;
  self.y := self.py + self.margin;
  self.w := self.iw;
  self.h := self.ih;
  self.mh := self.h + 2 * self.margin;
}
class Grid : Box { input margin; local t0, t1, t2, t3; rows : [Line];
  self.t0 := fold rows from 0 with max(acc, this.m0);
  self.t1 := fold rows from 0 with max(acc, this.m1);
  self.t2 := fold rows from 0 with max(acc, this.m2);
  self.t3 := fold rows from 0 with max(acc, this.m3);
  self.x := self.px;
  self.y := self.py + self.margin;
  self.w := self.t0 + self.t1 + self.t2 + self.t3;
  self.h := fold rows from 0 with acc + this.h;
  self.mh := self.h + 2 * self.margin;
  rows.x := self.x;
  rows.y := first self.y then prev.y + prev.h;
  rows.c0 := self.t0;
  rows.c1 := self.t1;
  rows.c2 := self.t2;
  rows.c3 := self.t3;
}
class Span : Item { kids : [Item];
  self.rx := self.cx;
  self.ry := self.ct;
  self.x := self.bx + self.rx;
  self.y := self.by + self.ry;
  self.w := fold kids from 0 with acc + this.w;
  self.h := self.ob - self.ct;
  self.ox := last kids.ox or self.cx;
  self.ot := last kids.ot or self.ct;
  self.ob := last kids.ob or self.cb;
  kids.bx := self.bx;
  kids.by := self.by;
  kids.lw := self.lw;
  kids.gap := self.gap;
  kids.cx := first self.cx then prev.ox;
  kids.ct := first self.ct then prev.ot;
  kids.cb := first self.cb then prev.ob;
}
class Word : Item { input iw, ih; local brk;
  self.brk := if self.cx > 0 && self.cx + self.gap + self.iw > self.lw then 1 else 0;
  self.rx := if self.brk == 1 || self.cx == 0 then 0 else self.cx + self.gap;
  self.ry := if self.brk == 1 then self.cb else self.ct;
  self.x := self.bx + self.rx;
  self.y := self.by + self.ry;
  self.w := self.iw;
  self.h := self.ih;
  self.ox := self.rx + self.iw;
  self.ot := self.ry;
  self.ob := if self.brk == 1 then self.cb + self.ih else max(self.cb, self.ct + self.ih);
}
class Row : Line { cells : [Slot];
  self.h := fold cells from 0 with max(acc, this.ph);
  self.m0 := fold cells from 0 with if this.col == 0 then this.pw else acc;
  self.m1 := fold cells from 0 with if this.col == 1 then this.pw else acc;
  self.m2 := fold cells from 0 with if this.col == 2 then this.pw else acc;
  self.m3 := fold cells from 0 with if this.col == 3 then this.pw else acc;
  cells.col := first 0 then prev.col + 1;
  cells.x := first self.x then prev.x + prev.cw;
  cells.y := self.y;
  cells.cw := (if this.col == 0 then self.c0 else 0) + (if this.col == 1 then self.c1 else 0)
    + (if this.col == 2 then self.c2 else 0) + (if this.col == 3 then self.c3 else 0);
  cells.rh := self.h;
}
class Cell : Slot { input iw, ih;
  self.w := self.cw;
  self.h := self.rh;
  self.pw := self.iw;
  self.ph := self.ih;
}
";

/// The text of the grammar.
#[tactic(auto, unfolding(crate::specs::Flow::flow_text))]
pub(crate) fn text() -> &'static str
    ensures text { result.now ≡ flow_text }
{
    TEXT
}
