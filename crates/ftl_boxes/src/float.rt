//! Strips between boxes that float to the left and to the right.

ghost use Rattle.std.specs.Prelude.{◌≡◌};
ghost use Rattle.ftl_boxes.specs.Float.{float_text};

const TEXT: &str = "root Page;
interface Page { input vw; syn h; show vw, h; }
interface Box { inh lx, rx, cy, le, lb, re, rb;
  syn x, y, w, h, ny, nle, nlb, nre, nrb; show x, y, w, h; }
class Screen : Page { kids : [Box];
  self.h := max(last kids.ny or 0, max(last kids.nlb or 0, last kids.nrb or 0));
  kids.lx := 0;
  kids.rx := self.vw;
  kids.cy := first 0 then prev.ny;
  kids.le := first 0 then prev.nle;
  kids.lb := first 0 then prev.nlb;
  kids.re := first self.vw then prev.nre;
  kids.rb := first 0 then prev.nrb;
}
class Group : Box { input pad; kids : [Box];
  self.x := self.lx;
  self.y := self.cy;
  self.w := max(0, self.rx - self.lx);
  self.h := self.ny - self.cy;
  self.ny := (last kids.ny or (self.cy + self.pad)) + self.pad;
  self.nle := last kids.nle or self.le;
  self.nlb := last kids.nlb or self.lb;
  self.nre := last kids.nre or self.re;
  self.nrb := last kids.nrb or self.rb;
  kids.lx := self.lx + self.pad;
  kids.rx := self.rx - self.pad;
  kids.cy := first self.cy + self.pad then prev.ny;
  kids.le := first self.le then prev.nle;
  kids.lb := first self.lb then prev.nlb;
  kids.re := first self.re then prev.nre;
  kids.rb := first self.rb then prev.nrb;
}
class Strip : Box { input ih;
  self.x := if self.cy < self.lb then max(self.lx, self.le) else self.lx;
  self.y := self.cy;
  self.w := max(0, (if self.cy < self.rb then min(self.rx, self.re) else self.rx) - self.x);
  self.h := self.ih;
  self.ny := self.cy + self.ih;
  self.nle := self.le;
  self.nlb := self.lb;
  self.nre := self.re;
  self.nrb := self.rb;
}
class FloatLeft : Box { input iw, ih;
  self.x := self.lx;
  self.y := if self.cy < self.lb then self.lb else self.cy;
  self.w := self.iw;
  self.h := self.ih;
  self.ny := self.cy;
  self.nle := if self.cy < self.lb then max(self.le, self.x + self.w) else self.x + self.w;
  self.nlb := self.y + self.h;
  self.nre := self.re;
  self.nrb := self.rb;
}
class FloatRight : Box { input iw, ih;
  self.x := self.rx - self.iw;
  self.y := if self.cy < self.rb then self.rb else self.cy;
  self.w := self.iw;
  self.h := self.ih;
  self.ny := self.cy;
  self.nle := self.le;
  self.nlb := self.lb;
  self.nre := if self.cy < self.rb then min(self.re, self.x) else self.x;
  self.nrb := self.y + self.h;
}
";

/// The text of the grammar.
#[tactic(auto, unfolding(crate::specs::Float::float_text))]
pub(crate) fn text() -> &'static str
    ensures text { result.now ≡ float_text }
{
    TEXT
}
