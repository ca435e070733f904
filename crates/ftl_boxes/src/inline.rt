//! Paragraphs of words that break into lines.

ghost use Rattle.std.specs.Prelude.{◌≡◌};
ghost use Rattle.ftl_boxes.specs.Inline.{inline_text};

const TEXT: &str = "root Page;
interface Page { input vw; syn h; show vw, h; }
interface Item { inh lw, gap, cx, ct, cb; syn x, y, w, h, ox, ot, ob;
  show x, y, w, h; }
class Para : Page { input space; kids : [Item];
  self.h := last kids.ob or 0;
  kids.lw := self.vw;
  kids.gap := self.space;
  kids.cx := first 0 then prev.ox;
  kids.ct := first 0 then prev.ot;
  kids.cb := first 0 then prev.ob;
}
class Span : Item { kids : [Item];
  self.x := self.cx;
  self.y := self.ct;
  self.w := fold kids from 0 with acc + this.w;
  self.h := self.ob - self.ct;
  self.ox := last kids.ox or self.cx;
  self.ot := last kids.ot or self.ct;
  self.ob := last kids.ob or self.cb;
  kids.lw := self.lw;
  kids.gap := self.gap;
  kids.cx := first self.cx then prev.ox;
  kids.ct := first self.ct then prev.ot;
  kids.cb := first self.cb then prev.ob;
}
class Word : Item { input iw, ih; local brk;
  self.brk := if self.cx > 0 && self.cx + self.gap + self.iw > self.lw then 1 else 0;
  self.x := if self.brk == 1 || self.cx == 0 then 0 else self.cx + self.gap;
  self.y := if self.brk == 1 then self.cb else self.ct;
  self.w := self.iw;
  self.h := self.ih;
  self.ox := self.x + self.iw;
  self.ot := self.y;
  self.ob := if self.brk == 1 then self.cb + self.ih else max(self.cb, self.ct + self.ih);
}
";

/// The text of the grammar.
#[tactic(auto, unfolding(crate::specs::Inline::inline_text))]
pub(crate) fn text() -> &'static str
    ensures text { result.now ≡ inline_text }
{
    TEXT
}
