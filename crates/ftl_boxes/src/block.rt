//! Blocks with margins, padding and borders, and words below each other.

ghost use Rattle.std.specs.Prelude.{◌≡◌};
ghost use Rattle.ftl_boxes.specs.Block.{block_text};

const TEXT: &str = "root Page;
interface Page { input vw; syn h; show vw, h; }
interface Box { inh px, py, aw; syn x, y, w, h, mh; show x, y, w, h; }
class Screen : Page { body : Box;
  self.h := body.mh;
  body.px := 0;
  body.py := 0;
  body.aw := self.vw;
}
class Block : Box { input margin, pad, border; local iw, inner; kids : [Box];
  self.iw := max(0, self.w - 2 * self.pad - 2 * self.border);
  self.inner := fold kids from 0 with acc + this.mh;
  self.x := self.px + self.margin;
  self.y := self.py + self.margin;
  self.w := max(0, self.aw - 2 * self.margin);
  self.h := self.inner + 2 * self.pad + 2 * self.border;
  self.mh := self.h + 2 * self.margin;
  kids.px := self.x + self.border + self.pad;
  kids.py := first self.y + self.border + self.pad then prev.py + prev.mh;
  kids.aw := self.iw;
}
class Word : Box { input iw, ih;
  self.x := self.px;
  self.y := self.py;
  self.w := self.iw;
  self.h := self.ih;
  self.mh := self.ih;
}
";

/// The text of the grammar.
#[tactic(auto, unfolding(crate::specs::Block::block_text))]
pub(crate) fn text() -> &'static str
    ensures text { result.now ≡ block_text }
{
    TEXT
}
