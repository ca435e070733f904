//! Boxes below each other.

ghost use Rattle.std.specs.Prelude.{◌≡◌};
ghost use Rattle.ftl_boxes.specs.Stack.{stack_text};

const TEXT: &str = "root Page;
interface Page { syn h; show h; }
interface Box { inh x, y; syn w, h; show x, y, w, h; }
class Sheet : Page { body : Box;
  self.h := body.h;
  body.x := 0;
  body.y := 0;
}
class Column : Box { kids : [Box];
  self.w := fold kids from 0 with max(acc, this.w);
  self.h := fold kids from 0 with acc + this.h;
  kids.x := self.x;
  kids.y := first self.y then prev.y + prev.h;
}
class Word : Box { input iw, ih;
  self.w := self.iw;
  self.h := self.ih;
}
";

/// The text of the grammar.
#[tactic(auto, unfolding(crate::specs::Stack::stack_text))]
pub(crate) fn text() -> &'static str
    ensures text { result.now ≡ stack_text }
{
    TEXT
}
