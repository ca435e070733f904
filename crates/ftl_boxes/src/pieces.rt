//! The pieces of a sample, written one after the other.

ghost use Rattle.std.specs.Prelude.{◌≡◌, ◌≤◌, ◌<◌, ◌+◌, ◌*◌, ◌++◌, OnOk, string_bytes};
ghost use Rattle.ftl_boxes.specs.Numbers.{state};
ghost use Rattle.ftl_boxes.specs.Sample.{box_text, strip_text, is_grid, piece_of, piece_text};
ghost use Rattle.ftl_boxes.specs.Sample.{pieces_text};

use crate::grammar::Grammar;
use crate::numbers::Numbers;
use std::alloc::AllocError;

/// A sample of so many pieces.
#[derive(Clone, Copy)]
pub(crate) struct Sample {
    pub(crate) grammar: Grammar,
    pub(crate) size: u32,
}

fn push_box(out: &mut String, class: &str, width: u32, height: u32) -> Result<(), AllocError>
    ensures text { OnOk result (string_bytes out.new ≡ string_bytes out.old ++ box_text class.now
        width height) }
{
    write!(out, "{class} {{ iw = {width} ih = {height} }} ")
}

fn push_strip(out: &mut String, height: u32) -> Result<(), AllocError>
    ensures text { OnOk result (string_bytes out.new ≡ string_bytes out.old ++ strip_text height) }
{
    write!(out, "Strip {{ ih = {height} }} ")
}

/// Whether this group of a sample of `flow` is a grid.
pub(crate) fn is_grid(group: u32) -> bool
    ensures grid { result ≡ is_grid group }
{
    group % 4 == 3
}

impl Sample {
    fn push_sized(
        self,
        out: &mut String,
        piece: u32,
        width: u32,
        height: u32,
    ) -> Result<(), AllocError>
        ensures text { OnOk result (string_bytes out.new ≡ string_bytes out.old ++ piece_of
            self.grammar piece width height) }
    {
        match self.grammar {
            Grammar::Float if piece % 8 == 0 => push_box(out, "FloatLeft", width, height),
            Grammar::Float if piece % 8 == 4 => push_box(out, "FloatRight", width, height),
            Grammar::Float => push_strip(out, height),
            Grammar::Table => push_box(out, "Cell", width, height),
            Grammar::Flow if is_grid(piece / 8) => push_box(out, "Cell", width, height),
            _ => push_box(out, "Word", width, height),
        }
    }

    #[tactic(auto, using(crate::proofs::SampleLemmas::state_after_piece))]
    fn push_piece(
        self,
        out: &mut String,
        numbers: &mut Numbers,
        piece: u32,
    ) -> Result<(), AllocError>
        requires state { numbers.old.state ≡ state self.size (2 * piece) }
        ensures text { OnOk result (string_bytes out.new ≡ string_bytes out.old ++ piece_text
            self.grammar self.size piece) }
        ensures state { numbers.new.state ≡ state self.size (2 * (piece + 1)) }
    {
        let width = 10 + numbers.draw(40);
        let height = 8 + numbers.draw(9);
        self.push_sized(out, piece, width, height)
    }

    /// Writes the pieces from `start` to below `end`.
    #[tactic(auto, using(crate::proofs::SampleLemmas::parts_more))]
    pub(crate) fn push_pieces(
        self,
        out: &mut String,
        numbers: &mut Numbers,
        start: u32,
        end: u32,
    ) -> Result<(), AllocError>
        requires in_order { start ≤ end }
        requires state { numbers.old.state ≡ state self.size (2 * start) }
        ensures text { OnOk result (string_bytes out.new ≡ string_bytes out.old ++ pieces_text
            self.grammar self.size start end) }
        ensures state { OnOk result (numbers.new.state ≡ state self.size (2 * end)) }
    {
        for piece in start..end {
            self.push_piece(out, numbers, piece)?;
        }
        Ok(())
    }
}
