// The rule of a table, and the effect of each kind of step.
ghost use Rattle.ftl_cells.specs.shared.State.{Reached, newcomer, first_name, next_name, given_up};
ghost use Rattle.ftl_cells.specs.shared.State.{after, after_join, split, end_word};
ghost use Rattle.ftl_cells.specs.shared.Effects.{look_effect, claim_effect, read_effect};
ghost use Rattle.ftl_cells.specs.shared.Effects.{fill_effect};
ghost use Rattle.ftl_cells.specs.shared.Effects.{mark_effect};
ghost use Rattle.ftl_cells.specs.shared.Effects.{send_effect, finish_effect, left_effect};
ghost use Rattle.std.specs.Prelude.{None};

use crate::shared::hand::SeatView;
use crate::shared::work::Meant;
use atomic_table::{Join, Play, Split, TableRule};

/// The words and the hands are in a state that steps lead to from an opening.
pub(crate) struct Law;

impl<W: Meant> TableRule<u8, SeatView, W> for Law {
    ghost holds = { λ work s. Reached (W.meaning work) s.words s.views };

    ghost first = { λ work. newcomer (W.meaning work) first_name };
}

pub(crate) struct LookPlay;

impl Play<u8, SeatView> for LookPlay {
    ghost then = { look_effect };
}

pub(crate) struct ClaimPlay;

impl Play<u8, SeatView> for ClaimPlay {
    ghost then = { claim_effect };
}

pub(crate) struct ReadPlay;

impl Play<u8, SeatView> for ReadPlay {
    ghost then = { read_effect };
}

pub(crate) struct FillPlay;

impl Play<u8, SeatView> for FillPlay {
    ghost then = { fill_effect };
}

pub(crate) struct MarkPlay;

impl Play<u8, SeatView> for MarkPlay {
    ghost then = { mark_effect };
}

pub(crate) struct SendPlay;

impl Play<u8, SeatView> for SendPlay {
    ghost then = { send_effect };
}

pub(crate) struct FinishPlay;

impl Play<u8, SeatView> for FinishPlay {
    ghost then = { finish_effect };
}

pub(crate) struct LeftPlay;

impl Play<u8, SeatView> for LeftPlay {
    ghost then = { left_effect };
}

pub(crate) struct SplitPlay;

impl Split<SeatView> for SplitPlay {
    ghost left = { λ v. after v v.place split end_word None };

    ghost right = { λ v. newcomer v.of (next_name v) };
}

pub(crate) struct JoinPlay;

impl Join<SeatView> for JoinPlay {
    ghost both = { λ v other. after_join v other };

    ghost spent = { given_up };
}
