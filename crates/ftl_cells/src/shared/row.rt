// The words that stand for a work before the first step.
ghost use Rattle.std.specs.Prelude.{◌≡◌, ◌++◌, map, OnOk};
ghost use Rattle.std.specs.List.{range_with_len};
ghost use Rattle.ftl_cells.specs.shared.Work.{IsLawfulWork, item_total, pred_total};
ghost use Rattle.ftl_cells.specs.shared.State.{AreFirst, opening_words};

use crate::shared::work::Work;
use std::alloc::AllocError;

/// Makes the row of words at the opening from those of the cells, in the same vector.
pub fn open_row<W: Work>(work: &W, words: &mut Vec<u64>) -> Result<(), AllocError>
    requires first { AreFirst (W.meaning work.now) words.old.items }
    ensures row { OnOk result
        (words.new.items ≡ opening_words (W.meaning work.now) words.old.items) }
    ensures lawful { IsLawfulWork (W.meaning work.now) }
{
    let cells = words.len();
    let items = work.items() as usize;
    words.reserve(1 + 2 * items)?;
    words.insert(0, items as u64)?;
    words.resize(1 + cells + items, 0)?;
    push_counters(work, words)
}

fn push_counters<W: Work>(work: &W, row: &mut Vec<u64>) -> Result<(), AllocError>
    ensures counters { OnOk result
        (row.new.items
        ≡ row.old.items
        ++ map (pred_total (W.meaning work.now))
        (range_with_len 0 (item_total (W.meaning work.now)))) }
{
    for item in 0..work.items() {
        row.push(work.pred_count(item) as u64)?;
    }
    Ok(())
}
