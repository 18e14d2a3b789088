// Places that stand in some row.
ghost use Rattle.std.specs.Prelude.{◌≡◌, ◌<◌, ◌||◌, ℕ, false, IfOk, length};
ghost use Rattle.std.specs.List.{list_any, AllByRecursion};
ghost use Rattle.collect.specs.Steps.{OnlyMemory, marked, in_row};

use crate::CollectErr;
use rel_path::Places;
use std::alloc::Global;

fn no_marks(alloc: Global, count: usize) -> Result<Vec<bool>, CollectErr>
    ensures len { IfOk result (λ marks. length marks.items ≡ count) }
    ensures none { IfOk result (λ marks. (j : ℕ) → marked marks.items j ≡ false) }
    ensures memory { OnlyMemory result }
{
    let mut marks = Vec::new(alloc);
    while marks.len() < count {
        marks.push(false)?;
    }
    Ok(marks)
}

// Marks these places too.
fn mark_all(marks: &mut Vec<bool>, places: &[u32])
    requires { AllByRecursion (λ d. d < length marks.old.items) places.now }
    ensures len { length marks.new.items ≡ length marks.old.items }
    ensures marked { (j : ℕ) → marked marks.new.items j
        ≡ (in_row j places.now || marked marks.old.items j) }
{
    for place in places {
        marks[*place as usize] = true;
    }
}

/// Which of the places below `count` stand in some row.
pub(crate) fn marks_of(
    alloc: Global,
    count: usize,
    rows: &[Places],
) -> Result<Vec<bool>, CollectErr>
    requires { AllByRecursion (AllByRecursion (λ d. d < count)) rows.now }
    ensures len { IfOk result (λ marks. length marks.items ≡ count) }
    ensures marked { IfOk result (λ marks. (j : ℕ)
        → marked marks.items j ≡ list_any (in_row j) rows.now) }
    ensures memory { OnlyMemory result }
{
    let mut marks = no_marks(alloc, count)?;
    for row in rows {
        mark_all(&mut marks, row.as_slice());
    }
    Ok(marks)
}
