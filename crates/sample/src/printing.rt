// The sample as it is printed.
ghost use Rattle.std.specs.Prelude.{IfOk, IfErr, OnOk, IsOkUnless, string_bytes};
ghost use Rattle.page.specs.Answers.{HasCause};
ghost use Rattle.sample_repository.specs.Repository.{IsSize};
ghost use Rattle.sample.specs.Lines.{
  FourRuns,
  IsSampleText,
  PutsSample,
  CutsSample,
};
ghost use Rattle.sample.specs.Stages.{state_in};

use crate::stage::Stage;
use page::{PageErr, emit};
use std::alloc::Global;
use tree_dev::Sink;

/// Makes the four runs.
fn four_runs(alloc: Global, n: u32) -> Result<Stage, PageErr>
    requires { IsSize n }
    ensures runs { IfOk result (λ stage. FourRuns n (state_in stage)) }
    ensures memory { IsOkUnless result PageErr.OutOfMemory }
{
    let built = Stage::new(alloc, n)?.run(alloc, 1)?;
    let rebuilt = built.run(alloc, 2)?;
    let last_changed = rebuilt.change(alloc, n - 1, b'!')?.run(alloc, 3)?;
    let all_changed = last_changed.change(alloc, 0, b'?')?.run(alloc, 4)?;
    Ok(all_changed)
}

/// The text of a sample of n packages.
fn sample_text(alloc: Global, n: u32) -> Result<String, PageErr>
    requires { IsSize n }
    ensures text { IfOk result (λ text. IsSampleText n (string_bytes text)) }
    ensures memory { IsOkUnless result PageErr.OutOfMemory }
{
    let stage = four_runs(alloc, n)?;
    Ok(stage.text(alloc)?)
}

/// Makes four runs of `run build --concurrency=4` over the same stores and a made repository of n
/// packages, 1 to 400, and prints how many commands each started: the first over empty stores;
/// the second over what the first left; the third after a change of the last package; the fourth
/// after one of the first package, which all others need. Behind them come the digits of all that
/// the runs printed. Nothing is printed before the last run has ended.
pub fn sample<K: Sink>(alloc: Global, n: u32, out: &mut K) -> Result<(), PageErr>
    requires { IsSize n }
    ensures lines { K.tells → OnOk result (PutsSample n (K.written out.old) (K.written out.new)) }
    ensures cut { K.tells → IfErr result (CutsSample n (K.written out.old) (K.written out.new)) }
    ensures cause { HasCause (K.faults out.old) (K.faults out.new) result }
{
    let text = sample_text(alloc, n)?;
    emit(alloc, out, text.as_bytes())
}
