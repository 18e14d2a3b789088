// The first turn of a run.
ghost use Rattle.std.specs.Prelude.{◌≡◌, false, IfOk, IfErr};
ghost use Rattle.rel_path.specs.Causes.{Counts};
ghost use Rattle.record_log.specs.Frames.{reading};
ghost use Rattle.artifact_store.specs.Answers.{IsFaultOf, is_fault};
ghost use Rattle.shared_runs.specs.Errors.{to_open};
ghost use Rattle.shared_runs.specs.First.{IsFirstTurn, TellsFile};
ghost use Rattle.shared_runs.specs.Frames.{HoldsOneOrMore};
ghost use Rattle.shared_runs.specs.Turns.{GoesOn};

use crate::passing::{close, end_turn};
use crate::{Shared, TurnErr};
use artifact_store::{OpenErr, Store, StoreMark};
use record_log::Unopened;
use std::alloc::Global;
use store_dev::StoreDevice;

/// What is known of a file as its first turn ended: its frames, how many pairs they hold, and how
/// many bytes more they may take.
pub(crate) struct FirstTurn {
    pub mark: StoreMark,
    pub pairs: u64,
    pub room: u64,
}

/// Takes the turn, opens the file as a store and gives the turn back.
pub(crate) fn first_turn<H: Shared>(alloc: Global, shared: &mut H) -> Result<FirstTurn, OpenErr>
    requires { (H.turn shared.old).held ≡ false }
    ensures held { (H.turn shared.new).held ≡ false }
    ensures turn { H.Device.tells → IfOk result (λ turn. IsFirstTurn (H.content shared.old)
        (H.coming shared.old) (H.content shared.new)
        × TellsFile turn.mark turn.pairs turn.room (H.content shared.new) (H.images shared.new)) }
    ensures fault { H.Device.tells
        → IfErr result (λ e. IsFaultOf e (reading (H.content shared.old))) }
    ensures time { H.Device.tells → GoesOn H.moment H.images_since shared.old shared.new
        (HoldsOneOrMore (H.images shared.old) (H.content shared.old) (H.coming shared.old)) }
    ensures cause { Counts is_fault (H.store_faults shared.old) (H.store_faults shared.new) result }
{
    let device = match shared.take(alloc) {
        Ok(device) => device,
        Err(fault) => return Err(unopened(fault)),
    };
    match Store::open(alloc, device) {
        Ok(store) => {
            let pairs = store.count();
            let room = store.free();
            match close(shared, store) {
                Ok(mark) => Ok(FirstTurn { mark, pairs, room }),
                Err(_) => Err(OpenErr::Failed),
            }
        }
        Err(Unopened { fault, store }) => match end_turn(shared, store) {
            Ok(()) => Err(fault),
            Err(_) => Err(OpenErr::Failed),
        },
    }
}

/// Why a turn was not taken, as an opening says it.
fn unopened(fault: TurnErr) -> OpenErr
    ensures { result ≡ to_open fault }
{
    match fault {
        TurnErr::Failed => OpenErr::Failed,
        TurnErr::OutOfMemory => OpenErr::OutOfMemory,
    }
}
