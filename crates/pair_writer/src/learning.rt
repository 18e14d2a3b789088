// Contents that were appended, and the pool of the log.
ghost use Rattle.std.specs.Prelude.{◌≤◌, ◌<◌, ◌+◌, ◌^◌, ◌∷◌, [], length, IsOk};
ghost use Rattle.blob_pool.specs.Contents.{contents_of};
ghost use Rattle.blob_pool.specs.Known.{room_in};
ghost use Rattle.pair_writer.specs.Held.{staged_entry};
ghost use Rattle.pair_writer.specs.Learning.{GoesOn};
ghost use Rattle.pair_writer.specs.Staged.{entries, staged_count};

use crate::{Staged, StagedFrame};
use blob_pool::Pool;
use std::alloc::AllocError;

/// Takes the contents of staged frames into the pool of the frames behind which they were appended. There is room for
/// them, so it does not fail.
pub fn learn_all(pool: &mut Pool, first: u64, staged: &Staged) -> Result<(), AllocError>
    requires room { staged_count staged.now ≤ room_in pool.old }
    requires few { first + length (entries staged.now) < 2 ^ 64 }
    ensures ok { IsOk result }
    ensures pool { GoesOn first (entries staged.now) pool.old pool.new }
{
    let frames = staged.as_slice();
    let mut number = first;
    for frame in frames {
        learn(pool, number, frame)?;
        number += 1;
    }
    Ok(())
}

/// Takes a frame with that number into the pool, if it is a content.
fn learn(pool: &mut Pool, number: u64, frame: &StagedFrame) -> Result<(), AllocError>
    requires { length (contents_of (staged_entry frame.now ∷ [])) ≤ room_in pool.old }
    ensures ok { IsOk result }
    ensures pool { GoesOn number (staged_entry frame.now ∷ []) pool.old pool.new }
    ensures room { room_in pool.old
        ≤ room_in pool.new + length (contents_of (staged_entry frame.now ∷ [])) }
{
    match frame {
        StagedFrame::Content { digest, .. } => pool.learn(number, *digest),
        StagedFrame::Record { .. } => Ok(()),
    }
}
