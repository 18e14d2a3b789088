// Edges, turned round.
ghost use Rattle.std.specs.Prelude.{◌≡◌, ◌<◌, ◌^◌, length, IfOk, OnOk};
ghost use Rattle.std.specs.List.{AllByRecursion};
ghost use Rattle.std.specs.List.Sorted.{IsStrictlySortedBy};
ghost use Rattle.std.specs.Ordering.{nat_cmp};
ghost use Rattle.workspaces.specs.Reach.{AreBelow, AreRowsBelow};
ghost use Rattle.workspaces.specs.Turned.{Pushed, Turned, are_empty};

use rel_path::Places;
use std::alloc::{AllocError, Global};

/// Puts the user behind those that use each of these places.
fn add_user(users: &mut Vec<Places>, used: &[u32], user: u32) -> Result<(), AllocError>
    requires below { AreBelow (length users.old.items) used.now }
    requires ascend { IsStrictlySortedBy nat_cmp used.now }
    ensures pushed { OnOk result (Pushed used.now user users.old.items users.new.items) }
    ensures same { OnOk result (length users.new.items ≡ length users.old.items) }
{
    for place in used {
        let at = *place as usize;
        users[at].push(user)?;
    }
    Ok(())
}

/// So many empty rows.
fn empty_rows(alloc: Global, count: usize) -> Result<Vec<Places>, AllocError>
    ensures empty { IfOk result (λ rows. are_empty rows.items) }
    ensures count { IfOk result (λ rows. length rows.items ≡ count) }
{
    let mut rows = Vec::new(alloc);
    for _row in 0..count {
        rows.push(Places::new(alloc))?;
    }
    Ok(rows)
}

/// For each place those that have an edge to it, ascending. `edges` has a row for each place.
pub fn users_of(alloc: Global, edges: &[Places]) -> Result<Vec<Places>, AllocError>
    requires few { length edges.now < 2 ^ 32 }
    requires rows { AreRowsBelow (length edges.now) edges.now }
    requires ascend { AllByRecursion (IsStrictlySortedBy nat_cmp) edges.now }
    ensures same { IfOk result (λ users. length users.items ≡ length edges.now) }
    ensures turned { IfOk result (λ users. Turned edges.now users.items) }
{
    let mut users = empty_rows(alloc, edges.len())?;
    for (user, used) in edges.iter().enumerate() {
        add_user(&mut users, used.as_slice(), user as u32)?;
    }
    Ok(users)
}
