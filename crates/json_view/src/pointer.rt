// Pointers into a JSON value (RFC 6901).
ghost use Rattle.std.specs.Prelude.{◌≡◌, IfOk, IsOkUnless};
ghost use Rattle.json_view.specs.Pointer.{pointer_to as longer_by, ReachesMember};

use crate::JsonErr;
use rel_path::Text;
use std::alloc::Global;

// What begins each step of a pointer.
const SLASH: char = '/';

// What begins the two escapes of a name.
const TILDE: char = '~';

const ESCAPED_SLASH: &str = "~1";

const ESCAPED_TILDE: &str = "~0";

/// The pointer with one more step, to the member of that name: `/`, and the name with `~0` for `~`
/// and `~1` for `/`. Any name can be reached. At an array such a step is the item of that number.
pub fn pointer_to(alloc: Global, pointer: &str, name: &str) -> Result<Text, JsonErr>
    ensures text { IfOk result (λ longer. longer ≡ longer_by pointer.now name.now) }
    ensures reaches { IfOk result (ReachesMember pointer.now name.now) }
    ensures memory { IsOkUnless result JsonErr.OutOfMemory }
{
    let mut longer = String::from_str(alloc, pointer)?;
    longer.push(SLASH)?;
    for c in name.chars() {
        match c {
            TILDE => longer.push_str(ESCAPED_TILDE)?,
            SLASH => longer.push_str(ESCAPED_SLASH)?,
            _ => longer.push(c)?,
        }
    }
    Ok(Text::from_string(longer))
}
