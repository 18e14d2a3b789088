// Marks on packages, by their places.
ghost use Rattle.std.specs.Prelude.{◌≡◌, ℕ, length, if◌then◌else◌};
ghost use Rattle.workspaces.specs.Marks.{is_marked};
ghost use Rattle.workspaces.specs.Reach.{is_in, AreBelow};

/// Gives the places this mark.
pub(crate) fn mark(marks: &mut [bool], places: &[u32], value: bool)
    requires { AreBelow (length marks.old) places.now }
    ensures same { length marks.new ≡ length marks.old }
    ensures marks { (p : ℕ) → is_marked marks.new p
        ≡ (if is_in places.now p then value else is_marked marks.old p) }
{
    for place in places {
        marks[*place as usize] = value;
    }
}
