// The laws of stories and of runs that stop, as functions that do nothing.
ghost use Rattle.run_plan.specs.StoryLaws.{StoryLaw};
ghost use Rattle.run_plan.specs.Halts.{HaltLaw};

/// What each move of a run does to its story, and what it leaves at the end.
pub fn story_law()
    ensures { StoryLaw }
{
    run_laws::run_law();
    run_laws::keys_law();
    run_laws::found_law();
    run_laws::hit_law();
    run_laws::effect_law();
    run_laws::artifact_law();
    run_laws::closure_is_valid();
    run_core::run_law();
    run_core::next_law();
}

/// What is kept of a run that stops, and which pairs it may leave at each moment.
pub fn halt_law()
    ensures { HaltLaw }
{
    run_laws::run_law();
    run_laws::keys_law();
    run_laws::found_law();
    run_laws::hit_law();
    run_laws::effect_law();
    run_laws::artifact_law();
    run_laws::closure_is_valid();
    run_laws::due_law();
    run_laws::shows_law();
    run_core::run_law();
    run_core::next_law();
}
