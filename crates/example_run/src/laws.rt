// Laws of the example. Each is the contract of a function that does nothing: who calls it, knows
// the law.
ghost use Rattle.std.specs.Prelude.{◌≡◌};
ghost use Rattle.run_core.specs.declared.states.Mode.TheVariants.{Never};
ghost use Rattle.spawn_dev.specs.Books.{effect_of};
ghost use Rattle.run_laws.specs.Clean.{clean};
ghost use Rattle.run_laws.specs.Runs.{IsReady};
ghost use Rattle.example_run.specs.Example.{listing, rules, setting, outcomes};

/// All that the law of runs asks for holds of the example together.
pub fn premises_hold()
    ensures { IsReady setting }
{}

/// The example is no empty run: each command writes a file, and that of `web` holds what `ui`
/// wrote.
pub fn example_copies()
    ensures { clean Never (effect_of rules) listing ≡ outcomes }
{}
