// What holds of definitions whatever the files say. Who calls a function of these knows its law.
ghost use Rattle.task_definitions.specs.Laws.{DefinitionLaw};

/// Only a name that a task may have has a definition: it is not empty, holds no `#`, no `$` and no character below
/// U+0020, and does not begin with a `^`.
pub fn definition_law()
    ensures { DefinitionLaw }
{}
