// One ignore file.
ghost use Rattle.std.specs.Prelude.{◌≡◌, IfOk};
ghost use Rattle.ignore_rules.specs.Rules.{rules_of};

use crate::error::IgnoreErr;
use crate::rule::{Rule, read_rules};
use rel_path::{RelPath, Text};
use std::alloc::{AllocError, Global};
use std::marker::Model;

/// The rules of an ignore file, which contracts see as its folder and the list of its rules.
#[derive(Debug, Drop)]
pub struct Ignore {
    folder: Vec<Text>,
    rules: Vec<Rule>,
}

impl Model for Ignore {
    ghost use Rattle.std.specs.Prelude.{List, ℕ};
    ghost use Rattle.ignore_rules.specs.declared.rule.Rule.{Rule};

    ghost Value = { List (List ℕ) × List Rule };

    ghost view = { λ i. (i.folder.items, i.rules.items) };
}

fn copy_of(alloc: Global, names: &[Text]) -> Result<Vec<Text>, IgnoreErr>
    ensures { IfOk result (λ copy. copy.items ≡ names.now) }
{
    let mut copy = Vec::new(alloc);
    for name in names {
        copy.push(name.copy()?)?;
    }
    Ok(copy)
}

impl Ignore {
    /// The rules that the bytes of the ignore file in the folder write, as git reads a `.gitignore`.
    ///
    /// - A byte order mark in front is skipped. A line ends before a newline, and one carriage return at its end does
    ///   not count. From the front a `\` quotes the character behind it; spaces at the end that are not quoted do not
    ///   count. An empty line writes no rule, and neither does one that begins with `#`.
    /// - A leading `!` includes again. A trailing `/` is taken off, and the rule takes folders alone. With a `/` at
    ///   the front or in the middle that is left, the rule takes paths from the folder of the file on, and a `/` at the
    ///   front is dropped, unless it is quoted; without one it takes a name in that folder or at any depth below it.
    /// - `*` takes any run of characters of a name, `?` one, a class one of its members; `[!` and `[^` negate, a first
    ///   `]` is a member, `a-z` is a range by scalar value, empty where it is reversed; a `/` in a class takes nothing,
    ///   and counts as one in the middle. `[:alpha:]` has no meaning of its own, which differs from git.
    /// - A component `**` takes any number of components, at least one at the end of a pattern and
    ///   before a `/` that is quoted: `a/**/x` takes `a/x`, and `a/**\/x` does not, as in git. An
    ///   empty component, as in `a//b`, takes nothing.
    /// - A line that is not UTF-8, whose class does not end, or that is empty or ends in a `\` that quotes nothing
    ///   after all this, takes nothing.
    pub fn read(alloc: Global, folder: &RelPath, bytes: &[u8]) -> Result<Ignore, IgnoreErr>
        ensures { IfOk result (λ ignore. ignore ≡ (folder.now, rules_of bytes.now)) }
    {
        let folder = copy_of(alloc, folder.components())?;
        let rules = read_rules(alloc, bytes)?;
        Ok(Ignore { folder, rules })
    }

    /// The folder and the rules.
    pub(crate) fn into_parts(self) -> (Vec<Text>, Vec<Rule>)
        ensures { (result.0.items, result.1.items) ≡ self }
    {
        let Ignore { folder, rules } = self;
        (folder, rules)
    }
}
