// The ignore files of a tree.
ghost use Rattle.std.specs.Prelude.{◌≡◌, ◌↔◌, ◌++◌, [], IsTrue, ℕ, List, OnOk, IfOk, if◌then◌else◌};
ghost use Rattle.rel_path.specs.Paths.{Path, path_eq};
ghost use Rattle.ignore_rules.specs.Ignored.{takes, reached, says, leaves_out, is_ignored, Ignored};
ghost use Rattle.ignore_rules.specs.Stacks.{rules_in, rules_at};
ghost use Rattle.ignore_rules.specs.Entries.{entries_at};

use crate::error::IgnoreErr;
use crate::ignore::Ignore;
use crate::rule::Rule;
use glob_syntax::spells_path;
use rel_path::{RelPath, Text};
use std::alloc::Global;
use std::collections::BTreeMap;
use std::marker::Model;

type Files = BTreeMap<Vec<Text>, Vec<Rule>>;

/// The ignore files of a tree, which contracts see as folders with the rules of their files. They are found by their
/// folders, so that files beside the way to a path cost nothing.
#[derive(Debug, Drop)]
pub struct Stack {
    files: Files,
}

impl Model for Stack {
    ghost use Rattle.std.specs.Prelude.{List, ℕ};
    ghost use Rattle.ignore_rules.specs.declared.rule.Rule.{Rule};

    ghost Value = { List (List (List ℕ) × List Rule) };

    ghost use Rattle.ignore_rules.specs.Entries.{entries_of};

    ghost view = { λ s. entries_of s.files };
}

/// The rules of both, one after another.
fn joined(before: Vec<Rule>, more: Vec<Rule>) -> Result<Vec<Rule>, IgnoreErr>
    ensures { IfOk result (λ all. all.items ≡ before.items ++ more.items) }
{
    let mut all = before;
    for rule in more {
        all.push(rule)?;
    }
    Ok(all)
}

/// Adds the file behind those of its folder.
fn add(files: &mut Files, file: Ignore) -> Result<(), IgnoreErr>
    ensures { OnOk result ((folder : Path)
        → entries_at files.new folder
        ≡ entries_at files.old folder ++ (if path_eq folder file.0 then file.1 else [])) }
{
    let (folder, rules) = file.into_parts();
    let all = match files.remove(folder.as_slice()) {
        Some(before) => joined(before, rules)?,
        None => rules,
    };
    files.insert(folder, all)?;
    Ok(())
}

/// Whether the rule takes the path, a folder or none, by what is left of it below the folder of the rule's file.
fn takes(rule: &Rule, is_folder: bool, below: &[Text]) -> bool
    ensures { result ≡ takes is_folder below.now rule.now }
{
    if rule.folders_only && !is_folder {
        return false;
    }
    spells_path(rule.parts.as_slice(), reached(rule.anchored, below))
}

/// What a pattern has to take: the whole path, or the name at its end.
fn reached(anchored: bool, below: &[Text]) -> &[Text]
    ensures { result.now ≡ reached anchored below.now }
{
    match below {
        [.., _] if !anchored => &below[below.len() - 1..],
        _ => below,
    }
}

/// What the last of the rules says that takes the path: whether it is left out.
fn says(rules: &[Rule], is_folder: bool, below: &[Text]) -> Option<bool>
    ensures { result ≡ says is_folder below.now rules.now }
{
    let mut left = rules;
    while let Some((rule, before)) = left.split_last() {
        if takes(rule, is_folder, below) {
            return Some(!rule.again);
        }
        left = before;
    }
    None
}

impl Stack {
    /// The files, in any order. The rules of files of one folder stand one after another, as the files do.
    pub fn new(alloc: Global, files: Vec<Ignore>) -> Result<Stack, IgnoreErr>
        ensures { IfOk result (λ stack. (folder : Path)
            → rules_in stack folder ≡ rules_at files.items folder) }
    {
        let mut all = BTreeMap::new(alloc);
        for file in files {
            add(&mut all, file)?;
        }
        Ok(Stack { files: all })
    }

    fn says_in(&self, folder: &[Text], is_folder: bool, below: &[Text]) -> Option<bool>
        ensures { result ≡ says is_folder below.now (rules_in self.now folder.now) }
    {
        match self.files.get(folder) {
            Some(rules) => says(rules, is_folder, below),
            None => None,
        }
    }

    /// Whether the last rule of the files above the path that takes it leaves it out.
    fn leaves_out(&self, is_folder: bool, path: &[Text]) -> bool
        ensures { result ≡ leaves_out (rules_in self.now) is_folder path.now }
    {
        let mut depth = path.len();
        while depth > 0 {
            depth -= 1;
            if let Some(out) = self.says_in(&path[..depth], is_folder, &path[depth..]) {
                return out;
            }
        }
        false
    }

    /// Whether the file at the path is ignored: of the folders on the way to it and of itself, one is left out by the
    /// last rule that takes it among those of the files above it. What lies below a folder that is left out is ignored,
    /// whatever rules say of it.
    pub fn ignored(&self, path: &RelPath) -> bool
        ensures value { result ≡ is_ignored (rules_in self.now) path.now }
        ensures meaning { IsTrue result ↔ Ignored (rules_in self.now) path.now }
    {
        self.ignores(path.components())
    }

    fn ignores(&self, path: &[Text]) -> bool
        ensures { result ≡ is_ignored (rules_in self.now) path.now }
    {
        let mut end = 0;
        while end < path.len() {
            end += 1;
            if self.leaves_out(end < path.len(), &path[..end]) {
                return true;
            }
        }
        false
    }
}
