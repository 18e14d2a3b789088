// The scripts of tasks.
ghost use Rattle.std.specs.Prelude.{◌≡◌, ◌++◌, IfOk};
ghost use Rattle.std.specs.Option.{option_copied};
ghost use Rattle.workspaces.specs.Edges.{text_by};
ghost use Rattle.collect.specs.Parts.{scripts_of};
ghost use Rattle.collect.specs.Steps.{OnlyMemory, text_or_none};

use crate::CollectErr;
use rel_path::{Text, Texts};
use std::alloc::Global;

/// The first text that stands by the name.
fn text_by<'a>(pairs: &'a [(Text, Text)], name: &str) -> Option<&'a Text>
    ensures { option_copied result ≡ text_by name.now pairs.now }
{
    for pair in pairs {
        if pair.0.as_str() == name {
            return Some(&pair.1);
        }
    }
    None
}

fn joined(alloc: Global, front: &str, name: &Text) -> Result<Text, CollectErr>
    ensures value { IfOk result (λ text. text ≡ front.now ++ name.now) }
    ensures memory { OnlyMemory result }
{
    let mut text = String::new(alloc);
    text.push_str(front)?;
    text.push_str(name.as_str())?;
    Ok(Text::from_string(text))
}

/// The text, or the empty one.
fn text_or_none(alloc: Global, text: Option<&Text>) -> Result<Text, CollectErr>
    ensures value { IfOk result (λ copy. copy ≡ text_or_none (option_copied text.entry)) }
    ensures memory { OnlyMemory result }
{
    match text {
        None => Ok(Text::read(alloc, "")?),
        Some(text) => Ok(text.copy()?),
    }
}

/// The scripts of a task.
#[tactic(auto, unfolding(crate::specs::Parts::scripts_of))]
pub(crate) fn scripts_of(
    alloc: Global,
    scripts: &[(Text, Text)],
    task: &Text,
) -> Result<Texts, CollectErr>
    ensures value { IfOk result (λ texts. texts ≡ scripts_of scripts.now task.now) }
    ensures memory { OnlyMemory result }
{
    let mut texts = Texts::new(alloc);
    let own = match text_by(scripts, task.as_str()) {
        None => return Ok(texts),
        Some(own) => own.copy()?,
    };
    let pre = joined(alloc, "pre", task)?;
    let post = joined(alloc, "post", task)?;
    let before = text_by(scripts, pre.as_str());
    let after = text_by(scripts, post.as_str());
    if before.is_none() && after.is_none() {
        texts.push(own)?;
        return Ok(texts);
    }
    texts.push(text_or_none(alloc, before)?)?;
    texts.push(own)?;
    texts.push(text_or_none(alloc, after)?)?;
    Ok(texts)
}
