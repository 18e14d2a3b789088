// A path below the root folder.
ghost use Rattle.std.specs.Prelude.{◌≡◌, ◌≢◌, ◌↔◌, ◌++◌, ◌∷◌, [], ℕ, List, IsTrue, IfOk, IfErr, Some, None, Option, nat_eq};
ghost use Rattle.std.specs.List.{join_with_byte, list_any};
ghost use Rattle.std.specs.Cmp.{partial_equiv_from_equiv};
ghost use Rattle.std.specs.Cmp.Lexicographic.{slice_cmp, slice_partial_cmp, pointwise, nat_list_cmp_total, nat_list_eq_equiv, lists_total, lists_equiv, lists_ties, lists_po, lists_agrees, texts_ties, texts_po};
ghost use Rattle.std.specs.Ordering.{nat_cmp};
ghost use Rattle.std.specs.Prelude.{refl};
ghost use Rattle.rel_path.specs.Paths.{is_slash, is_component, part_fault, name_fault, text_fault, parts_of, MayRefuse, AreNames, IsBelow};

use crate::{PathErr, Text};
use std::alloc::{AllocError, Global};
use std::cmp::Ordering;
use std::marker::Model;

/// A path below the root folder, which contracts see as the list of its components; the root is the
/// empty list. No component is empty, `.` or `..`, or holds a `/`. Paths are ordered as lists of
/// components, each by its bytes, which is not the order of the joined texts.
#[derive(Clone, Debug, Drop)]
pub struct RelPath {
    parts: Vec<Text>,
}

impl Model for RelPath {
    ghost use Rattle.std.specs.Prelude.{List, ℕ};

    ghost Value = { List (List ℕ) };

    ghost use Rattle.rel_path.specs.Paths.{AreNames};

    ghost view = { λ p. p.parts.items };

    ghost invariant = { λ p. AreNames p.parts.items };
}

fn part_fault(part: &str) -> Option<PathErr>
    ensures { result ≡ part_fault part.now }
{
    if part == "." || part == ".." {
        Some(PathErr::DotPart)
    } else if part.is_empty() {
        Some(PathErr::Slash)
    } else {
        None
    }
}

fn name_fault(name: &str) -> Option<PathErr>
    ensures { result ≡ name_fault name.now }
{
    if name.is_empty() {
        return Some(PathErr::Empty);
    }
    if name == "." || name == ".." {
        return Some(PathErr::DotPart);
    }
    if has_slash(name) {
        return Some(PathErr::Slash);
    }
    None
}

fn has_slash(name: &str) -> bool
    ensures { result ≡ list_any is_slash name.now }
{
    name.as_bytes().iter().any(|b| *b == b'/')
}

/// Whether a path may have this name as a component: it is not empty, not `.` or `..`, and holds no `/`.
pub fn is_component(name: &str) -> bool
    ensures { result ≡ is_component name.now }
{
    name_fault(name).is_none()
}

fn with_last(parts: &Vec<Text>, name: &Text) -> Result<Vec<Text>, AllocError>
    ensures value { IfOk result (λ all. all.items ≡ parts.now.items ++ name.now ∷ []) }
{
    let mut all = parts.clone()?;
    all.push(name.copy()?)?;
    Ok(all)
}

impl RelPath {
    /// The root folder. It keeps the allocator and takes no memory.
    pub fn root(alloc: Global) -> RelPath
        ensures { result ≡ [] }
    {
        RelPath {
            parts: Vec::new(alloc),
        }
    }

    /// The components, from the root down.
    pub fn components(&self) -> &[Text]
        ensures value { result.now ≡ self.now }
        ensures names { AreNames self.now }
    {
        self.parts.as_slice()
    }

    /// The path that the text writes: its parts between slashes. `Empty` for an empty text, else the
    /// fault of the first part that is no component.
    pub fn read(alloc: Global, text: &str) -> Result<RelPath, PathErr>
        ensures ok { IfOk result
            (λ path. (text_fault text.now ≡ None) × (path ≡ parts_of text.now)) }
        ensures back { IfOk result (λ path. join_with_byte 47 path ≡ text.now) }
        ensures err { IfErr result (MayRefuse (text_fault text.now)) }
    {
        if text.is_empty() {
            return Err(PathErr::Empty);
        }
        let mut parts = Vec::new(alloc);
        for part in text.split('/') {
            if let Some(fault) = part_fault(part) {
                return Err(fault);
            }
            let name = Text::read(alloc, part)?;
            parts.push(name)?;
        }
        Ok(RelPath { parts })
    }

    /// The components with a slash between each two. Every path but the root reads back.
    pub fn text(&self, alloc: Global) -> Result<Text, AllocError>
        ensures value { IfOk result (λ text. text ≡ join_with_byte 47 self.now) }
        ensures back { IfOk result
            (λ text. self.now ≢ [] → (text_fault text ≡ None) × (parts_of text ≡ self.now)) }
    {
        let mut inner = String::new(alloc);
        let path = self.components();
        for (i, part) in path.iter().enumerate() {
            if i > 0 {
                inner.push('/')?;
            }
            inner.push_str(part.as_str())?;
        }
        Ok(Text::from_string(inner))
    }

    /// The path with one more component: `Empty`, `DotPart` or `Slash` where the name is none.
    pub fn join(&self, alloc: Global, name: &str) -> Result<RelPath, PathErr>
        ensures ok { IfOk result
            (λ path. (name_fault name.now ≡ None) × (path ≡ self.now ++ name.now ∷ [])) }
        ensures err { IfErr result (MayRefuse (name_fault name.now)) }
    {
        if let Some(fault) = name_fault(name) {
            return Err(fault);
        }
        let name = Text::read(alloc, name)?;
        let child = self.child(&name)?;
        Ok(child)
    }

    /// The path with one more component, which is known to be one.
    pub fn child(&self, name: &Text) -> Result<RelPath, AllocError>
        requires { IsTrue (is_component name.now) }
        ensures value { IfOk result (λ path. path ≡ self.now ++ name.now ∷ []) }
    {
        let parts = with_last(&self.parts, name)?;
        Ok(RelPath { parts })
    }

    /// Whether this is a proper extension of the folder. Every path but the root lies below the root.
    pub fn below(&self, folder: &RelPath) -> bool
        ensures { IsTrue result ↔ IsBelow self.now folder.now }
    {
        let path = self.components();
        let folder = folder.components();
        path.len() > folder.len() && path.starts_with(folder)
    }

    pub fn copy(&self) -> Result<RelPath, AllocError>
        ensures value { IfOk result (λ copy. copy ≡ self.now) }
    {
        Ok(self.clone()?)
    }
}

impl PartialEq for RelPath {
    ghost eq = { pointwise (pointwise nat_eq) };

    ghost laws = { partial_equiv_from_equiv (lists_equiv nat_list_eq_equiv) };

    fn eq(&self, other: &Self) -> bool {
        self.parts == other.parts
    }
}

impl Eq for RelPath {
    ghost laws = { lists_equiv nat_list_eq_equiv };
}

impl PartialOrd for RelPath {
    ghost partial_cmp = { slice_partial_cmp (λ x y. Some (slice_cmp nat_cmp x y)) };

    ghost laws = { lists_po texts_po };

    fn partial_cmp(&self, other: &Self) -> Option<Ordering> {
        self.parts.partial_cmp(&other.parts)
    }
}

impl Ord for RelPath {
    ghost cmp = { slice_cmp (slice_cmp nat_cmp) };

    ghost total = { lists_total nat_list_cmp_total };

    ghost matches_partial_cmp = { lists_agrees (λ x y. refl) };

    ghost matches_eq = { lists_ties (slice_cmp nat_cmp) texts_ties };

    fn cmp(&self, other: &Self) -> Ordering {
        self.parts.cmp(&other.parts)
    }
}
