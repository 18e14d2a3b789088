// What a word of `--filter` says.
ghost use Rattle.std.specs.Prelude.{◌≡◌, Some, IfOk, IfErr};
ghost use Rattle.filters.specs.Words.{has_dots, has_caret, leaves_core, filter_of};
ghost use Rattle.filters.specs.Steps.{MayRefuseWord};

use crate::FilterErr;
use crate::words::{core_of, split_back, split_front, split_mark};
use globs::Glob;
use rel_path::Text;
use std::alloc::Global;

/// What stands at an end of a filter.
#[derive(Clone, Copy, Debug, PartialEq, Eq)]
pub enum End {
    Bare,
    /// `...`
    Dots,
    /// `...^` in front of the core, or `^...` behind it.
    Caret,
}

/// What the middle of a filter names.
#[derive(Debug, Drop)]
pub enum Core {
    /// The packages whose folders the glob matches: `./dir` or `{./dir}`.
    Folder(Glob),
    /// The package of exactly this name.
    Name(Text),
    /// The packages with a name that the pattern matches, in which `*` takes any run of characters.
    Pattern(Text),
}

/// A filter: a core with its ends. It takes packages away where a `!` stands in front of it.
#[derive(Debug, Drop)]
pub struct Filter {
    pub excludes: bool,
    pub front: End,
    pub core: Core,
    pub back: End,
}

impl End {
    pub(crate) fn has_dots(self) -> bool
        ensures { result ≡ has_dots self }
    {
        !matches!(self, End::Bare)
    }

    fn has_caret(self) -> bool
        ensures { result ≡ has_caret self }
    {
        matches!(self, End::Caret)
    }
}

impl Filter {
    /// The filter that the word writes. `Unreadable` comes exactly where it writes none: where the core is empty, a
    /// name has a `[`, or the glob of a folder is none.
    #[tactic(auto, unfolding(crate::specs::Words::filter_of))]
    pub fn read(alloc: Global, word: &Text) -> Result<Filter, FilterErr>
        ensures value { IfOk result (λ filter. filter_of word.now ≡ Some filter) }
        ensures err { IfErr result (MayRefuseWord word.now) }
    {
        let (excludes, text) = split_mark(word.as_str());
        let (front, text) = split_front(text);
        let (back, text) = split_back(text);
        match core_of(alloc, text)? {
            Some(core) => Ok(Filter {
                excludes,
                front,
                core,
                back,
            }),
            None => Err(FilterErr::Unreadable { word: word.copy()? }),
        }
    }

    /// Whether a `^` stands at one of the ends.
    pub(crate) fn leaves_core(&self) -> bool
        ensures { result ≡ leaves_core self.now }
    {
        self.front.has_caret() || self.back.has_caret()
    }
}
