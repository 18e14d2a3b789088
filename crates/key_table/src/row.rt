// The rows of a table.
ghost use Rattle.std.specs.Prelude.{◌≡◌};
ghost use Rattle.key_table.specs.Entry.{Entry, entry_of};

/// What a name takes.
#[derive(Clone, Copy, Debug, PartialEq, Eq)]
pub enum Kind {
    /// Yes or no: `true` or `false` in a file, the bare name on a command line.
    Flag,
    /// One text.
    Word,
    /// Texts: an array in a file, a text at each use on a command line.
    Words,
    /// A whole number.
    Number,
    /// One of some words.
    Choice,
    /// What the reader of the table treats by itself.
    Top,
}

/// A name, with what it takes and the place that its value goes to. Names may share a place.
#[derive(Clone, Copy)]
pub struct Row {
    pub name: &'static str,
    pub kind: Kind,
    pub place: u8,
}

/// What a table holds: the rows, which contracts see as entries.
///
/// A table is generic in it for the sake of the proof alone; `Row` is the one such type.
pub trait AsEntry {
    ghost entry: { Self → Entry };

    fn name(&self) -> &str
        ensures { result.now ≡ (entry self.now).name };
}

impl AsEntry for Row {
    ghost entry = { entry_of };

    fn name(&self) -> &str {
        self.name
    }
}

/// The row of a key of a file: `key_row!("inputs", Words, 1)`.
#[macro_export]
macro_rules! key_row {
    ($name:literal, $kind:ident, $place:expr) => {
        $crate::Row {
            name: $name,
            kind: $crate::Kind::$kind,
            place: $place,
        }
    };
}

/// The row of an option of a command line, with the dashes that are written in front of it:
/// `option_row!("--filter", Words, 0)`.
#[macro_export]
macro_rules! option_row {
    ($word:literal, $kind:ident, $slot:expr) => {
        $crate::key_row!($word, $kind, $slot)
    };
}
