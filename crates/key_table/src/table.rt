// A table of rows.
ghost use Rattle.std.specs.Prelude.{◌≡◌, ◌↔◌, IsTrue, IsNone, Some, map};
ghost use Rattle.std.specs.Option.{option_map};
ghost use Rattle.std.specs.List.{Contains};
ghost use Rattle.key_table.specs.Entry.{Entry, are_distinct, entry_named, names_of};

use crate::{AsEntry, Row};
use std::marker::Model;

/// Rows with distinct names, which contracts see as the list of their entries.
#[derive(Drop)]
pub struct KeyTable<const N: usize, R: AsEntry + Copy = Row> {
    rows: [R; N],
}

impl<const N: usize, R: AsEntry + Copy> Model for KeyTable<N, R> {
    ghost use Rattle.std.specs.Prelude.{List, IsTrue, map};
    ghost use Rattle.key_table.specs.Entry.{Entry, are_distinct};

    ghost Value = { List Entry };

    ghost view = { λ t. map R.entry t.rows };

    ghost invariant = { λ t. IsTrue (are_distinct (map R.entry t.rows)) };
}

impl<const N: usize, R: AsEntry + Copy> KeyTable<N, R> {
    /// The table of these rows. No two may have one name.
    pub fn new(rows: [R; N]) -> KeyTable<N, R>
        requires { IsTrue (are_distinct (map R.entry rows)) }
        ensures { result ≡ map R.entry rows }
    {
        KeyTable { rows }
    }

    /// The one row of that name.
    pub fn find(&self, name: &str) -> Option<R>
        ensures found { option_map R.entry result ≡ entry_named name.now self.now }
        ensures one { (e : Entry) → (option_map R.entry result ≡ Some e)
            ↔ (Contains self.now e × (e.name ≡ name.now)) }
        ensures none { IsNone result ↔ (¬ Contains (names_of self.now) name.now) }
    {
        first_named(&self.rows, name)
    }
}

// The first row of that name.
fn first_named<R: AsEntry + Copy>(rows: &[R], name: &str) -> Option<R>
    ensures { option_map R.entry result ≡ entry_named name.now (map R.entry rows.now) }
{
    for row in rows {
        if row.name() == name {
            return Some(*row);
        }
    }
    None
}
