// Characters that mean something in the text of a range (node-semver's documentation, "Range Grammar").

pub(crate) const TAB: char = '\t';

pub(crate) const SPACE: char = ' ';

pub(crate) const PLUS: char = '+';

pub(crate) const HYPHEN: char = '-';

pub(crate) const DOT: char = '.';

pub(crate) const LESS: char = '<';

pub(crate) const EQUALS: char = '=';

pub(crate) const GREATER: char = '>';

pub(crate) const CARET: char = '^';

pub(crate) const BAR: char = '|';

pub(crate) const TILDE: char = '~';

// May stand in front of a version.
pub(crate) const VERSION_MARK: char = 'v';

// The three bytes that stand for any number.
pub(crate) const SMALL_X: u8 = b'x';

pub(crate) const LARGE_X: u8 = b'X';

pub(crate) const ASTERISK: u8 = b'*';
