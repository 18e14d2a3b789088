// Bytes that mean something in a JSON text or in a comment (RFC 8259; jsonc.org).

pub(crate) const TAB: u8 = b'\t';

pub(crate) const LINE_FEED: u8 = b'\n';

pub(crate) const CARRIAGE_RETURN: u8 = b'\r';

pub(crate) const SPACE: u8 = b' ';

pub(crate) const QUOTE: u8 = b'"';

pub(crate) const ASTERISK: u8 = b'*';

pub(crate) const COMMA: u8 = b',';

pub(crate) const SLASH: u8 = b'/';

pub(crate) const BACKSLASH: u8 = b'\\';

pub(crate) const CLOSING_BRACKET: u8 = b']';

pub(crate) const CLOSING_BRACE: u8 = b'}';

// What is read behind the last byte.
pub(crate) const NO_BYTE: u8 = 0;
