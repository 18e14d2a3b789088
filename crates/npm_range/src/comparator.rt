// Operators, and numbers that may be left open.

/// How the versions that are asked for stand to the one that is written.
#[derive(Clone, Copy, Debug, PartialEq, Eq)]
pub enum Operator {
    /// `=`, or nothing.
    Equal,
    /// `~`.
    Tilde,
    /// `^`.
    Caret,
    /// `>`.
    Above,
    /// `>=`.
    AtLeast,
    /// `<`.
    Below,
    /// `<=`.
    AtMost,
}

/// The numbers of a version, as many as are written before one that is left open.
#[derive(Clone, Copy, Debug, PartialEq, Eq)]
pub enum Numbers {
    Any,
    Major(u64),
    Minor(u64, u64),
    Full(u64, u64, u64),
}
