// Two stores.

/// Which of two stores.
#[derive(Clone, Copy, Debug, PartialEq, Eq)]
pub enum Side {
    First,
    Spare,
}
