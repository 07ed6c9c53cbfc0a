//! A command as a caller gives it.

/// A command, of three words; Specification: Table of commands. By the code a field is a handle (the first is 1), any
/// word, a bit position (0 to 31), or unused and 0; `commands` says which.
#[derive(Clone, Copy, Debug, PartialEq, Eq)]
pub struct Command {
    /// Which command: 1 to 12, in the order of `commands`. Any other word is refused with 5.
    pub code: u32,
    /// The first field.
    pub a: u32,
    /// The second field.
    pub b: u32,
}
