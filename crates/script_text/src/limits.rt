//! The limits of a script.

/// The newest version of the grammar.
pub(crate) const VERSION_MOST: u32 = 2;

/// The most bytes of a line.
pub(crate) const LINE_BYTES_MOST: usize = 4096;

/// The least bytes of a line with a command, as `gc`.
pub(crate) const COMMAND_BYTES_LEAST: usize = 2;

/// The most bytes of a name.
pub(crate) const NAME_BYTES_MOST: usize = 32;

/// The most turns of a `repeat`.
pub(crate) const TURNS_MOST: u32 = 20_000_000;

/// The most `repeat`s that are open at once.
pub(crate) const OPEN_MOST: usize = 4;

/// The most names of variables.
pub(crate) const VARIABLE_NAMES_MOST: usize = 1024;

/// The most names of fields.
pub(crate) const FIELD_NAMES_MOST: usize = 4096;
