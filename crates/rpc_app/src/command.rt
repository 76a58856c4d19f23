//! The commands that are carried out.

/// What is done with a file.
#[derive(Clone, Copy, Debug, PartialEq, Eq)]
pub enum Command {
    /// Replay a script.
    Replay,
    /// Print an interface text in its canonical form.
    Idl,
    /// Judge journals.
    Audit,
}
