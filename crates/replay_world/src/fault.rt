//! Why a text isn't replayed.

use thiserror::Error;

/// Why a text isn't replayed.
#[derive(Clone, Copy, Debug, Error)]
pub enum ReplayFault {
    /// The first line that departs from the scripts, from 1.
    #[error("script line {0}")]
    Line(usize),
    /// There is no memory.
    #[error("out of memory")]
    Memory,
}
