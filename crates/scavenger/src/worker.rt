//! What one worker of a scavenge has done, and what it has to do.

use crate::progress::Progress;

/// A worker of a scavenge. It lends its parts to no one else, so several could copy at a time.
#[derive(Drop)]
pub(crate) struct Worker {
    /// How far it has come.
    pub(crate) progress: Progress,
    /// The copies whose slots are to be followed, with a place for each word of the young generation.
    pub(crate) list: Vec<u32>,
}
