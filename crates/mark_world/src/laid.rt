//! A header with the layout of its shape.

use tagged_word::{Header, LayoutWord};

/// A header, and the layout of its shape that is in place.
#[derive(Clone, Copy)]
pub struct Laid {
    pub header: Header,
    pub layout: LayoutWord,
}
