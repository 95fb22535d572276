//! Tests of hidden classes and of images: of the shapes of paths, and of the judges of a heap's words.
//!
//! Model: none, since nothing stands here but tests. Each is a table, with values that are written
//! out by hand, over the public calls of the crates below.
#![tactic(auto)]

#[cfg(test)]
mod exact_images;
#[cfg(test)]
mod first_flaws;
#[cfg(test)]
mod flaws_of_cells;
#[cfg(test)]
mod flaws_of_frames;
#[cfg(test)]
mod flaws_of_owners;
#[cfg(test)]
mod flaws_of_plain_cells;
#[cfg(test)]
mod forged_heaps;
#[cfg(test)]
mod images;
#[cfg(test)]
mod old_cells;
#[cfg(test)]
mod path_shapes;
#[cfg(test)]
mod shown_graphs;
#[cfg(test)]
mod shown_protos;
#[cfg(test)]
mod whole_heaps;
#[cfg(test)]
mod worked;
#[cfg(test)]
mod worked_ends;
