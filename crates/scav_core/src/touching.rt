//! The word that an event of a worker touches, and what it leaves there, by the worker's view.
ghost use Rattle.std.specs.Prelude.{◌≡◌, ◌+◌, length};
ghost use Rattle.core_parts.specs.Boards.{given_word};
ghost use Rattle.scav_core.specs.Views.{touched, touched_by, slot_after, word_after};
ghost use Rattle.scav_core.specs.Views.{home_at, home_made};

use crate::event::Event;
use crate::step::Touch;
use crate::view::{header_after, is_as_read};
use crate::workers::{Job, WorkerView};
use scav_copy::Home;
use tagged_word::Word;

/// The word that an event of a worker touches.
pub(crate) fn touched(view: &WorkerView, event: Event) -> Touch
    ensures { result ≡ touched view.now event }
{
    match event {
        Event::LoadSlot { slot, .. } => Touch::Word { at: slot as u64 },
        Event::LoadHeader { .. } => touched_cell(&view.job),
        Event::LoadBody { .. } => touched_body(&view.job),
        Event::CopyWord { at, .. } => Touch::Word { at: at as u64 },
        Event::Forward { .. } => touched_cell(&view.job),
        Event::Redirect { .. } => touched_slot(&view.job),
        Event::Give { place, .. } => Touch::Board { place },
        Event::Take { place, .. } => Touch::Board { place },
        Event::Look {} => Touch::Nothing,
        Event::Lend {} => Touch::Nothing,
        Event::Return { .. } => Touch::Nothing,
    }
}

/// The cell of the job, if there is one.
fn touched_cell(job: &Option<Job>) -> Touch
    ensures { result ≡ touched_by (λ job. job.cell) job.now }
{
    match job {
        None => Touch::Nothing,
        Some(job) => Touch::Word {
            at: job.cell as u64,
        },
    }
}

/// The next word of the job's cell.
fn touched_body(job: &Option<Job>) -> Touch
    ensures { result ≡ touched_by (λ job. job.cell + 1 + length job.body) job.now }
{
    match job {
        None => Touch::Nothing,
        Some(job) => {
            let body = job.body.as_slice();
            Touch::Word {
                at: job.cell as u64 + 1 + body.len() as u64,
            }
        }
    }
}

/// The slot of the job.
fn touched_slot(job: &Option<Job>) -> Touch
    ensures { result ≡ touched_by (λ job. job.slot) job.now }
{
    match job {
        None => Touch::Nothing,
        Some(job) => Touch::Word {
            at: job.slot as u64,
        },
    }
}

/// The word that an event of a worker leaves, where it found this word.
pub(crate) fn word_after(view: &WorkerView, event: Event, found: u64) -> u64
    ensures { result ≡ word_after view.now event found }
{
    match event {
        Event::CopyWord { word, .. } => word,
        Event::Forward { to, .. } => header_after(&view.job, to, found),
        Event::Redirect { .. } => slot_after(&view.job, found),
        Event::Give { at, .. } => given_word(found, at),
        Event::Take { .. } => 0,
        Event::Look {} => found,
        Event::Lend {} => found,
        Event::Return { .. } => found,
        Event::LoadSlot { .. } => found,
        Event::LoadHeader { .. } => found,
        Event::LoadBody { .. } => found,
    }
}

/// The reference that goes into the job's slot.
fn slot_after(job: &Option<Job>, found: u64) -> u64
    ensures { result ≡ slot_after job.now found }
{
    match job {
        None => found,
        Some(job) => match job.header {
            None => found,
            Some(header) => header,
        },
    }
}

/// A word of the board after a copy was given to it.
fn given_word(found: u64, at: u32) -> u64
    ensures { result ≡ given_word found at }
{
    if found == 0 {
        Word::reference(at).0
    } else {
        found
    }
}

/// The home that an event of a worker makes, where it found this word.
pub(crate) fn home_made(view: &WorkerView, event: Event, found: u64) -> Option<Home>
    ensures { result ≡ home_made view.now event found }
{
    match event {
        Event::Forward { to, .. } => {
            if is_as_read(&view.job, found) {
                home_at(&view.job, to)
            } else {
                None
            }
        }
        Event::Look {} => None,
        Event::Lend {} => None,
        Event::Return { .. } => None,
        Event::LoadSlot { .. } => None,
        Event::LoadHeader { .. } => None,
        Event::LoadBody { .. } => None,
        Event::CopyWord { .. } => None,
        Event::Redirect { .. } => None,
        Event::Give { .. } => None,
        Event::Take { .. } => None,
    }
}

/// The home of the job's cell.
fn home_at(job: &Option<Job>, to: u32) -> Option<Home>
    ensures { result ≡ home_at job.now to }
{
    match job {
        None => None,
        Some(job) => Some(Home { from: job.cell, to }),
    }
}
