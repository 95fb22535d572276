//! What an event makes of the view of its worker.
ghost use Rattle.std.specs.Prelude.{◌≡◌, OnOk};
ghost use Rattle.scav_core.specs.Views.{view_after, job_at, with_header, with_body_word, is_as_read};
ghost use Rattle.scav_core.specs.Views.{header_after, given_view, taken_view, loaded_view, forwarded_view};

use crate::event::Event;
use crate::workers::{Job, WorkerView};
use core_parts::{Items, Note, join, leave};
use std::alloc::Global;
use tagged_word::{NoMemory, Word};

/// Changes the view of a worker by its event, which found a word. Without memory it is left open
/// what the view is.
pub(crate) fn change_view(
    alloc: Global,
    view: &mut WorkerView,
    cells: &[u32],
    event: Event,
    found: u64,
) -> Result<(), NoMemory>
    ensures { OnOk result (view.new ≡ view_after cells.now view.old event found) }
{
    match event {
        Event::Return { .. } => {
            view.out = false;
            Ok(())
        }
        Event::LoadSlot { slot, .. } => load_slot(alloc, view, cells, slot, found),
        Event::LoadHeader { .. } => {
            set_header(&mut view.job, found);
            Ok(())
        }
        Event::LoadBody { .. } => add_word(&mut view.job, found),
        Event::Forward { to, .. } => forward(view, to, found),
        Event::Redirect { .. } => {
            view.job = None;
            Ok(())
        }
        Event::Give { place, at, .. } => give(view, place, at, found),
        Event::Take { place, .. } => take(view, place, found),
        Event::Look {} => Ok(()),
        Event::Lend {} => Ok(()),
        Event::CopyWord { .. } => Ok(()),
    }
}

/// The worker is at the slot now, if the word there refers to one of the cells.
fn load_slot(
    alloc: Global,
    view: &mut WorkerView,
    cells: &[u32],
    slot: u32,
    found: u64,
) -> Result<(), NoMemory>
    ensures { OnOk result (view.new ≡ loaded_view cells.now view.old slot found) }
{
    view.log.push(Note::Loaded { at: slot })?;
    view.job = job_at(alloc, cells, slot, found);
    Ok(())
}

/// The job of a slot whose word refers to one of the cells.
fn job_at(alloc: Global, cells: &[u32], slot: u32, found: u64) -> Option<Job>
    ensures { result ≡ job_at cells.now slot found }
{
    let cell = Word(found).address()?;
    if cells.contains(&cell) {
        Some(Job {
            slot,
            cell,
            header: None,
            body: Items::new(alloc),
        })
    } else {
        None
    }
}

/// The job has this header now.
fn set_header(job: &mut Option<Job>, header: u64)
    ensures { job.new ≡ with_header job.old header }
{
    if let Some(job) = job {
        job.header = Some(header);
    }
}

/// The job has one word more.
fn add_word(job: &mut Option<Job>, word: u64) -> Result<(), NoMemory>
    ensures { OnOk result (job.new ≡ with_body_word job.old word) }
{
    if let Some(job) = job {
        job.body.push(word)?;
    }
    Ok(())
}

/// Whether a header that was found is the one that the job has read.
pub(crate) fn is_as_read(job: &Option<Job>, found: u64) -> bool
    ensures { result ≡ is_as_read job.now found }
{
    match job {
        None => false,
        Some(job) => match job.header {
            None => false,
            Some(header) => header == found,
        },
    }
}

/// The header of a cell after an exchange: the reference to the copy where the header is as read,
/// else it stays.
pub(crate) fn header_after(job: &Option<Job>, to: u32, found: u64) -> u64
    ensures { result ≡ header_after job.now to found }
{
    if is_as_read(job, found) {
        Word::reference(to).0
    } else {
        found
    }
}

/// The header is exchanged for the reference to the copy, if it is the one that was read.
fn forward(view: &mut WorkerView, to: u32, found: u64) -> Result<(), NoMemory>
    ensures { OnOk result (view.new ≡ forwarded_view view.old to found) }
{
    let is_won = is_as_read(&view.job, found);
    let stands = header_after(&view.job, to, found);
    set_header(&mut view.job, stands);
    if is_won {
        join(&mut view.todo, to)?;
    }
    Ok(())
}

/// The copy leaves the worker's list, if the word of the board was 0.
fn give(view: &mut WorkerView, place: u32, at: u32, found: u64) -> Result<(), NoMemory>
    ensures { OnOk result (view.new ≡ given_view view.old place at found) }
{
    view.log.push(Note::Gave { place, found })?;
    if found == 0 {
        leave(&mut view.todo, at);
    }
    Ok(())
}

/// The copy that the word of the board referred to joins the worker's list.
fn take(view: &mut WorkerView, place: u32, found: u64) -> Result<(), NoMemory>
    ensures { OnOk result (view.new ≡ taken_view view.old place found) }
{
    view.log.push(Note::Took { place, found })?;
    if let Some(address) = Word(found).address() {
        join(&mut view.todo, address)?;
    }
    Ok(())
}
