//! Which events are possible in a world.
ghost use Rattle.std.specs.Prelude.{◌≡◌, ◌==◌, ◌+◌, ◌<◌, ◌≤◌, ◌^◌, length, slice_get, slice_index};
ghost use Rattle.std.specs.List.{list_all, list_any, range_with_len};
ghost use Rattle.tagged_word.specs.Cells.{has_length, length_by};
ghost use Rattle.scav_core.specs.Possible.{words_wanted, is_part, is_whole, stands_at};
ghost use Rattle.scav_core.specs.Possible.{job_is, header_is, may_load_header, may_load_body};
ghost use Rattle.scav_core.specs.Possible.{is_copy, may_forward, is_home, may_redirect, is_place, may_load_slot};
ghost use Rattle.scav_core.specs.Possible.{may_copy_word};
ghost use Rattle.scav_core.specs.Possible.{may, may_main, is_possible};

use crate::event::Event;
use crate::places::{is_free, is_in_own_room, is_live};
use crate::step::{word_or_0, worker_of};
use crate::workers::{Job, WorkerView};
use crate::world::World;
use core_parts::layout_of;
use page_space::BOARD_WORDS;
use scav_copy::Home;
use tagged_word::{Header, LayoutWord, Word};

/// The most workers that may be at work at a time.
const WORKERS_MOST: usize = 7;

/// Whether an event is possible in a world.
pub fn is_possible(world: &World, event: Event) -> bool
    ensures { result ≡ is_possible world.now event }
{
    match worker_of(event) {
        None => may_main(world, event),
        Some(worker) => match world.workers.as_slice().get(worker as usize) {
            None => false,
            Some(view) => view.out && may(world, event, view),
        },
    }
}

/// Whether the main side may do this.
fn may_main(world: &World, event: Event) -> bool
    ensures { result ≡ may_main world.now event }
{
    match event {
        Event::Lend {} => world.workers.count_out() < WORKERS_MOST,
        Event::Look {} => true,
        Event::Return { .. } => true,
        Event::LoadSlot { .. } => true,
        Event::LoadHeader { .. } => true,
        Event::LoadBody { .. } => true,
        Event::CopyWord { .. } => true,
        Event::Forward { .. } => true,
        Event::Redirect { .. } => true,
        Event::Give { .. } => true,
        Event::Take { .. } => true,
    }
}

/// Whether a worker that is out, and has this view, may do this.
fn may(world: &World, event: Event, view: &WorkerView) -> bool
    ensures { result ≡ may world.now event view.now }
{
    match event {
        Event::LoadSlot { slot, .. } => may_load_slot(world, slot, view),
        Event::LoadHeader { .. } => may_load_header(world, &view.job),
        Event::LoadBody { .. } => may_load_body(world, &view.job),
        Event::CopyWord { worker, at, .. } => may_copy_word(world, worker, at),
        Event::Forward { worker, to } => may_forward(world, worker, to, &view.job),
        Event::Redirect { .. } => may_redirect(world, &view.job),
        Event::Give { place, at, .. } => {
            let is_listed = view.todo.as_slice().contains(&at);
            is_place(world, place) && is_listed
        }
        Event::Take { place, .. } => is_place(world, place),
        Event::Look {} => true,
        Event::Lend {} => true,
        Event::Return { .. } => true,
    }
}

/// Whether the worker is at no slot, and this one is live.
fn may_load_slot(world: &World, slot: u32, view: &WorkerView) -> bool
    ensures { result ≡ may_load_slot world.now slot view.now }
{
    let is_idle = view.job.is_none();
    let is_live = is_live(world, slot);
    let is_there = (slot as usize) < world.words.count();
    is_idle && is_live && is_there
}

/// Whether the job's header may be read.
fn may_load_header(world: &World, job: &Option<Job>) -> bool
    ensures { result ≡ job_is job.now (may_load_header world.now) }
{
    match job {
        None => false,
        Some(job) => {
            let is_unread = job.header.is_none();
            let is_there = (job.cell as usize) < world.words.count();
            is_unread && is_there
        }
    }
}

/// Whether the next word of the cell may be read.
fn may_load_body(world: &World, job: &Option<Job>) -> bool
    ensures { result ≡ job_is job.now (may_load_body world.now) }
{
    match job {
        None => false,
        Some(job) => {
            let body = job.body.as_slice();
            let next = job.cell as usize + 1 + body.len();
            let is_there = next < world.words.count();
            let wants_more = wants_more(world.layouts.as_slice(), job.header, body);
            wants_more && is_there
        }
    }
}

/// Whether a header that was read names more words than were read.
fn wants_more(layouts: &[u64], header: Option<u64>, body: &[u64]) -> bool
    ensures { result ≡ header_is header (λ header.
        is_part (words_wanted layouts.now header body.now) (1 + length body.now)) }
{
    match header {
        None => false,
        Some(header) => match words_wanted(layouts, header, body) {
            None => false,
            Some(wanted) => 1 + body.len() < wanted as usize,
        },
    }
}

/// How many words of the cell are to be read.
fn words_wanted(layouts: &[u64], header: u64, body: &[u64]) -> Option<u32>
    ensures { result ≡ words_wanted layouts.now header body.now }
{
    let head = Header::parse(Word(header))?;
    let layout = layout_of(layouts, head.shape)?;
    match length_of(layout, body) {
        None => Some(2),
        Some(length) => layout.size(length),
    }
}

/// The length of a cell with this layout; none where it is a word that was not read.
fn length_of(layout: LayoutWord, body: &[u64]) -> Option<u64>
    ensures { result ≡ length_by (has_length layout.kind) (slice_get body.now 0) }
{
    if layout.kind.has_length() {
        body.get(0).copied()
    } else {
        Some(0)
    }
}

/// Whether the worker may store a word there.
fn may_copy_word(world: &World, worker: u32, at: u32) -> bool
    ensures { result ≡ may_copy_word world.now worker at }
{
    let is_own = is_in_own_room(world.rooms.as_slice(), worker, at as u64, 1);
    let is_free = is_free(world, at as u64, 1);
    let is_there = (at as usize) < world.words.count();
    is_own && is_free && is_there
}

/// Whether the header may be exchanged for the reference to that copy.
fn may_forward(world: &World, worker: u32, to: u32, job: &Option<Job>) -> bool
    ensures { result ≡ job_is job.now (may_forward world.now worker to) }
{
    match job {
        None => false,
        Some(job) => {
            let is_there = (job.cell as usize) < world.words.count();
            let is_copy = match job.header {
                None => false,
                Some(header) => is_copy(world, worker, to, header, job.body.as_slice()),
            };
            is_copy && is_there
        }
    }
}

/// Whether a header and a body are a whole cell, and stand there as a copy.
fn is_copy(world: &World, worker: u32, to: u32, header: u64, body: &[u64]) -> bool
    ensures { result ≡ is_copy world.now worker to header body.now }
{
    let many = 1 + body.len() as u64;
    let first = to as u64;
    let is_whole = is_whole(words_wanted(world.layouts.as_slice(), header, body), many);
    let is_there = first + many <= world.words.count() as u64;
    let is_own = is_in_own_room(world.rooms.as_slice(), worker, first, many);
    let is_free = is_free(world, first, many);
    let is_stored = stands_at(world.words.as_slice(), first, header, body);
    is_whole && is_there && is_own && is_free && is_stored
}

/// Whether just so many words are wanted as there are.
fn is_whole(wanted: Option<u32>, many: u64) -> bool
    ensures { result ≡ is_whole wanted many }
{
    match wanted {
        None => false,
        Some(wanted) => wanted as u64 == many,
    }
}

/// Whether a header and a body stand from an address on.
fn stands_at(words: &[u64], first: u64, header: u64, body: &[u64]) -> bool
    requires { first < 2 ^ 32 }
    ensures { result ≡ stands_at words.now first header body.now }
{
    if word_or_0(words, first) != header {
        return false;
    }
    follows(words, first + 1, body)
}

/// Whether the words from an address on are these.
fn follows(words: &[u64], first: u64, list: &[u64]) -> bool
    requires { first ≤ 2 ^ 32 }
    ensures { result ≡ list_all (λ offset. slice_index words.now (first + offset) == slice_index list.now offset)
        (range_with_len 0 (length list.now)) }
{
    for (offset, word) in list.iter().enumerate() {
        if word_or_0(words, first + offset as u64) != *word {
            return false;
        }
    }
    true
}

/// Whether the job's header may go into its slot.
fn may_redirect(world: &World, job: &Option<Job>) -> bool
    ensures { result ≡ job_is job.now (may_redirect world.now) }
{
    match job {
        None => false,
        Some(job) => {
            let is_there = (job.slot as usize) < world.words.count();
            let is_home = match job.header {
                None => false,
                Some(header) => is_home(world.homes.as_slice(), Word(header).address()),
            };
            is_home && is_there
        }
    }
}

/// Whether a home copy stands at the address.
fn is_home(homes: &[Home], address: Option<u32>) -> bool
    ensures { result ≡ is_home homes.now address }
{
    match address {
        None => false,
        Some(at) => is_home_at(homes, at),
    }
}

/// Whether one of the home copies stands at an address.
fn is_home_at(homes: &[Home], at: u32) -> bool
    ensures { result ≡ list_any (λ home. home.to == at) homes.now }
{
    homes.iter().any(|home| home.to == at)
}

/// Whether there is such a word of the board.
fn is_place(world: &World, place: u32) -> bool
    ensures { result ≡ is_place world.now place }
{
    place < BOARD_WORDS && (place as usize) < world.board.count()
}
