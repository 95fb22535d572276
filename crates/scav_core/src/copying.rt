//! A world in memory of its own.
ghost use Rattle.std.specs.Prelude.{◌≡◌, IfOk};

use crate::workers::{Job, WorkerView, Workers};
use crate::world::World;
use std::alloc::Global;
use tagged_word::NoMemory;

/// The same world in memory of its own.
pub(crate) fn copied(alloc: Global, world: &World) -> Result<World, NoMemory>
    ensures { IfOk result (λ copy. copy ≡ world.now) }
{
    Ok(World {
        before: world.before.copied(alloc)?,
        words: world.words.copied(alloc)?,
        layouts: world.layouts.copied(alloc)?,
        cells: world.cells.copied(alloc)?,
        slots: world.slots.copied(alloc)?,
        rooms: world.rooms.copied(alloc)?,
        homes: world.homes.copied(alloc)?,
        board: world.board.copied(alloc)?,
        workers: copied_workers(alloc, &world.workers)?,
    })
}

/// The same views.
fn copied_workers(alloc: Global, workers: &Workers) -> Result<Workers, NoMemory>
    ensures { IfOk result (λ copy. copy ≡ workers.now) }
{
    let mut list = Vec::new(alloc);
    for view in workers.as_slice() {
        list.push(copied_view(alloc, view)?)?;
    }
    Ok(Workers::from_vec(list))
}

/// The same view.
fn copied_view(alloc: Global, view: &WorkerView) -> Result<WorkerView, NoMemory>
    ensures { IfOk result (λ copy. copy ≡ view.now) }
{
    Ok(WorkerView {
        out: view.out,
        job: copied_job(alloc, &view.job)?,
        todo: view.todo.copied(alloc)?,
        log: view.log.copied(alloc)?,
    })
}

/// The same job.
fn copied_job(alloc: Global, job: &Option<Job>) -> Result<Option<Job>, NoMemory>
    ensures { IfOk result (λ copy. copy ≡ job.now) }
{
    match job {
        None => Ok(None),
        Some(job) => Ok(Some(Job {
            slot: job.slot,
            cell: job.cell,
            header: job.header,
            body: job.body.copied(alloc)?,
        })),
    }
}
