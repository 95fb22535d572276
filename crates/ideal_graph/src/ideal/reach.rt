//! What can be reached from the variables: rounds over all objects, until one marks nothing more.
ghost use Rattle.std.specs.Prelude.{◌≡◌, ◌↔◌, length, IsTrue, IfOk, IfErr};
ghost use Rattle.std.specs.Ordering.{nat_cmp};
ghost use Rattle.std.specs.List.{list_any, sum_by, zip};
ghost use Rattle.std.specs.FinMap.{from_entries, values};
ghost use Rattle.object_graph.specs.Reach.{refers_to, is_linked, bound_marks, reach};
ghost use Rattle.object_graph.specs.Reach.{entries_if, reached_objects, reached_entries};
ghost use Rattle.object_graph.specs.Marks.{MarksAlso};

use super::{Ideal, IdealStop};
use ideal_parts::{count_marked, mark, mark_links, marked_entries};
use object_graph::{Object, Value};
use std::collections::BTreeMap;

/// How many objects can be reached, and how many entries of weak maps whose map and key can.
#[derive(Clone, Copy, Debug, PartialEq, Eq)]
pub struct Census {
    pub objects: u64,
    pub entries: u64,
}

impl Ideal {
    /// Counts what can be reached from the variables. The graph stays as it is.
    pub fn reach(&mut self) -> Result<Census, IdealStop>
        ensures counted { IfOk result (λ census.
            (census.objects ≡ reached_objects self.old.graph)
            × (census.entries ≡ reached_entries self.old.graph)) }
        ensures same { self.new ≡ self.old }
        ensures memory { IfErr result (λ stop. stop ≡ IdealStop.NoMemory) }
    {
        self.census()
    }

    /// Counts what can be reached from the variables.
    pub(crate) fn census(&self) -> Result<Census, IdealStop>
        ensures counted { IfOk result (λ census.
            (census.objects ≡ reached_objects self.now.graph)
            × (census.entries ≡ reached_entries self.now.graph)) }
        ensures memory { IfErr result (λ stop. stop ≡ IdealStop.NoMemory) }
    {
        let marks = self.reached()?;
        let objects = count_marked(&marks);
        let entries = count_entries(&self.objects, &marks)?;
        Ok(Census { objects, entries })
    }

    /// The marks of what can be reached.
    pub(crate) fn reached(&self) -> Result<Vec<bool>, IdealStop>
        ensures marked { IfOk result (λ marks. marks.items ≡ reach self.now.graph) }
        ensures memory { IfErr result (λ stop. stop ≡ IdealStop.NoMemory) }
    {
        let mut marks = vec![in self.alloc; false; self.objects.len()]?;
        let mut next = Vec::from_slice(self.alloc, &marks)?;
        mark_bound(&self.bindings, &mut marks);
        self.spread(&mut marks, &mut next);
        Ok(marks)
    }

    /// Marks all that can be reached from what variables are bound to, which is marked. `next` is
    /// room for a round.
    fn spread(&self, marks: &mut [bool], next: &mut [bool])
        requires bound { marks.old ≡ bound_marks self.now.graph }
        requires room { length next.old ≡ length marks.old }
        ensures { marks.new ≡ reach self.now.graph }
    {
        for _turn in 0..self.objects.len() {
            mark_round(&self.objects, marks, next);
            if is_same(marks, next) {
                return;
            }
            marks.copy_from_slice(next);
        }
    }
}

/// Marks what variables are bound to.
fn mark_bound(bindings: &BTreeMap<u32, Value>, marks: &mut [bool])
    ensures { MarksAlso marks.old marks.new (λ number.
        list_any (refers_to number) (values (from_entries {R = nat_cmp} bindings.now.entries))) }
{
    for value in bindings.values() {
        mark(marks, *value);
    }
}

/// Marks in `next` what is marked, and what marked objects link to.
fn mark_round(objects: &[Object], marks: &[bool], next: &mut [bool])
    requires marks_of_all { length marks.now ≡ length objects.now }
    requires room { length next.old ≡ length marks.now }
    ensures { MarksAlso marks.now next.new (is_linked objects.now marks.now) }
{
    next.copy_from_slice(marks);
    for (holder, object) in objects.iter().enumerate() {
        if marks[holder] {
            mark_links(marks, object, next);
        }
    }
}

/// Whether the same objects are marked.
fn is_same(marks: &[bool], others: &[bool]) -> bool
    ensures { IsTrue result ↔ (marks.now ≡ others.now) }
{
    marks == others
}

/// How many entries of marked objects have a marked key. More than a `u64` counts do not fit in
/// memory.
fn count_entries(objects: &[Object], marks: &[bool]) -> Result<u64, IdealStop>
    requires marks_of_all { length marks.now ≡ length objects.now }
    ensures counted { IfOk result (λ count.
        count ≡ sum_by (λ pair. entries_if marks.now pair.0 pair.1) (zip marks.now objects.now)) }
    ensures memory { IfErr result (λ stop. stop ≡ IdealStop.NoMemory) }
{
    let mut count: u64 = 0;
    for (holder, object) in objects.iter().enumerate() {
        let more = entries_if(marks, marks[holder], object);
        count = count.checked_add(more).ok_or(IdealStop::NoMemory)?;
    }
    Ok(count)
}

/// How many entries the object counts for: none unless it is reached.
fn entries_if(marks: &[bool], is_reached: bool, object: &Object) -> u64
    ensures { result ≡ entries_if marks.now is_reached object.now }
{
    if is_reached {
        marked_entries(marks, object)
    } else {
        0
    }
}
