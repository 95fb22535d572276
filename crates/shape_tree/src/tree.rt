//! The tree itself: what it owns, how it is made, and how it becomes a copy of another.
ghost use Rattle.std.specs.Prelude.{◌≡◌, ◌+◌, ◌<◌, ◌≤◌, cond, map, length, Some, None, IfOk};
ghost use Rattle.std.specs.Prelude.{replicate};
ghost use Rattle.std.specs.List.{range_with_len};
ghost use Rattle.std.specs.Vec.{vec_capacity};
ghost use Rattle.std.specs.HashMap.{get, hash_map_len, spare, IsUnique};
ghost use Rattle.object_graph.specs.Paths.{empty_paths};
ghost use Rattle.shape_tree.specs.Nodes.{same_transition, root_node_of, empty_entry};
ghost use Rattle.shape_tree.specs.Nodes.{cache_entries, no_alteration, alteration_entries};
ghost use Rattle.shape_tree.specs.Nodes.{no_look_up, look_up_entries};
ghost use Rattle.shape_tree.specs.declared.transition.Transition.{Transition};

use crate::alterations::{ALTERATION_ENTRIES, Altered};
use crate::cached::{CACHE_ENTRIES, Cached};
use crate::look_ups::{LOOK_UP_ENTRIES, LookUp};
use crate::node::Node;
use crate::transition::Transition;
use object_graph::PathField;
use object_graph::limits::{self, PATHS_MOST};
use std::alloc::{AllocError, Global};
use std::collections::HashMap;
use std::marker::Model;
use tagged_word::{Kind, LayoutWord, NoMemory, shape};

/// The shape of the first path.
pub(crate) const FIRST: u32 = shape::PATHS;
/// The most fields of a path.
pub(crate) const FIELDS_MOST: usize = limits::FIELDS_MOST as usize;
/// How many paths have no field: one for each cap.
const ROOTS: u32 = 9;

/// The shape of each field path. It holds at most 8,192 paths, and takes the memory for all of
/// them when it is made: about 5 MB, most of which is touched only as paths are added.
#[derive(Drop)]
pub struct ShapeTree {
    /// The fields of each path in order, one path after another.
    pub(crate) fields: Vec<PathField>,
    /// A node for each path, in the order of their shapes.
    pub(crate) nodes: Vec<Node>,
    /// The shape to which each transition leads.
    pub(crate) steps: HashMap<Transition, u32>,
    /// Some of these steps, each at its entry: answers without the table.
    pub(crate) cache: Vec<Cached>,
    /// Alterations that were asked for, each at its entry: answers without a way through the tree.
    pub(crate) alterations: Vec<Altered>,
    /// Names that were looked up, each at its entry: answers without a search.
    pub(crate) look_ups: Vec<LookUp>,
}

impl Model for ShapeTree {
    ghost use Rattle.std.specs.Prelude.{List};
    ghost use Rattle.object_graph.specs.declared.path.Path.{Path};

    ghost Value = { List Path };

    ghost use Rattle.shape_tree.specs.Trees.{paths_of, IsTree};

    ghost view = { paths_of };

    ghost invariant = { IsTree };
}

/// The node of the path of no field.
fn root_node(cap: u32) -> Node
    ensures { result ≡ root_node_of cap }
{
    let layout = LayoutWord {
        kind: Kind::Plain,
        cap,
        used: 0,
        raw: 0,
    };
    Node {
        cap,
        start: 0,
        count: 0,
        parent: 0,
        layout,
    }
}

/// The nodes of the nine paths of no field, with room for all the others.
fn root_nodes(alloc: Global) -> Result<Vec<Node>, AllocError>
    ensures roots { IfOk result (λ nodes. nodes.items ≡ map root_node_of (range_with_len 0 9)) }
    ensures room { IfOk result (λ nodes. PATHS_MOST ≤ vec_capacity nodes) }
{
    let mut nodes = Vec::with_capacity(alloc, PATHS_MOST as usize)?;
    for cap in 0..ROOTS {
        nodes.push_reserved(root_node(cap));
    }
    Ok(nodes)
}

/// The cache, where no step is cached.
fn empty_cache(alloc: Global) -> Result<Vec<Cached>, AllocError>
    ensures { IfOk result (λ cache. cache.items ≡ replicate cache_entries empty_entry) }
{
    let empty = Cached::empty();
    let cache = vec![in alloc; empty; CACHE_ENTRIES]?;
    Ok(cache)
}

/// The cache of alterations, where there is none.
fn no_alterations(alloc: Global) -> Result<Vec<Altered>, AllocError>
    ensures { IfOk result (λ cache. cache.items ≡ replicate alteration_entries no_alteration) }
{
    let empty = Altered::empty();
    let cache = vec![in alloc; empty; ALTERATION_ENTRIES]?;
    Ok(cache)
}

/// The look-up cache, where nothing was looked up.
fn no_look_ups(alloc: Global) -> Result<Vec<LookUp>, AllocError>
    ensures { IfOk result (λ cache. cache.items ≡ replicate look_up_entries no_look_up) }
{
    let none = LookUp::none();
    let cache = vec![in alloc; none; LOOK_UP_ENTRIES]?;
    Ok(cache)
}

/// Puts a transition into the table, which has room for it.
pub(crate) fn put_step(steps: &mut HashMap<Transition, u32>, step: Transition, shape: u32)
    requires { 0 < spare steps.old }
    ensures put { (other : Transition)
        → get same_transition steps.new other
        ≡ cond (same_transition step other) (Some shape) (get same_transition steps.old other) }
    ensures added { get same_transition steps.old step ≡ None
        → hash_map_len steps.new ≡ hash_map_len steps.old + 1 }
    ensures room { spare steps.old ≤ spare steps.new + 1 }
    ensures unique { IsUnique same_transition steps.new }
{
    if steps.insert(step, shape).is_err() {
        unreachable!()
    }
}

/// Makes `items` hold what `others` does. It has room for them.
fn copy_items<T: Copy>(items: &mut Vec<T>, others: &[T])
    requires { length others.now ≤ vec_capacity items.old }
    ensures copied { items.new.items ≡ others.now }
    ensures room { vec_capacity items.old ≤ vec_capacity items.new }
{
    items.clear();
    if items.extend_from_slice(others).is_err() {
        unreachable!()
    }
}

/// Makes `steps` hold what `others` does. It has room for them.
fn copy_steps(steps: &mut HashMap<Transition, u32>, others: &HashMap<Transition, u32>)
    requires { hash_map_len others.now ≤ hash_map_len steps.old + spare steps.old }
    ensures copied { (step : Transition)
        → get same_transition steps.new step ≡ get same_transition others.now step }
    ensures len { hash_map_len steps.new ≡ hash_map_len others.now }
    ensures room { let total = hash_map_len steps.old + spare steps.old in
        total ≤ hash_map_len steps.new + spare steps.new }
{
    steps.clear();
    for (step, shape) in others {
        put_step(steps, *step, *shape);
    }
}

impl ShapeTree {
    /// A tree of the nine paths of no field, of caps 0 to 8. It is the only call that takes memory.
    pub fn new(alloc: Global) -> Result<ShapeTree, NoMemory>
        ensures made { IfOk result (λ tree. tree ≡ empty_paths) }
    {
        let fields = Vec::with_capacity(alloc, PATHS_MOST as usize * FIELDS_MOST)?;
        let nodes = root_nodes(alloc)?;
        let steps = HashMap::with_capacity(alloc, PATHS_MOST as usize)?;
        let cache = empty_cache(alloc)?;
        let alterations = no_alterations(alloc)?;
        let look_ups = no_look_ups(alloc)?;
        Ok(ShapeTree {
            fields,
            nodes,
            steps,
            cache,
            alterations,
            look_ups,
        })
    }

    /// Makes this tree a copy of the other. It takes no memory.
    pub fn copy_from(&mut self, other: &ShapeTree)
        ensures { self.new ≡ other.now }
    {
        copy_items(&mut self.fields, &other.fields);
        copy_items(&mut self.nodes, &other.nodes);
        copy_steps(&mut self.steps, &other.steps);
        copy_items(&mut self.cache, &other.cache);
        copy_items(&mut self.alterations, &other.alterations);
        copy_items(&mut self.look_ups, &other.look_ups);
    }
}
