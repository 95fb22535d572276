//! Field paths: the path of an object, and those of its prefixes that are not there.
ghost use Rattle.std.specs.Prelude.{◌≡◌, ◌≤◌, length, map, IfOk};
ghost use Rattle.std.specs.List.{list_any};
ghost use Rattle.object_graph.specs.Paths.{path_of, same_path, prefix_of, missing, empty_paths};

use object_graph::{Field, Path, PathField, PathFields};
use std::alloc::{AllocError, Global};

/// The path of a plain object with this cap and these fields.
pub fn path_of(alloc: Global, cap: u32, fields: &[Field]) -> Result<Path, AllocError>
    ensures { IfOk result (λ path. path ≡ path_of cap fields.now) }
{
    let fields = PathFields::from_vec(known_to_paths(alloc, fields)?);
    Ok(Path { cap, fields })
}

/// The fields as a path knows them: without their values.
fn known_to_paths(alloc: Global, fields: &[Field]) -> Result<Vec<PathField>, AllocError>
    ensures { IfOk result (λ known.
        known.items ≡ map (λ f. record { name = f.name; rep = f.rep }) fields.now) }
{
    fields
        .iter()
        .map(|field| PathField {
            name: field.name,
            rep: field.rep,
        })
        .collect(alloc)
}

/// The path of the first fields of a path, so many of them.
fn prefix(alloc: Global, path: &Path, count: usize) -> Result<Path, AllocError>
    requires { count ≤ length path.now.fields }
    ensures { IfOk result (λ first. first ≡ prefix_of path.now count) }
{
    let first = Vec::from_slice(alloc, &path.fields.as_slice()[..count])?;
    let fields = PathFields::from_vec(first);
    Ok(Path {
        cap: path.cap,
        fields,
    })
}

/// Whether the two have the same cap and the same fields.
pub fn same_path(path: &Path, other: &Path) -> bool
    ensures { result ≡ same_path path.now other.now }
{
    path.cap == other.cap && path.fields.as_slice() == other.fields.as_slice()
}

/// Whether the path is one of these.
fn is_among(path: &Path, paths: &[Path]) -> bool
    ensures { result ≡ list_any (same_path path.now) paths.now }
{
    paths.iter().any(|other| same_path(path, other))
}

/// Those prefixes of the path that are not among these, shortest first.
pub fn missing(alloc: Global, paths: &[Path], path: &Path) -> Result<Vec<Path>, AllocError>
    ensures { IfOk result (λ more. more.items ≡ missing paths.now path.now) }
{
    let mut more = Vec::new(alloc);
    for count in 0..path.fields.as_slice().len() + 1 {
        let prefix = prefix(alloc, path, count)?;
        if !is_among(&prefix, paths) {
            more.push(prefix)?;
        }
    }
    Ok(more)
}

/// The paths that are there from the start: no field, and a cap from 0 to 8.
pub fn empty_paths(alloc: Global) -> Result<Vec<Path>, AllocError>
    ensures { IfOk result (λ paths. paths.items ≡ empty_paths) }
{
    let mut paths = Vec::new(alloc);
    for cap in 0..9 {
        let fields = PathFields::from_vec(Vec::new(alloc));
        paths.push(Path { cap, fields })?;
    }
    Ok(paths)
}
