//! What the variables are bound to: a tree of values by the numbers of the variables.
ghost use Rattle.std.specs.Prelude.{◌≡◌, ◌≤◌, ◌↔◌, ℕ, IsTrue, OnOk, OnErr};
ghost use Rattle.std.specs.Ordering.{nat_cmp};
ghost use Rattle.std.specs.FinMap.{get, insert, remove, from_entries};

use object_graph::Value;
use std::alloc::AllocError;
use std::collections::BTreeMap;

/// Binds the variable to the value.
pub fn bind(bindings: &mut BTreeMap<u32, Value>, x: u32, value: Value) -> Result<(), AllocError>
    ensures ok { OnOk result
        (from_entries {R = nat_cmp} bindings.new.entries ≡ insert (from_entries bindings.old.entries) x value) }
    ensures err { OnErr result (bindings.new.entries ≡ bindings.old.entries) }
{
    bindings.insert(x, value)?;
    Ok(())
}

/// Unbinds the variable.
pub fn unbind(bindings: &mut BTreeMap<u32, Value>, x: u32)
    ensures { from_entries {R = nat_cmp} bindings.new.entries ≡ remove (from_entries bindings.old.entries) x }
{
    bindings.remove(&x);
}

/// Whether no variable from this number on is bound.
pub fn has_none_from(bindings: &BTreeMap<u32, Value>, least: u32) -> bool
    ensures { IsTrue result
        ↔ ((x : ℕ) → least ≤ x → get (from_entries {R = nat_cmp} bindings.now.entries) x ≡ None) }
{
    for x in bindings.keys() {
        if *x >= least {
            return false;
        }
    }
    true
}
