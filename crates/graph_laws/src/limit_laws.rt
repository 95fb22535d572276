//! A law of the limits that graphs have.
ghost use Rattle.object_graph.specs.Limits.{ideal_limits};
ghost use Rattle.graph_laws.specs.GraphLaws.{HasFieldLimit};

/// No object may have more fields than 64, so the laws of graphs hold with these limits.
pub fn laws_of_limits()
    ensures { HasFieldLimit ideal_limits }
{}
