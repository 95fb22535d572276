//! Laws of prototypes: chains of them are short and come back to no object, and a field is found in
//! the nearest object that has it.
ghost use Rattle.graph_laws.specs.ProtoLaws.{LeadsIsAfter, AfterLeads, ChainsAreShort, ProtosDiffer};
ghost use Rattle.graph_laws.specs.ProtoLaws.{RingsAreFound, RingsLead, ProtosAreReached};
ghost use Rattle.graph_laws.specs.ProtoLaws.{ProtosStayInOrder, RefusedMakeRings};
ghost use Rattle.graph_laws.specs.ProtoLaws.{NearestIsFound, NoneIsFound};
ghost use Rattle.graph_laws.specs.ProtoLaws.{NoneMakesNoRing, GetsAreNearest, ProtosAreGiven};

/// The test of leading finds exactly what comes after so many prototypes or fewer. The objects of a
/// chain of prototypes differ, so a chain has fewer prototypes than there are objects, and the test
/// of a ring finds each ring that a new prototype would make, and nothing else. The prototype of a
/// reached object is reached. A graph in which a plain object gets a prototype that makes no ring,
/// or none, is a graph, and one in which it gets a prototype that is refused as a ring has a ring. A
/// field that is found along prototypes is that of the nearest object that has it, and one that is
/// not found is in none of the objects that were looked at. So a `get` that is carried out gives the
/// nearest value or `undefined`, and a `proto` gives the prototype that its value names.
///
/// That chains differ and are short, and that each ring is found, holds where prototypes are plain
/// objects in no ring, as those of graphs are.
pub fn laws_of_prototypes()
    ensures leads { LeadsIsAfter }
    ensures is_led { AfterLeads }
    ensures differ { ProtosDiffer }
    ensures short { ChainsAreShort }
    ensures rings_are_found { RingsAreFound }
    ensures rings_lead { RingsLead }
    ensures are_reached { ProtosAreReached }
    ensures stay_in_order { ProtosStayInOrder }
    ensures refused_make_rings { RefusedMakeRings }
    ensures nearest_is_found { NearestIsFound }
    ensures none_is_found { NoneIsFound }
    ensures none_makes_no_ring { NoneMakesNoRing }
    ensures gets_are_nearest { GetsAreNearest }
    ensures protos_are_given { ProtosAreGiven }
{}
