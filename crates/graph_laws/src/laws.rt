//! Laws of runs, of commands, and of the graphs that they make.
ghost use Rattle.object_graph.specs.Graphs.{start};
ghost use Rattle.object_graph.specs.Invariants.{IsGraph};
ghost use Rattle.graph_laws.specs.Laws.{RunsAgree, RunsGoOn, BytesStay, FaultsStay, RunsEnd};
ghost use Rattle.graph_laws.specs.Laws.{RunsEndOnce, ObjectsStay, PathsStay, CollectionsChangeNothing};
ghost use Rattle.graph_laws.specs.GraphLaws.{GraphsStay, RunsMakeGraphs, FieldsAreFew};

/// The run after one line more is the run after the lines before it, and then that line. Runs with
/// the same first lines go on from the same point. What was written stays: more lines only add
/// bytes after it. After a line with a fault there is no graph, however many lines come. Each run
/// ends, and it ends once: after one number of its lines, with one graph and one text, in one way.
pub fn laws_of_runs()
    ensures agree { RunsAgree }
    ensures go_on { RunsGoOn }
    ensures bytes_stay { BytesStay }
    ensures faults_stay { FaultsStay }
    ensures end { RunsEnd }
    ensures end_once { RunsEndOnce }
{}

/// No object is taken out, its number, its kind and its cap never change, and a command changes no
/// object but the one that it names. A command that gives a prototype leaves all else of each
/// object, and each other command leaves the prototypes. Field paths are only added, after those
/// that are there. A collection changes nothing and writes nothing.
pub fn laws_of_commands()
    ensures objects_stay { ObjectsStay }
    ensures paths_stay { PathsStay }
    ensures collections_change_nothing { CollectionsChangeNothing }
{}

/// In each graph that a script makes, integers have 64 bits, references are to objects of the
/// graph, no object has two fields of one name or two entries of one key, no list has more than
/// 1,000 elements, no cap is above 8, and prototypes are plain objects in no ring. Its field paths
/// begin with the nine empty ones; none stands twice; with each path its prefixes are there; no path
/// has two fields of one name, more than 64 fields or a cap above 8; and the path of each plain
/// object is among them, so that no object has more than 64 fields.
///
/// That holds where the limits let no object have more than 64 fields, as those that
/// `laws_of_limits` names, and where commands make no cap above 8 and store only literals of 64
/// bits.
pub fn laws_of_graphs()
    ensures start { IsGraph start }
    ensures stays { GraphsStay }
    ensures runs { RunsMakeGraphs }
    ensures few_fields { FieldsAreFew }
{}
