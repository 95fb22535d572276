//! Laws of the shapes of a list of paths.
ghost use Rattle.shape_tree.specs.Laws.{ShapesStay, WordsStay, ShapesAreOne, ListsStayGood};

/// A shape keeps its path and its layout word where paths are added. Two shapes of one path are
/// one shape, so a path that is reached in two ways has one. The list of paths stays good.
pub fn laws_of_shapes()
    ensures shapes_stay { ShapesStay }
    ensures words_stay { WordsStay }
    ensures are_one { ShapesAreOne }
    ensures stay_good { ListsStayGood }
{}
