//! Laws of where the regions of a heap stand.
ghost use Rattle.page_space.specs.RegionLaws.{ExtentsAreDisjoint, ExtentsAreOfRegions};
ghost use Rattle.page_space.specs.RegionLaws.{ExtentsCover, ExtentsEnd, RegionsStand};
ghost use Rattle.page_space.specs.RegionLaws.{RegionsStandOnce, AddressesAreInOne, StartsAreInside};
ghost use Rattle.page_space.specs.RegionLaws.{RegionsStandByNumber, KindsStandByNumber};
ghost use Rattle.page_space.specs.RegionLaws.{WordsAreFew};

/// No word is in two regions, and each word is in one. Each region of a heap stands once, and what
/// stands is a region of the heap. The first address of a region is in that region. Each region
/// begins at a number that its kind and its own numbers give, and so does each kind of region.
/// There are at most 3,221,576 words.
pub fn laws_of_regions()
    ensures disjoint { ExtentsAreDisjoint }
    ensures in_one { AddressesAreInOne }
    ensures covering { ExtentsCover }
    ensures end { ExtentsEnd }
    ensures stand { RegionsStand }
    ensures once { RegionsStandOnce }
    ensures regions { ExtentsAreOfRegions }
    ensures starts { StartsAreInside }
    ensures by_number { RegionsStandByNumber }
    ensures kinds { KindsStandByNumber }
    ensures few { WordsAreFew }
{}
