//! What probing finds, and what a number that is put leaves found.
ghost use Rattle.linear_probing.specs.TableLaws.{ComesEverywhere, FewerLeaveOneFree, NoneWhereFree};
ghost use Rattle.linear_probing.specs.TableLaws.{EmptyFindsAll, PutIsFound};

/// Probing comes to each place, and where fewer numbers than places stand one is free. Where it ends
/// at a free place, the number stands nowhere; with the number put there all are found again.
pub fn laws_of_probing()
    ensures everywhere { ComesEverywhere }
    ensures free { FewerLeaveOneFree }
    ensures none { NoneWhereFree }
    ensures empty { EmptyFindsAll }
    ensures put { PutIsFound }
{}
