//! Of two flaws the one of the lower address.
ghost use Rattle.std.specs.Prelude.{◌≡◌};
ghost use Rattle.heap_check.specs.Firsts.{earlier_of, earlier_flaw_of};

use crate::flaw::Flaw;

/// Of two flaws the one of the lower address; the first where they have one address.
pub(crate) fn earlier(one: Option<Flaw>, other: Option<Flaw>) -> Option<Flaw>
    ensures { result ≡ earlier_of one other }
{
    match one {
        None => other,
        Some(flaw) => Some(earlier_flaw(flaw, other)),
    }
}

/// The flaw, or the other one if that has a lower address.
fn earlier_flaw(flaw: Flaw, other: Option<Flaw>) -> Flaw
    ensures { result ≡ earlier_flaw_of flaw other }
{
    match other {
        None => flaw,
        Some(next) => { if next.at < flaw.at { next } else { flaw } }
    }
}
