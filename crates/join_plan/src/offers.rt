//! How the atoms that are left may be gone through, and which of them is the cheapest.
ghost use Rattle.std.specs.Prelude.{◌≡◌, ◌<◌, length, All};
ghost use Rattle.std.specs.Bool.{OnFalse, OnTrue};
ghost use Rattle.query_shape.specs.Shape.{IsBelow};
ghost use Rattle.join_plan.specs.Choice.{IsCheapest, IsNoDearer, IsOfferFor};
ghost use Rattle.join_plan.specs.declared.offers.Cost.TheVariants as cost;
ghost use Rattle.join_plan.specs.declared.steps.AccessPath.TheVariants as path;

use crate::candidates::Candidate;
use crate::steps::AccessPath;
use dl_base::Role;
use query_shape::ShapeAtom;

/// What it costs to go through an atom, cheapest first.
#[derive(Clone, Copy, Debug, PartialEq, Eq, PartialOrd, Ord)]
pub(crate) enum Cost {
    /// A look at a pair.
    Check,
    /// A look at an element.
    Probe,
    /// A walk, which leads to so many elements at most.
    Walk(u64),
    /// A scan of so many elements.
    Scan(u64),
}

impl Cost {
    /// Whether this costs less than the other.
    fn is_less(self, other: Cost) -> bool
        ensures less { OnTrue result (IsNoDearer self other) }
        ensures not_less { OnFalse result (IsNoDearer other self) }
    {
        self < other
    }
}

/// A way to go through an atom.
#[derive(Clone, Copy, Debug)]
pub(crate) struct Offer {
    /// How the atom is gone through.
    pub path: AccessPath,
    /// What that costs.
    pub cost: Cost,
    /// Whether the first term that gets an element by it is to have it early. No contract sees this.
    pub early: bool,
}

impl Offer {
    /// Whether this comes before the other: it costs less, or as much, and gives an element to a term that is to have it early.
    fn is_better(self, other: Offer) -> bool
        ensures better { OnTrue result (IsNoDearer self.cost other.cost) }
        ensures not_better { OnFalse result (IsNoDearer other.cost self.cost) }
    {
        if self.cost.is_less(other.cost) {
            return true;
        }
        !other.cost.is_less(self.cost) && self.early && !other.early
    }
}

/// One of the candidates, by its index, and how it is gone through.
#[derive(Clone, Copy, Debug)]
pub(crate) struct Choice {
    /// Which candidate it is.
    pub index: usize,
    /// The way to go through it.
    pub offer: Offer,
}

/// The cheapest candidate, where these terms are known, and of those that cost as much one that gives an element to a term
/// that is to have it early.
pub(crate) fn cheapest(left: &[Candidate], known: &[bool], early: &[bool]) -> Choice
    requires some { 0 < length left.now }
    requires below { All (λ c. IsBelow (length known.now) c.atom) left.now }
    requires early { length early.now ≡ length known.now }
    ensures { IsCheapest left.now (length left.now) known.now result }
{
    let mut best = Choice {
        index: 0,
        offer: offer_for(&left[0], known, early),
    };
    for index in 1..left.len() {
        let offer = offer_for(&left[index], known, early);
        if offer.is_better(best.offer) {
            best = Choice { index, offer };
        }
    }
    best
}

/// The way to go through the candidate, where these terms are known and those are to have an element early.
fn offer_for(candidate: &Candidate, known: &[bool], early: &[bool]) -> Offer
    requires below { IsBelow (length known.now) candidate.now.atom }
    requires early { length early.now ≡ length known.now }
    ensures { IsOfferFor known.now candidate.now result }
{
    let Candidate { first, last, .. } = *candidate;
    match candidate.atom {
        ShapeAtom::Concept { concept, term } if known[term as usize] => Offer {
            path: AccessPath::ProbeConcept { concept, term },
            cost: Cost::Probe,
            early: false,
        },
        ShapeAtom::Concept { concept, term } => Offer {
            path: AccessPath::ScanConcept { concept, term },
            cost: Cost::Scan(first),
            early: early[term as usize],
        },
        ShapeAtom::Role { role, from, to } => {
            match (known[from as usize], known[to as usize]) {
                (true, true) => check(role, from, to),
                (true, false) => walk(role, from, to, last, early),
                (false, true) => walk(role.inverted(), to, from, first, early),
                (false, false) if first < last => scan(role, from, to, first, early),
                (false, false) if first > last || is_later(from, to, early) => {
                    scan(role.inverted(), to, from, last, early)
                }
                (false, false) => scan(role, from, to, first, early),
            }
        }
    }
}

/// A look at the pair of two known terms.
fn check(role: Role, from: u32, to: u32) -> Offer
    ensures path { result.path ≡ path.CheckPair role from to }
    ensures cost { result.cost ≡ cost.Check }
{
    let path = AccessPath::CheckPair { role, from, to };
    Offer {
        path,
        cost: Cost::Check,
        early: false,
    }
}

/// Whether the other term is to have its element early, and this one isn't.
fn is_later(term: u32, other: u32, early: &[bool]) -> bool
    requires term { term < length early.now }
    requires other { other < length early.now }
{
    early[other as usize] && !early[term as usize]
}

/// A walk that leads to so many elements at most.
fn walk(role: Role, from: u32, to: u32, targets: u64, early: &[bool]) -> Offer
    requires { to < length early.now }
    ensures path { result.path ≡ path.WalkEdges role from to }
    ensures cost { result.cost ≡ cost.Walk targets }
{
    let path = AccessPath::WalkEdges { role, from, to };
    Offer {
        path,
        cost: Cost::Walk(targets),
        early: early[to as usize],
    }
}

/// A scan of the role's elements, of which there are so many.
fn scan(role: Role, from: u32, to: u32, sources: u64, early: &[bool]) -> Offer
    requires { from < length early.now }
    ensures path { result.path ≡ path.ScanRole role from to }
    ensures cost { result.cost ≡ cost.Scan sources }
{
    let path = AccessPath::ScanRole { role, from, to };
    Offer {
        path,
        cost: Cost::Scan(sources),
        early: early[from as usize],
    }
}
