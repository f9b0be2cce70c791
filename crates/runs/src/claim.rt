// What a caller holds of an open search: a ticket while it goes on, a find once it has found a way, a stub once it is
// exhausted. Each must be spent by exactly one call; none can be copied or let go.
ghost use Rattle.std.specs.Prelude.{◌≡◌, ℕ};
ghost use Rattle.runs.specs.declared.claim.Phase.{Phase};
ghost use Rattle.runs.specs.declared.claim.Phase.TheVariants.{Working, Met, Ended};
ghost use Rattle.runs.specs.Calls.{phase_of, given, handed_back};

use domain::refusal::Refusal;
use planner::node::Outcome;
use std::marker::{Model, PhantomData};

// How far a search has come: it goes on, it has met a target, or it has ended exhausted.
#[derive(Clone, Copy, PartialEq, Eq, Debug)]
pub enum Phase {
    Working,
    Met,
    Ended,
}

// The phase of a search that last replied so.
impl From<Outcome> for Phase {
    ghost from_gives = { λ o p. p ≡ phase_of o };

    fn from(outcome: Outcome) -> Phase {
        match outcome {
            Outcome::Open => Phase::Working,
            Outcome::Found(_) => Phase::Met,
            Outcome::Exhausted => Phase::Ended,
        }
    }
}

// A type that stands for a phase.
pub trait Stage {
    const PHASE: Phase;

    ghost PHASE: { Phase };
}

pub struct IsWorking;

pub struct HasMet;

pub struct HasEnded;

impl Stage for IsWorking {
    ghost PHASE = { Working };

    const PHASE: Phase = Phase::Working;
}

impl Stage for HasMet {
    ghost PHASE = { Met };

    const PHASE: Phase = Phase::Met;
}

impl Stage for HasEnded {
    ghost PHASE = { Ended };

    const PHASE: Phase = Phase::Ended;
}

// The number of a search that had come so far. Contracts see the number.
pub struct SearchClaim<S> {
    number: usize,
    stage: PhantomData<S>,
}

impl<S> Model for SearchClaim<S> {
    ghost use Rattle.std.specs.Prelude.{ℕ};

    ghost Value = { ℕ };

    ghost view = { λ c. c.number };
}

// Allows work and abandon.
pub type Ticket = SearchClaim<IsWorking>;

// Allows adopt and abandon.
pub type Find = SearchClaim<HasMet>;

// Allows abandon.
pub type Stub = SearchClaim<HasEnded>;

impl<S> SearchClaim<S> {
    pub(crate) fn of(number: usize) -> SearchClaim<S>
        ensures { result ≡ number }
    {
        SearchClaim {
            number,
            stage: PhantomData,
        }
    }
}

// A claim bears the number of its search and nothing else of it; its kind says how far that search had come.
pub trait Claim {
    ghost numbered: { Self → ℕ };

    ghost kind: { Self → Phase };

    fn number(&self) -> usize
        ensures { result ≡ numbered self.now };

    fn phase(&self) -> Phase
        ensures { result ≡ kind self.now };

    // Spends the claim.
    fn spend(self);
}

impl<S: Stage> Claim for SearchClaim<S> {
    ghost numbered = { λ c. c };

    ghost kind = { λ _. S.PHASE };

    fn number(&self) -> usize {
        self.number
    }

    fn phase(&self) -> Phase {
        S::PHASE
    }

    fn spend(self) {
        let SearchClaim {
            number: _,
            stage: _,
        } = self;
    }
}

// A refused call: why, and the claim handed back.
pub struct Refused<C> {
    pub refusal: Refusal,
    pub claim: C,
}

// Spends the claim of a call that is not refused, and hands back that of one that is.
pub(crate) fn hand_back<X, C: Claim>(reply: Result<X, Refusal>, claim: C) -> Result<X, Refused<C>>
    ensures { result ≡ handed_back reply claim }
{
    match reply {
        Ok(x) => {
            claim.spend();
            Ok(x)
        }
        Err(refusal) => Err(Refused { refusal, claim }),
    }
}

// What a search gives back after work: a ticket while it goes on, a find with the way's length, or a stub.
pub enum Progressed {
    Open(Ticket),
    Found(Find, usize),
    Exhausted(Stub),
}

impl Progressed {
    // What the search of this number gives back.
    pub(crate) fn of(outcome: Outcome, number: usize) -> Progressed
        ensures { result ≡ given outcome number }
    {
        match outcome {
            Outcome::Open => Progressed::Open(SearchClaim::of(number)),
            Outcome::Found(way) => Progressed::Found(SearchClaim::of(number), way.length()),
            Outcome::Exhausted => Progressed::Exhausted(SearchClaim::of(number)),
        }
    }
}

// The reply of work: what is given back, and the expanded and kept states of the whole search.
pub struct Work {
    pub claim: Progressed,
    pub expanded: usize,
    pub kept: usize,
}
