// The closed list of refusals. Each has a number, and some a line or a place.
ghost use Rattle.std.specs.Prelude.{◌≡◌};
ghost use Rattle.domain.specs.Refusal.{number_of, place_of};

#[derive(Clone, Copy, PartialEq, Eq, Debug)]
pub enum Refusal {
    // a line is not of its table's form
    Form { line: usize },
    // a value is outside its range or kind
    Range { place: usize },
    // a table or a count exceeds its limit
    Limit { place: usize },
    // the sieve does not strike every rule
    RulesLeft { rules: usize },
    // a measure would have more than 65,536 keys
    ManyKeys,
    // begin at a target of the model
    AtTarget,
    // begin while a search is open
    SearchOpen,
    // begin after 65,535 searches
    ManySearches,
    // fewer places for states or marks than keys
    FewPlaces,
    // the ticket, find or stub is not of the open search
    ForeignClaim,
    // the plan list has too few free places
    PlanFull,
    // the found way has another length, or a link not to a lower number, or does not run, or ends at no target
    BrokenWay,
    // a step at or past the end of the plan or of its list
    NoStep,
}

impl Refusal {
    // The refusal's number in the closed list.
    pub fn number(&self) -> usize
        ensures { result ≡ number_of self.now }
    {
        match self {
            Refusal::Form { .. } => 1,
            Refusal::Range { .. } => 2,
            Refusal::Limit { .. } => 3,
            Refusal::RulesLeft { .. } => 4,
            Refusal::ManyKeys => 5,
            Refusal::AtTarget => 6,
            Refusal::SearchOpen => 7,
            Refusal::ManySearches => 8,
            Refusal::FewPlaces => 9,
            Refusal::ForeignClaim => 10,
            Refusal::PlanFull => 11,
            Refusal::BrokenWay => 12,
            Refusal::NoStep => 13,
        }
    }

    // The line or place that it carries, the number of rules left, or 0 where it has none.
    // A number in each case, not an Option: reports print one in that column.
    pub fn place(&self) -> usize
        ensures { result ≡ place_of self.now }
    {
        match self {
            Refusal::Form { line } => *line,
            Refusal::Range { place } => *place,
            Refusal::Limit { place } => *place,
            Refusal::RulesLeft { rules } => *rules,
            _ => 0,
        }
    }
}
