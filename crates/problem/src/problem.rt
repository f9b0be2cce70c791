// The problem that a text means, or its first fault.
ghost use Rattle.std.specs.Prelude.{◌≡◌, ◌<◌, ◌≤◌, List, [], length, take, replicate, IfOk, Some, None, Ok, MatchResult};
ghost use Rattle.domain.specs.declared.strips.Action.{Action};
ghost use Rattle.sketch.specs.Fault.{sketch_fault};
ghost use Rattle.sketch.specs.Sketch.{features_of, rules_of};
ghost use Rattle.problem.specs.Problem.{features_read, rules_read, most_actions, blank_actions, text_problem, limited_problem, Read};
ghost use Rattle.problem.specs.Text.{read_text, Ends};
ghost use Rattle.problem.specs.declared.reader.Reader.{Reader};

use crate::fault::{LineFault, ProblemFault};
use crate::reader::Reader;
use crate::reading::read_lines;
use crate::tables::{MAX_FEATURES, MAX_RULES};
use domain::atoms::AtomSet;
use domain::model::MAX_ACTIONS;
use domain::refusal::Refusal;
use domain::strips::Action;
use sketch::feature::Feature;
use sketch::rule::Rule;
use sketch::sketch::Sketch;

// The longest text that a program should take.
pub const MAX_BYTES: usize = 16_384;

// A problem whose actions stand at the first of the places that were lent to `read`.
#[derive(Clone, Copy)]
pub struct Problem {
    // how many atoms there are
    pub atoms: usize,
    // the atoms that are true at the start
    pub start: AtomSet,
    // the atoms that are true at a target
    pub goal: AtomSet,
    // how many actions there are
    pub action_count: usize,
    pub sketch: Sketch,
}

impl Reader {
    // The sketch of the features and the rules, if the sieve accepts it.
    fn sketch(&self) -> Result<Sketch, Refusal>
        ensures faults { MatchResult result (λ _. sketch_fault (features_read self.now) (rules_read self.now) ≡ None) (λ e. sketch_fault (features_read self.now) (rules_read self.now) ≡ Some e) }
        ensures given { IfOk result (λ s. (features_of s ≡ features_read self.now) × (rules_of s ≡ rules_read self.now)) }
    {
        let mut features = [Feature::blank(); MAX_FEATURES];
        let mut rules = [Rule::blank(); MAX_RULES];
        Sketch::new(
            self.features.list(&mut features),
            self.rules.list(&mut rules),
        )
    }
}

// Reads a text with no place for its actions.
fn check_lines(text: &[u8], limit: usize) -> Result<Reader, LineFault>
    requires { limit ≤ 1024 }
    ensures { Ends (read_text limit [] text.now) [] result }
{
    let mut places: [Action; 0] = [];
    read_lines(text, limit, &mut places)
}

// Writes the actions of a text that was found good to places that are as many, or fewer.
fn fill_actions(text: &[u8], limit: usize, places: &mut [Action])
    requires { limit ≤ 1024 }
    ensures { (s : Reader) (acts : List Action) → length places.old ≤ limit → read_text limit (blank_actions limit) text.now ≡ Ok (s, acts) → places.new ≡ take (length places.old) acts }
{
    places.fill(Action::default());
    let _ = read_lines(text, limit, places);
}

// The problem that a text means, with its actions at the first of the lent places, of which there may be at most as
// many as there are places and never more than 1,024; or the first fault, and then every place is as it was.
pub fn read(text: &[u8], actions: &mut [Action]) -> Result<Problem, ProblemFault>
    ensures { Read (text_problem (length actions.old) text.now) actions.old actions.new result }
{
    let limit = actions.len().min(MAX_ACTIONS);
    let reader = check_lines(text, limit)?;
    let sketch = reader.sketch()?;
    let count = reader.actions;
    fill_actions(text, limit, &mut actions[0..count]);
    Ok(Problem {
        atoms: reader.atoms.count,
        start: reader.atoms.start,
        goal: reader.atoms.goal,
        action_count: count,
        sketch,
    })
}

// The same for a text of at most `most` bytes; a longer one is refused before any line is looked at.
pub fn read_limited(
    text: &[u8],
    most: usize,
    actions: &mut [Action],
) -> Result<Problem, ProblemFault>
    ensures { Read (limited_problem most (length actions.old) text.now) actions.old actions.new result }
{
    if text.len() > most {
        return Err(ProblemFault::TooLong);
    }
    read(text, actions)
}
