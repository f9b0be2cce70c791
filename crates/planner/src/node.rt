// What a search keeps and what it replies.
ghost use Rattle.std.specs.Prelude.{◌≡◌};
ghost use Rattle.planner.specs.Search.{node, link, goes_on};

// A kept state, with its link: the number of the state it was reached from, and the action that led here. The link is
// two plain numbers, since callers lend these tables: a link that is not to a lower number, as that of 0, is not taken.
#[derive(Clone, Copy, PartialEq, Eq, Debug)]
pub struct Node<S> {
    pub state: S,
    pub parent: usize,
    pub action: usize,
}

impl<S> Node<S> {
    // From which number the state was reached, and by which action.
    pub(crate) fn link(&self) -> Link
        ensures { result ≡ link self.now.parent self.now.action }
    {
        Link {
            parent: self.parent,
            action: self.action,
        }
    }

    // A node with no link, as the start has, and a place that is not used yet.
    pub fn unlinked(state: S) -> Node<S>
        ensures { result ≡ node state 0 0 }
    {
        Node {
            state,
            parent: 0,
            action: 0,
        }
    }
}

// The way to a target: the number of the last kept state on it, the last action, and how many actions it has.
#[derive(Clone, Copy, PartialEq, Eq, Debug)]
pub struct Way {
    pub(crate) parent: usize,
    pub(crate) action: usize,
    pub(crate) length: usize,
}

impl Way {
    // The link of its last action.
    pub(crate) fn last(&self) -> Link
        ensures { result ≡ link self.now.parent self.now.action }
    {
        Link {
            parent: self.parent,
            action: self.action,
        }
    }

    // How many actions the way has.
    pub fn length(&self) -> usize
        ensures { result ≡ self.now.length }
    {
        self.length
    }
}

#[derive(Clone, Copy, PartialEq, Eq, Debug)]
pub enum Outcome {
    // a target was met
    Found(Way),
    // no state waits
    Exhausted,
    // a state waits
    Open,
}

// The outcome, with the expanded and kept states of the whole search.
#[derive(Clone, Copy, PartialEq, Eq, Debug)]
pub struct Reply {
    pub outcome: Outcome,
    pub expanded: usize,
    pub kept: usize,
}

// Where a search stands between two calls; its nodes and marks are in the caller's memory.
// Numbers below `expanded` are expanded, those from there below `kept` wait.
#[derive(Clone, Copy)]
pub(crate) struct Progress {
    pub(crate) expanded: usize,
    pub(crate) kept: usize,
    pub(crate) met: Option<Link>,
}

impl Progress {
    // No target is met yet, and a state waits.
    pub(crate) fn goes_on(&self) -> bool
        ensures { result ≡ goes_on self.now.met self.now.expanded self.now.kept }
    {
        self.met.is_none() && self.expanded < self.kept
    }
}

// From which number, by which action.
#[derive(Clone, Copy)]
pub(crate) struct Link {
    pub(crate) parent: usize,
    pub(crate) action: usize,
}
