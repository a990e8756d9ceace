//! What holds of steps and paths themselves, apart from the code that finds them.
ghost use Rattle.std.specs.Prelude.{◌≡◌, ◌≤◌, ℕ, false, List, [], ◌∷◌, ◌++◌, length};
ghost use Rattle.nx_tree.specs.Forest.{OrderedTree, Forest};
ghost use Rattle.nx_reach.specs.declared.step.Step.{Step};
ghost use Rattle.nx_reach.specs.declared.finder.Finder.{Finder};
ghost use Rattle.nx_reach.specs.ByLast.{NoneMatchRoot, LastIsChild, LastIsBelow};
ghost use Rattle.nx_reach.specs.Reach.{Matches, HasLabel, HasOneFound, has_label, label_of};
ghost use Rattle.nx_reach.specs.Fit.{found_in};
ghost use Rattle.nx_reach.specs.Seen.{Seen, Goes};
ghost use Rattle.nx_reach.specs.Text.{SaysSteps, AreLabelled, name_steps_text};

/// Which paths steps match, by the last step: none match the empty path alone; those that end in a
/// child step match a path whose node has the label where those before match the path without its
/// last position, and those that end in a descendant step where those before match a shorter
/// beginning of it.
pub fn matches_by_last()
    ensures none { NoneMatchRoot }
    ensures child { LastIsChild }
    ensures below { LastIsBelow }
{}

/// There is exactly one list of the paths that match, in document order, each once.
pub fn one_list()
    ensures { (tree : OrderedTree) (steps : List Step) → HasOneFound tree steps }
{}

/// A node that matches has the last step's label.
pub fn last_label()
    ensures { (tree : OrderedTree) (path : List ℕ) (before : List Step) (step : Step) → Matches tree path (before ++ step ∷ []) → HasLabel tree path (label_of step) }
{}

/// Below any place a walk finds nothing among trees without a node of the last step's label, so they
/// may be skipped.
pub fn nothing_there()
    ensures { (before : List Step) (step : Step) (labels : List (List ℕ)) (path : List ℕ) (position : ℕ) (forest : Forest) →
        has_label (label_of step) forest ≡ false → found_in (before ++ step ∷ []) labels path position forest ≡ [] }
{}

/// A text says one list of steps at most.
pub fn one_reading()
    ensures { (text : List ℕ) (steps others : List Step) → SaysSteps text steps → SaysSteps text others → steps ≡ others }
{}

/// Each list of 1 to 64 steps for labels of children has its text.
pub fn has_text()
    ensures { (steps : List Step) → 1 ≤ length steps → length steps ≤ 64 → AreLabelled steps → SaysSteps (name_steps_text steps) steps }
{}

/// A finder goes on step by step.
pub fn goes_on()
    ensures nothing { (finder : Finder) → Goes finder [] finder }
    ensures more { (old mid new : Finder) (first last : List Seen) → Goes old first mid → Goes mid last new → Goes old (first ++ last) new }
{}
