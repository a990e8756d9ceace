//! What a finder finds of a document that is laid out in records, some of which it isn't shown.
ghost use Rattle.std.specs.Prelude.{◌≡◌, ◌≤◌, Bool, ℕ, List, [], ◌∷◌, ◌++◌, sum_by, if◌then◌else◌};
ghost use Rattle.nx_tree.specs.declared.node.Node.{Node};
ghost use Rattle.nx_layouts.specs.Layout.{RecordPlace, Layout, laid_forest, places_of};
ghost use Rattle.nx_reach.specs.declared.step.Step.{Step};
ghost use Rattle.nx_reach.specs.declared.finder.Finder.{Finder};
ghost use Rattle.nx_reach.specs.Reach.{Found, label_of};
ghost use Rattle.nx_reach.specs.Seen.{Goes, HasComeTo};
ghost use Rattle.nx_names.specs.Shown.{shown_wanted, SkipsOnly};
ghost use Rattle.nx_names.specs.Labels.{HoldsLabels, entered_places};

/// A finder at a document's root, to which all below the root was shown, but for intervals without a
/// node of the last step's label at or below their members, has found what the steps match.
pub fn finder_finds()
    ensures { (node : Node) (before : List Step) (step : Step) (wanted : RecordPlace → Bool) (layout : Layout) (old new : Finder) →
        old.state.steps.now ≡ before ++ step ∷ [] → HasComeTo old (record { labels = []; path = []; next = 0; found = [] }) →
        Goes old (shown_wanted wanted layout) new → SkipsOnly (label_of step) wanted layout →
        Found (record { node = node; below = laid_forest layout }) (before ++ step ∷ []) new.found }
{}

/// With a map of the labels at or below each interval a walk may pass over those that don't hold the
/// last step's label. Whatever each interval costs, those that it comes to cost no more than all that
/// hold the label.
pub fn holds_skips()
    ensures skips { (holds : RecordPlace → List ℕ → Bool) (layout : Layout) (name : List ℕ) → HoldsLabels holds layout → SkipsOnly name (λ place. holds place name) layout }
    ensures few { (reads : RecordPlace → ℕ) (wanted : RecordPlace → Bool) (layout : Layout) →
        sum_by reads (entered_places wanted layout) ≤ sum_by (λ place. if wanted place then reads place else 0) (places_of layout) }
{}
