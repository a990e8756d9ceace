//! What holds of bounds and plans themselves, apart from the code that checks, reads and writes them.
ghost use Rattle.std.specs.Prelude.{◌≡◌, ℕ, List, Some};
ghost use Rattle.nx_parts.specs.declared.plan.Plan.{Plan};
ghost use Rattle.nx_bounds.specs.declared.text.PlanLine.{PlanLine};
ghost use Rattle.nx_bounds.specs.Law.{LowerBound, MinimaAreSupported};
ghost use Rattle.nx_bounds.specs.PlanText.{HasText, ReadsAs, plan_line, line_text, plan_text};
ghost use Rattle.nx_bounds.specs.Verdict.{IsSparedRefusals, HasOneRefusal, HasVerdict};

/// Where bounds are supported, the bound of each node is true of every feasible partitioning of the
/// subtree of that node.
pub fn lower_bound()
    ensures { LowerBound }
{}

/// The minima of all nodes are supported.
pub fn minima()
    ensures { MinimaAreSupported }
{}

/// A sound plan has no refusal but want of memory, no plan has two beside it, and a plan that has none
/// is sound.
pub fn verdict()
    ensures spared { IsSparedRefusals }
    ensures one { HasOneRefusal }
    ensures every { HasVerdict }
{}

/// The text of a plan reads as that plan, and a line of a plan is the text of what it says.
pub fn plans()
    ensures reads { (plan : Plan) → HasText plan → ReadsAs (plan_text plan) plan }
    ensures lines { (line : List ℕ) (said : PlanLine) → plan_line line ≡ Some said → line_text said ≡ line }
{}
