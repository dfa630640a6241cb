//! What coverage is for, as the contract of a function that does nothing, so that the check proves it.

ghost use Rattle.std.specs.Prelude.{◌≡◌, ℕ, ◌↔◌, Contains, IsFalse};
ghost use Rattle.temporal_logic.specs.Ltl.{Ltl};
ghost use Rattle.temporal_logic.specs.Shapes.{variables_of};
ghost use Rattle.temporal_logic.specs.Truth.{Trace, Truth};
ghost use Rattle.goal_model.specs.Models.{AgentForm};
ghost use Rattle.agent_capabilities.specs.Coverage.{coverage, covered, not_monitored, not_controlled, is_seen, is_controlled, AgreeFor};

/// A goal that an agent covers has the same truth on traces that agree on what the agent monitors or controls. A variable that it lacks
/// occurs in the goal, and the agent does not see or does not control it.
pub fn law_of_coverage()
    ensures truth { (agent : AgentForm) (goal : Ltl) → coverage agent goal ≡ covered
        → (t u : Trace) → AgreeFor agent t u → (i : ℕ) → Truth t goal i ↔ Truth u goal i }
    ensures unseen { (agent : AgentForm) (goal : Ltl) (x : ℕ) → coverage agent goal ≡ not_monitored x
        → Contains (variables_of goal) x × IsFalse (is_seen agent x) }
    ensures uncontrolled { (agent : AgentForm) (goal : Ltl) (x : ℕ) → coverage agent goal ≡ not_controlled x
        → Contains (variables_of goal) x × IsFalse (is_controlled agent x) }
{}
