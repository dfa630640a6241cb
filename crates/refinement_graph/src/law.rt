//! What the demands of a refinement mean, as the contract of a function that does nothing, so that the check proves it.

ghost use Rattle.std.specs.Prelude.{◌↔◌, ℕ, ◌++◌, Bool, List, All};
ghost use Rattle.goal_model.specs.declared.item.Wanted.TheVariants.{NoTrace, SomeTrace};
ghost use Rattle.temporal_logic.specs.Truth.{Trace, Truth};
ghost use Rattle.temporal_logic.specs.Traces.{IsPeriodic};
ghost use Rattle.goal_model.specs.Models.{ModelForm, LinkIsOf, sizes_of};
ghost use Rattle.operationalisation.specs.Operationalisations.{goal_at};
ghost use Rattle.goal_model.specs.Conditions.{Stands};
ghost use Rattle.goal_model.specs.Items.{complete_item, consistent_item, minimal_item};
ghost use Rattle.refinement_graph.specs.Refinements.{Entails, Coexist};
ghost use Rattle.refinement_graph.specs.Assurance.{IsAssured, AreRight, MeetsModel};

/// The demands of a refinement stand where it is complete, consistent and minimal (van Lamsweerde 2009): a parent of some subgoals is
/// entailed by them and the domain properties, these have a trace, and without a subgoal the parent is not entailed.
pub fn law_of_refinements()
    ensures complete { (m : ModelForm) (statement parent : ℕ) (subgoals : List ℕ)
        → Stands m NoTrace (complete_item m statement parent subgoals).parts ↔ Entails m subgoals parent }
    ensures consistent { (m : ModelForm) (statement parent : ℕ) (subgoals : List ℕ)
        → Stands m SomeTrace (consistent_item m statement parent subgoals).parts ↔ Coexist m subgoals }
    ensures minimal { (m : ModelForm) (statement parent subgoal : ℕ) (before behind : List ℕ)
        → Stands m SomeTrace (minimal_item m statement parent before subgoal behind).parts → Entails m (before ++ behind) parent → ⊥ }
{}

/// Where the refinements that are held are complete, and the operationalisations that are held achieve their goals, a goal that is assured is
/// true at the start of each ultimately periodic trace that has the domain properties and the expected goals, and meets the requirements.
pub fn law_of_assurance()
    ensures { (m : ModelForm) → All (LinkIsOf m) m.links → (holds : List Bool) → AreRight m holds
        → (t : Trace) → IsPeriodic (sizes_of m) t → MeetsModel m t → (g : ℕ) → IsAssured m holds g → Truth t (goal_at m g) 0 }
{}
