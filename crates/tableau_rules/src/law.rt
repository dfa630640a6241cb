//! The laws of the tableau. Each is the contract of a function that does nothing, so that the check
//! proves it.

ghost use Rattle.std.specs.Prelude.{◌≡◌, ℕ, ◌<◌, ◌≤◌, ◌⊎◌, List, length, Contains, IsTrue};
ghost use Rattle.std.specs.List.{All};
ghost use Rattle.temporal_logic.specs.Truth.{Trace};
ghost use Rattle.temporal_logic.specs.Traces.{TraceFits, IsPeriodic};
ghost use Rattle.bound_unfolding.specs.CoreForm.{CoreForm};
ghost use Rattle.formula_table.specs.Closures.{formula_at, closure_of};
ghost use Rattle.state_space.specs.Members.{full_of};
ghost use Rattle.tableau_rules.specs.Nodes.{NodeForm, carries, node_rule, kids};
ghost use Rattle.tableau_rules.specs.Meeting.{KeepsMeeting};
ghost use Rattle.tableau_rules.specs.Certificates.{CertNodeForm, is_until, IsOfQuery, IsValid};
ghost use Rattle.tableau_rules.specs.Graphs.{IsReached, HasSize, IsLarger, GraphNodeForm, IsWhole};
ghost use Rattle.tableau_rules.specs.Queries.{IsOver, MeetsAll};
ghost use Rattle.tableau_rules.specs.Walks.{FulfilsIn, IsClosedWalk, states, IsAnswer};

/// A trace meets a node of a query exactly where it meets one of the node's kids, as its rule has
/// it.
pub fn law_of_the_rule()
    ensures meeting { (sizes : List ℕ) (cores : List CoreForm) → All (IsOver sizes) cores
        → (t : Trace) → IsPeriodic sizes t
        → (n : NodeForm) → length n.now ≡ length sizes → (i : ℕ)
        → KeepsMeeting t (closure_of cores) (full_of sizes) i n (node_rule (closure_of cores) n) }
{}

/// Where a certificate is valid for a query, no trace that keeps to the sizes meets the query.
pub fn law_of_certificates()
    ensures refuted { (sizes : List ℕ) (cores : List CoreForm) (cert : List CertNodeForm)
        → IsValid sizes cores cert
        → (t : Trace) → TraceFits sizes t → ¬ (MeetsAll t cores) }
{}

/// Where a walk in the tableau of a query closes to a loop on which each until is settled, the
/// states along it make a lasso that meets the query.
pub fn law_of_walks()
    ensures answer { (sizes : List ℕ) → All (λ size. size ≤ 64) sizes
        → (cores : List CoreForm) → All (IsOver sizes) cores
        → (stem loop : List NodeForm) → IsClosedWalk sizes cores stem loop
        → IsAnswer sizes cores (states stem) (states loop) }
{}

/// An until that a node carries is carried by each of its kids, but for the kid in which it is
/// fulfilled.
pub fn law_of_carrying()
    ensures carried { (sizes : List ℕ) (cores : List CoreForm)
        → (e : ℕ) → IsTrue (is_until (formula_at (closure_of cores) e))
        → (n m : NodeForm) → IsTrue (carries e n)
        → Contains (kids (closure_of cores) (full_of sizes) n) m
        → FulfilsIn (closure_of cores) (full_of sizes) e n m ⊎ IsTrue (carries e m) }
{}

/// Each node that the root of a query leads to is a node of the query.
pub fn law_of_nodes()
    ensures of_query { (sizes : List ℕ) (cores : List CoreForm) (n : NodeForm)
        → IsReached sizes cores n → IsOfQuery sizes (closure_of cores) n }
{}

/// A query has one size at most. It is over each budget that the query is larger than, and it is
/// how many nodes a whole graph has.
pub fn law_of_sizes()
    ensures one { (sizes : List ℕ) (cores : List CoreForm) (m n : ℕ)
        → HasSize sizes cores m → HasSize sizes cores n → m ≡ n }
    ensures over { (sizes : List ℕ) (cores : List CoreForm) (size budget : ℕ)
        → HasSize sizes cores size → IsLarger sizes cores budget → budget < size }
    ensures whole { (sizes : List ℕ) (cores : List CoreForm) (graph : List GraphNodeForm)
        → IsWhole sizes cores graph → HasSize sizes cores (length graph) }
{}
