//! The tableau of a query, for those who build it and those who check what was built: which nodes a
//! node leads to, when a certificate eliminates them all, when a walk closes to a lasso, and the
//! laws that tie all three to truth.
#![tactic(auto)]

mod answer;
mod begun;
mod bits;
mod certificate;
mod edges;
mod effect;
mod formula_rule;
mod formulas;
mod graph;
mod kids;
mod kind;
mod law;
mod level;
mod node;
mod query;
mod tableau;

pub use answer::{Answer, Answerer};
pub use bits::Bits;
pub use certificate::{Cert, CertNode, Mark, Reason};
pub use edges::{Edges, Kids, does_carry, links_of};
pub use graph::{Graph, GraphNode};
pub use kind::RuleKind;
pub use law::{
    law_of_carrying, law_of_certificates, law_of_nodes, law_of_sizes, law_of_the_rule, law_of_walks,
};
pub use level::{does_fulfil, levels};
pub use node::Node;
pub use query::Query;
pub use tableau::{NodeTurn, is_kid, is_root, kid, make_kid, root, rule, turn};
