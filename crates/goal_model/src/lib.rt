//! From the statements of a text to its model: every name is looked up, or the first fault is named. For whoever asks something of a model.
#![tactic(auto)]

mod agents;
mod assignment_items;
mod conflict_items;
mod contents;
mod demand;
mod draft;
mod formula;
mod item;
mod item_size;
mod label;
mod law;
mod links;
mod list_size;
mod model;
mod name_index;
mod namespace;
mod obstruction_items;
mod operation_items;
mod operations;
mod part_weight;
mod parts;
mod pattern;
mod properties;
mod reachability;
mod refinement_items;
mod refusal;
mod resolution;
mod states;
mod terms;
mod traces;
mod value_index;
mod variable_list;
mod variables;

pub use contents::{Agent, Goal, Link, NamedTrace, Obstacle, Operation, Property, Requirement};
pub use demand::{Demand, demand_list, domain_demand, link_demands, requirement_tree};
pub use item::{Item, Label, LabelKind, Part, Wanted, link_items};
pub use label::label_text;
pub use law::{law_of_cycles, law_of_limits, law_of_outcomes};
pub use model::Model;
pub use pattern::PatternKind;
pub use refusal::{ModelRefusal, RefusalKind};
pub use resolution::resolve;
