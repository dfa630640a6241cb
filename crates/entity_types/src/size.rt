//! How large the plain formula of a written one is, without making it: two quantifiers over types
//! of eight members have 64 copies of what stands in both. Counts stay at 4,097, one more than any
//! core may have.

ghost use Rattle.std.specs.Prelude.{◌≡◌, ℕ, ◌<◌, ◌≤◌, ◌+◌, ◌-◌, ◌*◌, [], List, length, min};
ghost use Rattle.entity_types.specs.Rows.{count_of};
ghost use Rattle.entity_types.specs.View.{written_tree, rows_of};
ghost use Rattle.entity_types.specs.Grounding.{ground_of, nodes};
ghost use Rattle.entity_types.specs.Fits.{Fits, TypesAreThere};

use crate::entities::Entities;
use crate::written::Written;

// The most that is counted.
const MOST: u64 = 4097;

// The size of so many formulas of a size with an operator between each two.
fn grouped_size(count: u8, size: u64) -> u64
    requires some { 0 < count }
    requires size { size ≤ 4097 }
    ensures { result ≡ min (count * (size + 1) - 1) 4097 }
{
    (u64::from(count) * (size + 1) - 1).min(MOST)
}

// The size of the plain formula, under whatever choice.
#[tactic(auto, using(crate::proofs::Sizes::atom_size, crate::proofs::Sizes::opened_size, crate::proofs::Sizes::joined_size))]
fn size_under(entities: &Entities, f: &Written) -> u64
    requires { TypesAreThere (rows_of entities.now) (written_tree f.now) }
    ensures few { result ≤ 4097 }
    ensures size { (choice : List ℕ) → result ≡ min (nodes (ground_of (rows_of entities.now) choice (written_tree f.now))) 4097 }
{
    match f {
        Written::Atom(_) => 1,
        Written::Opened(_, a) => (size_under(entities, a) + 1).min(MOST),
        Written::Joined(_, operands) => {
            let first = size_under(entities, &operands.0);
            let second = size_under(entities, &operands.1);
            (first + second + 1).min(MOST)
        }
        Written::All(entity, a) => {
            grouped_size(entities.member_count(*entity), size_under(entities, a))
        }
        Written::Exists(entity, a) => {
            grouped_size(entities.member_count(*entity), size_under(entities, a))
        }
    }
}

/// How many nodes the plain formula of a written one has, counted up to 4,097.
#[tactic(auto, using(crate::proofs::Sizes::types_there))]
pub fn ground_size(entities: &Entities, f: &Written) -> u64
    requires fits { Fits (rows_of entities.now) [] (written_tree f.now) }
    ensures size { result ≡ min (nodes (ground_of (rows_of entities.now) [] (written_tree f.now))) 4097 }
{
    size_under(entities, f)
}
