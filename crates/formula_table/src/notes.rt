//! What is known of the numbers of a formula's cores, beside the formula: each sign of each
//! subformula is put once, however often it stands in the core.

ghost use Rattle.std.specs.Prelude.{◌≡◌, ℕ, List, IfOk};
ghost use Rattle.temporal_logic.specs.Ltl.{Ltl};
ghost use Rattle.bound_unfolding.specs.CoreForm.{CoreForm};
ghost use Rattle.bound_unfolding.specs.CoreTree.{core_tree};
ghost use Rattle.formula_table.specs.KnownNumbers.{first_operand, second_operand, IsNumber, AreNumbers, AreKnown, AreBothKnown};

use crate::shape::FormulaId;
use std::alloc::{AllocFailed, Global};

/// The numbers of the two cores of a formula, as far as they are known.
#[derive(Clone, Copy)]
pub(crate) struct Numbers {
    positive: Option<FormulaId>,
    negative: Option<FormulaId>,
}

impl Numbers {
    /// The numbers with that of one sign.
    pub(crate) fn with(self, sign: bool, id: FormulaId) -> Numbers
        ensures { (sizes : List ℕ) (closure : List CoreForm) (f : Ltl) → AreNumbers sizes closure f self → IsNumber closure (core_tree sizes sign f) (Some id) → AreNumbers sizes closure f result }
    {
        if sign {
            Numbers {
                positive: Some(id),
                negative: self.negative,
            }
        } else {
            Numbers {
                positive: self.positive,
                negative: Some(id),
            }
        }
    }
}

/// What is known of a formula, and of its operands.
#[derive(Drop)]
pub(crate) enum Notes {
    /// Nothing is known.
    Unmet,
    /// The numbers of the formula, and what is known of its two operands.
    Met(Numbers, Box<(Notes, Notes)>),
}

impl Notes {
    /// The number of the core of a sign, where it is known.
    pub(crate) fn number(&self, sign: bool) -> Option<FormulaId>
        ensures { (sizes : List ℕ) (closure : List CoreForm) (f : Ltl) → AreKnown sizes closure f self.now → IsNumber closure (core_tree sizes sign f) result }
    {
        match self {
            Notes::Unmet => None,
            Notes::Met(numbers, _) => {
                if sign {
                    numbers.positive
                } else {
                    numbers.negative
                }
            }
        }
    }

    /// The numbers, and what is known of the two operands.
    pub(crate) fn opened(
        self,
        alloc: Global,
    ) -> Result<(Numbers, Box<(Notes, Notes)>), AllocFailed<(Notes, Notes)>>
        ensures { IfOk result (λ r. (sizes : List ℕ) (closure : List CoreForm) (f : Ltl) → AreKnown sizes closure f self → AreNumbers sizes closure f r.0 × AreBothKnown sizes closure (first_operand f) (second_operand f) r.1.value) }
    {
        match self {
            Notes::Unmet => {
                let numbers = Numbers {
                    positive: None,
                    negative: None,
                };
                let operands = Box::new(alloc, (Notes::Unmet, Notes::Unmet))?;
                Ok((numbers, operands))
            }
            Notes::Met(numbers, operands) => Ok((numbers, operands)),
        }
    }
}
