//! The targets of the references of an exchange structure, according to the classes of its
//! instances.

ghost use Rattle.merge_output.specs.steps.Leading.{led_by};

use population_rows::index::RowIndex;
use step_exchange::reference_targets::Leads;

/// Maps each name to the first member of its class; an unknown name stays as it is.
#[derive(Clone, Copy)]
pub struct Heads<'r> {
    pub(crate) index: &'r RowIndex,
    /// By row, the name of the first member of its class.
    pub(crate) heads: &'r [u64],
}

impl<'r> Leads for Heads<'r> {
    ghost led = { λ h. led_by h.index.now h.heads.now };

    fn lead(&self, name: u64) -> u64 {
        let Some(row) = self.index.find(name) else {
            return name;
        };
        match self.heads.get(row as usize) {
            Some(head) => *head,
            None => name,
        }
    }

    fn is_itself(&self) -> bool {
        false
    }
}
