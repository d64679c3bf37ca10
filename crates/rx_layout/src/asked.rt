//! What is asked at the end of a path.

ghost use Rattle.std.specs.Prelude.{◌≡◌, [], ◌∷◌, ◌++◌, ◌+◌, ◌≤◌, IfOk};
ghost use Rattle.rx_types.specs.Narrow.{IsShort};
ghost use Rattle.rx_layout.specs.QueryOf.{unit_rows};

use crate::formula::push_units;
use rx_forms::{Form, FormFault, Work};
use rx_types::Interval;
use sqlite_items::Items;
use std::alloc::Global;

/// Facts, the rows of their divisions, and the number of the next variable.
#[derive(Drop)]
pub struct Asked {
    pub forms: Items<Form>,
    pub work: Work,
}

impl Asked {
    /// Nothing is asked, and the variables from a number on are free.
    pub fn nothing(alloc: Global, next: usize) -> Asked
        ensures { result ≡ record { forms = []; work = record { next = next; rows = [] } } }
    {
        Asked {
            forms: Items::new(alloc),
            work: Work {
                next,
                rows: Items::new(alloc),
            },
        }
    }

    /// A fact is asked, too.
    pub fn with(self, form: Form) -> Result<Asked, FormFault>
        ensures { IfOk result (λ asked. asked ≡ record { forms = self.forms ++ form ∷ []; work = self.work }) }
    {
        let Asked { mut forms, work } = self;
        forms.push(form)?;
        Ok(Asked { forms, work })
    }

    /// The next variable is the quotient by 8 of a number in an interval.
    pub fn with_quotient(self, alloc: Global, interval: &Interval) -> Result<Asked, FormFault>
        requires short { IsShort interval.now }
        requires room { self.work.next ≤ 191 }
        ensures { IfOk result (λ asked. asked ≡ record { forms = self.forms; work = record { next = self.work.next + 1; rows = self.work.rows ++ unit_rows self.work.next interval.now } }) }
    {
        let Asked { forms, work } = self;
        let Work { next, mut rows } = work;
        push_units(alloc, next, interval, &mut rows)?;
        let work = Work {
            next: next + 1,
            rows,
        };
        Ok(Asked { forms, work })
    }
}
