//! Linear forms of expressions and conditions along the paths of a message, which say when a path is partial.
#![tactic(auto)]

mod arithmetic;
mod aspect;
mod builder;
mod checkable;
mod choices;
mod condition;
mod division;
mod entry;
mod fault;
mod field;
mod forms;
mod gather;
mod interval;
mod laws;
mod limit;
mod linear;
mod number;
mod within;
mod work;

pub use arithmetic::{constant, copy, minus, term};
pub use aspect::{first_form, size_form};
pub use builder::{Builder, start};
pub use checkable::{Checkable, CheckableSpec};
pub use condition::condition_form;
pub use division::divide;
pub use entry::{size_of, variable_form, variable_of};
pub use fault::{FormFault, NoMemory};
pub use field::FieldForms;
pub use forms::{Forms, forms_of, forms_with};
pub use gather::{gather_fields, scalars_along};
pub use interval::interval as interval_of;
pub use laws::{
    division_rows_hold, facts_hold_where_conditions_do, forms_have_values, links_have_forms,
    numbers_place_fields, partial_paths_make_rows, quotients_solve_divisions,
    rows_hold_of_quotients, rows_leave_one_point, rows_leave_quotients_no_choice,
    rows_make_paths_partial, sums_have_values,
};
pub use linear::{Form, Linear};
pub use number::{bits, number_form};
pub use within::{keeps_limit, limit_is_kept, paths_to_nodes_are_few};
pub use work::Work;
