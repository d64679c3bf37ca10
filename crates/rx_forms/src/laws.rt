//! What holds of forms, each as the clause of a function that does nothing.

ghost use Rattle.rx_forms.specs.Links.{AreFormable, AreNarrow};
ghost use Rattle.rx_forms.specs.Laws.{SumsHaveValues, FactsHoldWhereTrue, RowsLeaveNoChoice, RowsHoldOfQuotients, QuotientsSolve, RowsMakePartial, PartialMakesRows, NumbersPlaceFields, FormsHaveValues, DivisionRowsHold, RowsLeaveOnePoint};
ghost use Rattle.rx_forms.specs.Code.{limits};

use rx_graph::Elaborated;

/// With the values of its division variables the sum of an expression has the expression's value.
pub fn sums_have_values()
    ensures { SumsHaveValues }
{}

/// With the values of its division variables the fact of a condition holds exactly where the condition is true, and that of
/// its negation exactly where it is false.
pub fn facts_hold_where_conditions_do()
    ensures { FactsHoldWhereTrue }
{}

/// The rows of the divisions leave the quotients no choice.
pub fn rows_leave_quotients_no_choice()
    ensures { RowsLeaveNoChoice }
{}

/// The rows of the divisions hold of the quotients, where the expression is narrow and the fields stay within their bounds.
pub fn rows_hold_of_quotients()
    ensures { RowsHoldOfQuotients }
{}

/// A point that goes on with the quotients of an expression solves its divisions.
pub fn quotients_solve_divisions()
    ensures { QuotientsSolve }
{}

/// The expressions of the links of an elaborated message have sums and facts, and are narrow.
pub fn links_have_forms(message: &Elaborated<'_>)
    ensures formable { AreFormable (limits message.now) message.now.graph }
    ensures narrow { AreNarrow (limits message.now) message.now.graph }
{
    message.is_known();
}

/// Where the rows and facts of the links of a path hold at a point, the path is partial for the point's numbers.
pub fn rows_make_paths_partial(message: &Elaborated<'_>)
    ensures { RowsMakePartial message.now.domains message.now.graph }
{
    message.is_known();
    links_have_forms(message);
}

/// Where a path is partial, the rows and facts of its links hold at the point of its numbers and quotients.
pub fn partial_paths_make_rows(message: &Elaborated<'_>)
    ensures { PartialMakesRows message.now.domains message.now.graph }
{
    message.is_known();
    links_have_forms(message);
}

/// A length and a number of its type for each scalar of a path place the fields of the path.
pub fn numbers_place_fields(message: &Elaborated<'_>)
    ensures { NumbersPlaceFields message.now.domains message.now.graph }
{}

/// At one point, of the length of a message, the numbers of its scalars and the quotients, the forms of a path have the values of
/// the fields that its links place, and the conditions hold exactly where they are true. That is so for every length and for all
/// numbers of the scalars' types, whether the path is partial or not.
pub fn forms_have_values(message: &Elaborated<'_>)
    ensures { FormsHaveValues message.now.domains message.now.graph }
{
    message.is_known();
    links_have_forms(message);
}

/// At that point the rows of a link's divisions hold wherever the path is partial up to the link's source.
pub fn division_rows_hold(message: &Elaborated<'_>)
    ensures { DivisionRowsHold message.now.domains message.now.graph }
{
    message.is_known();
    links_have_forms(message);
}

/// And they leave the quotients no choice: no other point with that length and these numbers meets all rows of the divisions.
pub fn rows_leave_one_point(message: &Elaborated<'_>)
    ensures { RowsLeaveOnePoint message.now.domains message.now.graph }
{
    message.is_known();
    links_have_forms(message);
}
