//! What holds of goals and their queries, each as the clause of a function that does nothing.

ghost use Rattle.rx_layout.specs.Laws.{PointsMeetGoals, GoalsHavePoints, QueriesAreEven, QueriesAreBounded, ListsGoals, GoalsAreChecks};
ghost use Rattle.rx_layout.specs.Laid.{HasSmallTypes, HasProperTypes};

use rx_graph::Elaborated;

/// The scalar types of the fields are small, and have proper numbers.
pub fn types_are_proper(message: &Elaborated<'_>)
    ensures small { HasSmallTypes message.now.domains message.now.graph }
    ensures proper { HasProperTypes message.now.domains message.now.graph }
{
    message.is_known();
}

/// A point of the query of a path and a goal has the length and the numbers of a partial path that meets the goal.
pub fn points_meet_goals(message: &Elaborated<'_>)
    ensures { PointsMeetGoals message.now.domains message.now.graph }
{
    message.is_known();
}

/// The length and the numbers of a partial path that meets a goal are those of a point of the query.
pub fn goals_have_points(message: &Elaborated<'_>)
    ensures { GoalsHavePoints message.now.domains message.now.graph }
{
    message.is_known();
}

/// All systems in a query of a path and a goal have the same number of variables.
pub fn queries_are_even(message: &Elaborated<'_>)
    ensures { QueriesAreEven message.now.domains message.now.graph }
{
    message.is_known();
}

/// When the rows of a query of a path and a goal are joined, each variable has one that bounds it from below and one that bounds it
/// from above.
pub fn queries_are_bounded(message: &Elaborated<'_>)
    ensures { QueriesAreBounded message.now.domains message.now.graph }
{
    message.is_known();
}

/// The goals of an elaborated message are those that are listed.
pub fn goals_are_listed(message: &Elaborated<'_>)
    ensures { ListsGoals message.now.domains message.now.graph }
{
    message.is_known();
}

/// All goals of a message hold exactly where all its checks do.
pub fn goals_are_checks(message: &Elaborated<'_>)
    ensures { GoalsAreChecks message.now.domains message.now.graph }
{
    message.is_known();
}
