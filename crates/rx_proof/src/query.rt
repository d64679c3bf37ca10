// Systems with open disjunctions.
ghost use Rattle.std.specs.Prelude.{◌≡◌, ◌↔◌, IsTrue};
ghost use Rattle.std.specs.List.{list_all};
ghost use Rattle.rx_proof.specs.Queries.{IsEven, has_variables};

use rx_linear::System;
use sqlite_items::Items;

/// All rows of the system, and of each disjunction one branch.
#[derive(Drop)]
pub struct Query {
    pub system: System,
    pub either: Items<Items<Query>>,
}

impl Query {
    /// Whether all systems in the query, at every depth, have the same number of variables.
    pub fn is_even(&self) -> bool
        ensures { IsTrue result ↔ IsEven self.now }
    {
        has_variables(self, self.system.variables())
    }
}

/// Whether the query, and each query in it, is over that many variables.
#[cycle(even)]
fn has_variables(query: &Query, variables: usize) -> bool
    ensures { result ≡ has_variables query.now variables }
{
    if query.system.variables() != variables {
        return false;
    }
    for branches in query.either.as_slice() {
        if !all_have_variables(branches.as_slice(), variables) {
            return false;
        }
    }
    true
}

#[cycle(even)]
fn all_have_variables(branches: &[Query], variables: usize) -> bool
    ensures { result ≡ list_all (λ branch. has_variables branch variables) branches.now }
{
    for branch in branches {
        if !has_variables(branch, variables) {
            return false;
        }
    }
    true
}
