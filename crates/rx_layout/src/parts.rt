// Facts as rows and disjunctions, and as queries.
ghost use Rattle.std.specs.Prelude.{◌≡◌, ◌≤◌, ◌++◌, ◌∷◌, [], IfOk, OnOk, map, true};
ghost use Rattle.std.specs.List.{list_all};
ghost use Rattle.rx_linear.specs.Systems.{IsWithinLimits};
ghost use Rattle.rx_layout.specs.Fitting.{fits, fits_row};
ghost use Rattle.rx_layout.specs.Parts.{row_of, false_row, query_of, parts_of, nothing, joined, all_of, one_of};

use crate::fault::NoMemory;
use rx_forms::{Form, Linear};
use rx_linear::{Row, System};
use rx_proof::Query;
use sqlite_items::Items;
use std::alloc::Global;

/// Rows that all hold, and disjunctions of which one branch each holds.
#[derive(Drop)]
pub struct Parts {
    pub rows: Items<Row>,
    pub either: Items<Items<Query>>,
}

/// The row that a sum is at least 0.
fn row_of(alloc: Global, variables: usize, form: &Linear) -> Result<Row, NoMemory>
    requires fits { fits_row variables form.now ≡ true }
    ensures { IfOk result (λ row. row ≡ row_of variables form.now) }
{
    let mut coefficients = Vec::new(alloc);
    coefficients.extend_from_slice(form.coefficients.as_slice())?;
    coefficients.resize(variables, 0)?;
    Ok(Row {
        coefficients: Items::from_vec(coefficients),
        least: -form.constant,
    })
}

/// The row 0 >= 1.
fn false_row(alloc: Global, variables: usize) -> Result<Row, NoMemory>
    ensures { IfOk result (λ row. row ≡ false_row variables) }
{
    let mut coefficients = Vec::new(alloc);
    coefficients.resize(variables, 0)?;
    Ok(Row {
        coefficients: Items::from_vec(coefficients),
        least: 1,
    })
}

/// No rows and no disjunctions.
fn nothing(alloc: Global) -> Parts
    ensures { result ≡ nothing }
{
    Parts {
        rows: Items::new(alloc),
        either: Items::new(alloc),
    }
}

/// One row.
fn one_row(alloc: Global, row: Row) -> Result<Parts, NoMemory>
    ensures { IfOk result (λ parts. parts ≡ record { rows = row ∷ []; either = [] }) }
{
    let mut parts = nothing(alloc);
    parts.rows.push(row)?;
    Ok(parts)
}

/// One disjunction.
fn one_choice(alloc: Global, branches: Items<Query>) -> Result<Parts, NoMemory>
    ensures { IfOk result (λ parts. parts ≡ record { rows = []; either = branches ∷ [] }) }
{
    let mut parts = nothing(alloc);
    parts.either.push(branches)?;
    Ok(parts)
}

/// Puts rows behind rows, and disjunctions behind disjunctions.
fn append(parts: &mut Parts, more: Parts) -> Result<(), NoMemory>
    ensures rows { OnOk result (parts.new.rows ≡ parts.old.rows ++ more.rows) }
    ensures either { OnOk result (parts.new.either ≡ parts.old.either ++ more.either) }
{
    parts.rows.append(more.rows)?;
    parts.either.append(more.either)?;
    Ok(())
}

/// The query that has these parts.
fn query_of(variables: usize, parts: Parts) -> Query
    requires { IsWithinLimits variables parts.rows }
    ensures { result ≡ query_of variables parts }
{
    Query {
        system: System::new(variables, parts.rows),
        either: parts.either,
    }
}

/// The rows and disjunctions of a fact, over that many variables.
#[cycle(parts)]
fn parts_of(alloc: Global, variables: usize, form: &Form) -> Result<Parts, NoMemory>
    requires few { variables ≤ 192 }
    requires fits { fits variables form.now ≡ true }
    ensures { IfOk result (λ parts. parts ≡ parts_of variables form.now) }
{
    match form {
        Form::AtLeast(sum) => one_row(alloc, row_of(alloc, variables, sum)?),
        Form::All(forms) => all_of(alloc, variables, forms.as_slice()),
        Form::Any(forms) => one_of(alloc, variables, forms.as_slice()),
    }
}

/// Those of all of some facts.
#[cycle(parts)]
fn all_of(alloc: Global, variables: usize, forms: &[Form]) -> Result<Parts, NoMemory>
    requires few { variables ≤ 192 }
    requires fits { list_all (fits variables) forms.now ≡ true }
    ensures { IfOk result (λ parts. parts ≡ all_of (map (parts_of variables) forms.now)) }
{
    let mut all = nothing(alloc);
    for form in forms {
        let parts = parts_of(alloc, variables, form)?;
        append(&mut all, parts)?;
    }
    Ok(all)
}

/// Those of one of some facts.
#[cycle(parts)]
fn one_of(alloc: Global, variables: usize, forms: &[Form]) -> Result<Parts, NoMemory>
    requires few { variables ≤ 192 }
    requires fits { list_all (fits variables) forms.now ≡ true }
    ensures { IfOk result (λ parts. parts ≡ one_of variables (map (parts_of variables) forms.now)) }
{
    match forms {
        [] => one_row(alloc, false_row(alloc, variables)?),
        [only] => parts_of(alloc, variables, only),
        _ => one_choice(alloc, branches(alloc, variables, forms)?),
    }
}

/// A query of each fact.
#[cycle(parts)]
fn branches(alloc: Global, variables: usize, forms: &[Form]) -> Result<Items<Query>, NoMemory>
    requires few { variables ≤ 192 }
    requires fits { list_all (fits variables) forms.now ≡ true }
    ensures { IfOk result (λ queries. queries ≡ map (query_of variables) (map (parts_of variables) forms.now)) }
{
    let mut queries = Vec::new(alloc);
    for form in forms {
        let parts = parts_of(alloc, variables, form)?;
        queries.push(query_of(variables, parts))?;
    }
    Ok(Items::from_vec(queries))
}

/// Adds the parts of each of some facts.
#[tactic(none)]
fn add(alloc: Global, variables: usize, forms: &[Form], parts: &mut Parts) -> Result<(), NoMemory>
    requires few { variables ≤ 192 }
    requires fits { list_all (fits variables) forms.now ≡ true }
    ensures { OnOk result (parts.new ≡ joined parts.old (all_of (map (parts_of variables) forms.now))) }
{
    let more = all_of(alloc, variables, forms)?;
    append(parts, more)
}

/// The query over that many variables whose points are those at which the facts of a path and the facts that are asked hold, and
/// then the rows of the path and those that are asked.
#[tactic(none)]
pub fn query_of_all(
    alloc: Global,
    variables: usize,
    facts: &[Form],
    asked: &[Form],
    rows: &[Form],
    last: &[Form],
) -> Result<Query, NoMemory>
    requires few { variables ≤ 192 }
    requires fits { list_all (fits variables) (facts.now ++ (asked.now ++ (rows.now ++ last.now))) ≡ true }
    ensures { IfOk result (λ query. query ≡ query_of variables (all_of (map (parts_of variables) (facts.now ++ (asked.now ++ (rows.now ++ last.now)))))) }
{
    let mut parts = nothing(alloc);
    add(alloc, variables, facts, &mut parts)?;
    add(alloc, variables, asked, &mut parts)?;
    add(alloc, variables, rows, &mut parts)?;
    add(alloc, variables, last, &mut parts)?;
    Ok(query_of(variables, parts))
}
