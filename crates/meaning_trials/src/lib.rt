//! Trials of what packages mean: worked texts, and what is refused of them first, with its place.
#![tactic(auto)]

#[cfg(test)]
mod expressions;
#[cfg(test)]
mod firsts;
#[cfg(test)]
mod messages;
#[cfg(test)]
mod specifications;
#[cfg(test)]
mod stands;
#[cfg(test)]
mod types;
#[cfg(test)]
mod worked;
