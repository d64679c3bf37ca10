//! Trials of whole commands over objects in memory: one after the other, at their limits, and each check.
#![tactic(auto)]

#[cfg(test)]
mod checked;
#[cfg(test)]
mod closures;
#[cfg(test)]
mod commands;
#[cfg(test)]
mod decoded;
#[cfg(test)]
mod encoded;
#[cfg(test)]
mod faults;
#[cfg(test)]
mod longest;
#[cfg(test)]
mod texts;
#[cfg(test)]
mod worked;
