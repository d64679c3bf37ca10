//! Trials of words, the lexer and the parser: a table of every mark, word, number and rule, with sentences and with faults.
#![tactic(auto)]

#[cfg(test)]
mod faults;
#[cfg(test)]
mod packages;
#[cfg(test)]
mod sentences;
#[cfg(test)]
mod tokens;
#[cfg(test)]
mod words;
