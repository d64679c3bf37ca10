//! Trials of messages: buffers that are read, drafts and valuations that are written, and points of checks, which are
//! followed by the definitions.
#![tactic(auto)]

#[cfg(test)]
mod decoding;
#[cfg(test)]
mod drafts;
#[cfg(test)]
mod evaluated;
#[cfg(test)]
mod followed;
#[cfg(test)]
mod formula;
#[cfg(test)]
mod goals;
#[cfg(test)]
mod keys;
#[cfg(test)]
mod points;
#[cfg(test)]
mod puts;
#[cfg(test)]
mod reading;
#[cfg(test)]
mod shown;
#[cfg(test)]
mod sums;
#[cfg(test)]
mod worked;
#[cfg(test)]
mod writing;
