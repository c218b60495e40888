//! Tests of what stands in frames: headers, sums, segments, pieces and fragments.
#![tactic(auto)]

#[cfg(test)]
mod errors;
#[cfg(test)]
mod ethernet;
#[cfg(test)]
mod fragments;
#[cfg(test)]
mod headers;
#[cfg(test)]
mod numbers;
#[cfg(test)]
mod pieces;
#[cfg(test)]
mod renaming;
#[cfg(test)]
mod segments;
#[cfg(test)]
mod sums;
#[cfg(test)]
mod transport;
