//! Tests of the files: captures, settings, reports and workloads.
#![tactic(auto)]

#[cfg(test)]
mod captures;
#[cfg(test)]
mod lines;
#[cfg(test)]
mod merging;
#[cfg(test)]
mod settings;
#[cfg(test)]
mod workloads;
