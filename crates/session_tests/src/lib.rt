//! Tests of tables, connections and sessions.
#![tactic(auto)]

#[cfg(test)]
mod bindings;
#[cfg(test)]
mod connections;
#[cfg(test)]
mod control;
#[cfg(test)]
mod kept;
#[cfg(test)]
mod kinds;
#[cfg(test)]
mod model;
#[cfg(test)]
mod places;
#[cfg(test)]
mod rows;
