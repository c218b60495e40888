//! Tests of the messages of DNS and SNMP.
#![tactic(auto)]

#[cfg(test)]
mod elements;
#[cfg(test)]
mod identifiers;
#[cfg(test)]
mod management;
#[cfg(test)]
mod messages;
#[cfg(test)]
mod names;
#[cfg(test)]
mod replies;
#[cfg(test)]
mod units;
