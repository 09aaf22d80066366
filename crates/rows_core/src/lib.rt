//! Tests of the core where lines of commands do not reach: worked rows. Nothing here is called by other crates.
#![tactic(auto)]

#[cfg(test)]
mod caches;
#[cfg(test)]
mod classes;
#[cfg(test)]
mod cores;
#[cfg(test)]
mod installs;
#[cfg(test)]
mod limits;
#[cfg(test)]
mod logs;
#[cfg(test)]
mod plans;
#[cfg(test)]
mod releases;
#[cfg(test)]
mod renewals;
#[cfg(test)]
mod snapshots;
#[cfg(test)]
mod steps;
#[cfg(test)]
mod together;
#[cfg(test)]
mod work;
