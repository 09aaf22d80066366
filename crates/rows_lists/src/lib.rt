//! Tests of what is kept or divided, against a plain way to do it: lists in pages, values by number, places, what a loader
//! has recorded, the dependency index, and preparations by several threads. Nothing here is called by other crates.
#![tactic(auto)]

#[cfg(test)]
mod gates;
#[cfg(test)]
mod numbered;
#[cfg(test)]
mod operations;
#[cfg(test)]
mod pages;
#[cfg(test)]
mod plain;
#[cfg(test)]
mod records;
#[cfg(test)]
mod removals;
#[cfg(test)]
mod tables;
#[cfg(test)]
mod worlds;
