//! Tests of the crates that read and write bytes: worked rows of names, constant pools, codes and sketches, and of class
//! files that are cut or changed. Nothing here is called by other crates.
#![tactic(auto)]

#[cfg(test)]
mod codes;
#[cfg(test)]
mod descriptors;
#[cfg(test)]
mod hostile;
#[cfg(test)]
mod names;
#[cfg(test)]
mod pools;
#[cfg(test)]
mod rows;
#[cfg(test)]
mod sketches;
