//! What the clauses of jl_server don't say: that its calls come back, and what they are answered, in real threads. It has no public
//! item.
#![tactic(auto)]

#[cfg(test)]
mod acts;
#[cfg(test)]
mod carrying;
#[cfg(test)]
mod chains;
#[cfg(test)]
mod deeds;
#[cfg(test)]
mod definitions;
#[cfg(test)]
mod farms;
#[cfg(test)]
mod races;
#[cfg(test)]
mod renewals;
#[cfg(test)]
mod replays;
#[cfg(test)]
mod rows;
#[cfg(test)]
mod scripts;
#[cfg(test)]
mod servers;
#[cfg(test)]
mod workers;
