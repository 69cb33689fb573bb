//! The program as its callers use it: over memory, over devices that fail at each call, and with engines as processes.
#![tactic(auto)]

#[cfg(test)]
mod collection;
#[cfg(test)]
mod devices;
#[cfg(test)]
mod engines;
#[cfg(test)]
mod explained;
#[cfg(test)]
mod in_memory;
#[cfg(test)]
mod laws;
#[cfg(test)]
mod log;
#[cfg(test)]
mod program;
#[cfg(test)]
mod readers;
#[cfg(test)]
mod runs;
#[cfg(test)]
mod sections;
#[cfg(test)]
mod strict;
#[cfg(test)]
mod verify;
