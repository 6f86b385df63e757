//! Tests of the engine of transactions over a keeper in memory, alone and beside the plain engine.
#![tactic(auto)]

#[cfg(test)]
mod compared;
#[cfg(test)]
mod cursors;
#[cfg(test)]
mod drawn;
#[cfg(test)]
mod faults;
#[cfg(test)]
mod kept;
#[cfg(test)]
mod limits;
#[cfg(test)]
mod memory_engine;
#[cfg(test)]
mod opened;
#[cfg(test)]
mod places;
#[cfg(test)]
mod readers;
#[cfg(test)]
mod reply;
#[cfg(test)]
mod request;
#[cfg(test)]
mod savepoints;
#[cfg(test)]
mod script;
#[cfg(test)]
mod transactions;
#[cfg(test)]
mod workers;
#[cfg(test)]
mod written;
