//! Tests of links and of the bodies of requests, over their public calls.
#![tactic(auto)]

#[cfg(test)]
mod bodies;
#[cfg(test)]
mod links;
