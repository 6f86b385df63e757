//! Tests of what journals of any bytes give.
#![tactic(auto)]

#[cfg(test)]
mod journals;
