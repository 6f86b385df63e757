//! Tests of what is kept of tables, and of the tables that are built from it again.
#![tactic(auto)]

#[cfg(test)]
mod damage;
#[cfg(test)]
mod fresh;
#[cfg(test)]
mod keeping;
#[cfg(test)]
mod sample;
#[cfg(test)]
mod twelve;
#[cfg(test)]
mod wrong;
