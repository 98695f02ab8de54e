//! Tests of the search: banks, agendas, unification, resources and instances.
#![tactic(auto)]

#[cfg(test)]
mod agenda;
#[cfg(test)]
mod bank;
#[cfg(test)]
mod instances;
#[cfg(test)]
mod resources;
#[cfg(test)]
mod unify;
