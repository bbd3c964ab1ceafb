// Examples of pairs, protections and pages, with what the rules make of them.
#![tactic(auto)]

#[cfg(test)]
mod faults;
#[cfg(test)]
mod pages_tests;
#[cfg(test)]
mod pile_tests;
#[cfg(test)]
mod setting_tests;
