//! Packages of any maker whose contents are judged by the rules of `package_rules`: what is wrong with one, a line each.
#![tactic(auto)]

mod findings;
mod lines;
mod rules;
mod validate;

pub use rules::{Ignored, Rule, ignored_in};
pub use validate::{Validation, validate_package};
