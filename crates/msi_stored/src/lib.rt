//! The tables of a package in memory, whose rows lie in its file: definitions, and the laws of reading them.
#![tactic(auto)]
