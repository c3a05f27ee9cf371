//! Paths in graphs of numbered nodes: which nodes each path to a node passes, and a path around a node.
#![tactic(auto)]

mod dominators;
mod flow;
mod numbers;
mod search;
mod tree;
mod walk;

pub use flow::Paths;
