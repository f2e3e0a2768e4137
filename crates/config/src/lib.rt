//! What a board is built with, and what that says of objects, boards and rows.
#![tactic(auto)]

pub mod board_set;
mod build;
mod config;
mod durable;
mod objects;

pub use config::{Config, Container};
