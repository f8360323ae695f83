// Judging a plan, handed in as a value, or its tasks alone.
#![tactic(auto)]

mod drives;
mod order;
mod pairs;
pub mod tasks;
pub mod value;

// The drives that a task holds exclusively, and all that it holds.
#[derive(Drop)]
pub(crate) struct Sets {
    pub exclusive: u32,
    pub held: u32,
}
