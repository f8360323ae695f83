// Writing a plan text into a lent buffer.
#![tactic(auto)]

mod measure;
mod parts;
pub mod write;
