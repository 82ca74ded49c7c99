// What every crate stands on: words, cells and expressions, texts with places, and the outside.
#![tactic(auto)]

mod bound;
pub mod cells;
pub mod desk;
pub mod expr;
mod faults;
pub mod file_desk;
mod file_list;
pub mod meaning;
pub mod mem_desk;
pub mod mem_sink;
pub mod never_sink;
pub mod out_sink;
pub mod place;
pub mod sets;
pub mod sink;
pub mod text;
pub mod word;
