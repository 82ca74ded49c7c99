// Reports: the texts that the program prints, written piece by piece.
#![tactic(auto)]

mod actions;
mod checks;
mod events;
mod names;
mod pieces;
mod refusals;
mod replays;
pub mod reports;
mod runs;
mod shows;
pub mod writing;
