// Grids of literals, which stand beside encodings.
pub use turn_encoding::grid::Grid;
