// Encodings, which stand in a crate of their own.
pub use turn_encoding::encoding::Encoding;
