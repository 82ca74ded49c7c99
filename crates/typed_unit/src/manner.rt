// How operators treat their operands.

/// How an operator treats its operands: it joins them in one type, which is that of the result, or to compare them; it shifts the left one;
/// or each is a truth.
#[derive(Clone, Copy, PartialEq, Eq, Debug)]
pub enum Manner {
    Arithmetic,
    Comparing,
    Shifting,
    Deciding,
}
