// What the bodies of a unit call and take.
use chk_base::place::Place;
use sqlite_items::Items;

/// A call of the function with this number, at the place of its name; or `GetResource` or `ReleaseResource` with the number of its resource,
/// at the place of the argument.
#[derive(Clone, Copy, PartialEq, Eq, Debug)]
pub enum Site {
    Call { function: usize, place: Place },
    Use { resource: u8, place: Place },
}

/// The sites of a body, in the order of the text.
pub type Sites = Items<Site>;

/// The sites of one body after another.
pub type Bodies = Items<Sites>;
