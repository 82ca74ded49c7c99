// What is found out.

/// What a run decides, or a certificate says: no schedule within the bounds fails, one does, or neither was found out.
#[derive(Clone, Copy, PartialEq, Eq, Debug)]
pub enum Verdict {
    Holds,
    Fails,
    Undecided,
}
