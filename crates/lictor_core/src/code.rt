// A number in place of a case.

// A number that is the code of no case.
#[derive(Clone, Copy, Debug, PartialEq, Eq)]
pub struct Unlisted(pub u8);
