/// A word or a line isn't of the form that its place wants.
#[derive(Clone, Copy, Debug, PartialEq, Eq)]
pub struct Unfit;
