/// A reading, the final verdict on a position: the rule's true value there, with the position and its time.
#[derive(Clone, Copy, PartialEq, Eq, Debug)]
pub struct Reading<S> {
    pub position: u64,
    pub stamp: u64,
    pub value: S,
}
