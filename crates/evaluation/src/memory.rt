/// The kept numbers of a node's two ends at one position.
#[derive(Clone, Copy, PartialEq, Eq, Debug)]
pub struct Cell {
    pub low: i64,
    pub high: i64,
}
