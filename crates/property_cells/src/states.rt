/// The state of a cell.
#[derive(Clone, Copy, Debug, PartialEq, Eq)]
pub enum CellState {
    /// It has no value, or one that may be out of date.
    Invalid,
    /// Its value is being computed.
    Running,
    /// It has the value that was computed last.
    Valid,
    /// It has the value that it was assigned.
    Assigned,
}
