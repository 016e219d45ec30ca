/// How many elements an expanded tree has at most.
pub const MOST_ELEMENTS: usize = 5000;

/// How many repeaters lie in one another at most.
pub const MOST_REPEATERS: usize = 3;
