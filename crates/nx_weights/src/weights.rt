// A list of weights.
use nx_lists::List;

/// A list of sums of weights, in slots of 8 bytes.
pub type Weights = List<u64>;
