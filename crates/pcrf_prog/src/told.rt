//! What an operator is told of the faults of a run beside their lines, if anybody listens: where they are, or why.
use log::{Log, error};
use op_tables::PlacedFault;
use pcrf_world::BadLine;

/// What stands before each line as its target.
const TARGET: &str = "pcrf";

/// The operator tables are at fault. Of a fault of the whole text nothing is known beyond its own line.
pub fn tell_tables<G: Log>(log: &G, fault: PlacedFault) {
    if !fault.place.is_whole() {
        error!(log; target: TARGET, "operator tables: {fault}");
    }
}

/// A line of the script was refused.
pub fn tell_line<G: Log>(log: &G, number: u64, why: BadLine) {
    error!(log; target: TARGET, "line {number} of the script was refused: {why}");
}
