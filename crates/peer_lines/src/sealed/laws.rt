//! Laws of sealed links.
//!
//! The functions do nothing: what they say are their contracts.
ghost use Rattle.peer_lines.specs.Laws.{OthersAreNotOpened, RecordsAreOpened};

/// What was written as records is read, as it was cut into pieces, whatever stands behind them.
pub fn records_are_opened()
    ensures { RecordsAreOpened }
{}

/// Of a stream at whose front no record is that has the right code at its position nothing is read, whatever stands behind it.
pub fn others_are_not_opened()
    ensures { OthersAreNotOpened }
{}
