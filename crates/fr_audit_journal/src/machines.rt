//! The machines that are kept with a journal: cells, logs and sequencers.
use crate::housable::Housable;
use fr_ask::SeqAsk;
use fr_base::Memory;
use fr_log::{Log, LogAsk};
use fr_proxy::Sequencer;
use fr_register::{Cell, CellAsk};

impl Housable for Cell {
    fn copy_ask(ask: &CellAsk) -> Result<CellAsk, Memory> {
        ask.copy()
    }

    fn stands(&self) {
        let _within = self.promised();
    }
}

impl Housable for Log {
    fn copy_ask(ask: &LogAsk) -> Result<LogAsk, Memory> {
        ask.copy()
    }

    fn stands(&self) {}
}

impl Housable for Sequencer {
    fn copy_ask(ask: &SeqAsk) -> Result<SeqAsk, Memory> {
        Ok(*ask)
    }

    fn stands(&self) {
        let _within = self.last().get();
    }
}
