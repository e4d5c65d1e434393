// Where the state's numbers stand, and behind them the open packet; specs/State.antt has the layout.
pub(crate) const STANDS: usize = 0;

pub(crate) const COLLECTED: usize = 1;

pub(crate) const BYTES: usize = 2;

pub(crate) const INDEX: usize = 12;

pub(crate) const INDEX_HIGH: usize = 14;

pub(crate) const WRITE: usize = 16;

pub(crate) const SPACE: usize = 17;

pub(crate) const ADDRESS: usize = 18;

pub(crate) const COUNT: usize = 20;

pub(crate) const UNLOCKED: usize = 21;

pub(crate) const PACKET: usize = 22;

pub(crate) const REPLY: usize = 24;

pub(crate) const WORD: usize = 26;

pub(crate) const OPEN: usize = 28;
