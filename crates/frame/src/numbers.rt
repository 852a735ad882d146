// The numbers of document 01 by name, as every crate uses them.

// The kinds of frames. They stay numbers: the form that document 01 names is a match on the kind byte with ranges, rows of a record lie by
// kind, and votes are counted up from one to the next. An enum would be cast at each of these places.
pub const PROPOSAL: u8 = 1;

pub const VOTE_1: u8 = 2;

pub const VOTE_2: u8 = 3;

pub const VOTE_3: u8 = 4;

pub const VOTE_4: u8 = 5;

pub const VIEW_CHANGE: u8 = 6;

pub const SUGGEST: u8 = 7;

pub const PROOF: u8 = 8;

// The mark of a report that is present.
pub const PRESENT: u8 = 1;

// Recipients of an entry that are no vault's number: the host, and all vaults.
pub const TO_HOST: u8 = 254;

pub const TO_ALL: u8 = 255;

// What an entry tells the host: a decision, or a timer to run.
pub const HOST_DECISION: u8 = 10;

pub const HOST_TIMER: u8 = 11;
