// The layout of a state's bytes: the size of each part, and where the part stands, behind the one before it. The parts of the set-up come first, then
// those of what changes.
use claims::records::RECORDS;
use own::records::{MOST_LABEL, MOST_SERVICE, MOST_TXT};

// ---- sizes

// A label, a service label and TXT strings, each with its length behind it.
pub const LABEL_SIZE: usize = MOST_LABEL + 1;

pub const SERVICE_SIZE: usize = MOST_SERVICE + 1;

pub const TXT_SIZE: usize = MOST_TXT + 2;

pub const PROTOCOL_SIZE: usize = 4;

pub const DOMAIN_SIZE: usize = 5;

pub const PORT_SIZE: usize = 2;

pub const A_SIZE: usize = 4;

pub const FLAG_SIZE: usize = 1;

pub const AAAA_SIZE: usize = 16;

// A number of 64 bits; and a case byte with its number: a claim, a last multicast, the reply, the last update.
pub const NUMBER_SIZE: usize = 8;

pub const CASE_SIZE: usize = 1 + NUMBER_SIZE;

// The last multicasts: one for each own record.
pub const MULTICASTS_SIZE: usize = RECORDS * CASE_SIZE;

// A set of own records, a flag for each; a held query: the address that it came from, when it is due, what it asks for and what it knows; and all held queries.
pub const SET_SIZE: usize = RECORDS * FLAG_SIZE;

pub const HOLD_SIZE: usize = 2 * NUMBER_SIZE + CASE_SIZE + 2 * SET_SIZE;

pub const HOLDS_SIZE: usize = 4 * HOLD_SIZE;

// ---- the set-up

pub const INSTANCE: usize = 0;

pub const SERVICE: usize = INSTANCE + LABEL_SIZE;

pub const PROTOCOL: usize = SERVICE + SERVICE_SIZE;

pub const HOST: usize = PROTOCOL + PROTOCOL_SIZE;

pub const DOMAIN: usize = HOST + LABEL_SIZE;

pub const PORT: usize = DOMAIN + DOMAIN_SIZE;

pub const TXT: usize = PORT + PORT_SIZE;

pub const A: usize = TXT + TXT_SIZE;

pub const HAS_AAAA: usize = A + A_SIZE;

pub const AAAA: usize = HAS_AAAA + FLAG_SIZE;

pub const SETUP_SIZE: usize = AAAA + AAAA_SIZE;

// ---- what changes

pub const INSTANCE_CLAIM: usize = SETUP_SIZE;

pub const HOST_CLAIM: usize = INSTANCE_CLAIM + CASE_SIZE;

pub const MULTICASTS: usize = HOST_CLAIM + CASE_SIZE;

pub const REPLY: usize = MULTICASTS + MULTICASTS_SIZE;

pub const UPDATED: usize = REPLY + CASE_SIZE;

pub const HOLDS: usize = UPDATED + CASE_SIZE;

pub const DRAW: usize = HOLDS + HOLDS_SIZE;

pub const LAST: usize = DRAW + NUMBER_SIZE;

pub const STATE_SIZE: usize = LAST + NUMBER_SIZE;
