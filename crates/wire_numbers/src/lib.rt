// The numbers by which document 000 names messages and fields, how long the fields are that have one length, and of how many
// elements of what length a list is: once for whatever reads or writes. The definitions have theirs in the table of fields
// (wire_fields, Kinds), and the contracts of readers and writers, which speak of that table alone, hold the two together.
#![tactic(auto)]

// ---- Messages, by their types (000, section 2.2.2).

pub const SOLICIT: u8 = 1;

pub const ADVERTISE: u8 = 2;

pub const REQUEST: u8 = 3;

pub const FLOOD: u8 = 4;

pub const INQUIRE: u8 = 7;

pub const AUTHORITY: u8 = 8;

pub const ACK: u8 = 9;

pub const LOOKUP: u8 = 11;

// ---- Fields: the number of each, and its length where it has but one; of a list, how long each element is and how many there are.

// The ID of the message answered.
pub const ACKED: u16 = 0x18;

pub const ACKED_LEN: usize = 4;

// The key that a LOOKUP looks for.
pub const TARGET: u16 = 0x38;

// The key that whoever gets a message is to have.
pub const VALIDATE: u16 = 0x39;

pub const KEY_LEN: usize = 32;

// Keys: a list, and what an element of it is called.
pub const KEYS: u16 = 0x60;

pub const KEY: u16 = 0x30;

pub const KEYS_EACH: u16 = 32;

pub const KEYS_MOST: u16 = 0x7FFF;

// Flags, of ACK, AUTHORITY, INQUIRE and REQUEST.
pub const FLAGS: u16 = 0x40;

pub const FLAGS_LEN: usize = 2;

pub const FLOOD_CONTROLS: u16 = 0x43;

pub const FLOOD_CONTROLS_LEN: usize = 3;

pub const LOOKUP_CONTROLS: u16 = 0x45;

pub const LOOKUP_CONTROLS_LEN: usize = 8;

// Split controls, of AUTHORITY and REQUEST: a size and an offset.
pub const SPLIT: u16 = 0x98;

pub const SPLIT_LEN: usize = 4;

// A nonce of which only the hash is told.
pub const HASHED: u16 = 0x92;

pub const HASHED_LEN: usize = 20;

pub const NONCE: u16 = 0x93;

pub const NONCE_LEN: usize = 16;

// A credential; in an AUTHORITY, a certificate chain.
pub const CREDENTIAL: u16 = 0x80;

pub const SIGNATURE: u16 = 0xA5;

// A key identifier.
pub const KEY_ID: u16 = 0xA6;

// A key token.
pub const TOKEN: u16 = 0x9F;

// A classifier: a list of codes, and what one of them is called.
pub const CODES: u16 = 0x85;

pub const CODE: u16 = 0x84;

pub const CODES_EACH: u16 = 2;

pub const CODES_MOST: u16 = 0x7FFF;

// The extended payload.
pub const PAYLOAD: u16 = 0x5A;

// A route entry.
pub const ENTRY: u16 = 0x9A;

pub const CPA: u16 = 0x9B;

// The CPA that a FLOOD revokes.
pub const REVOKED: u16 = 0x9C;

// Endpoints, a LOOKUP's path or those that a FLOOD has reached: a list, and what an element of it is called.
pub const ENDPOINTS: u16 = 0x9E;

pub const ENDPOINT: u16 = 0x9D;

pub const ENDPOINTS_EACH: u16 = 18;

pub const ENDPOINTS_LEAST: u16 = 1;

pub const ENDPOINTS_MOST: u16 = 22;
