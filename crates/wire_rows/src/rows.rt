// The rows of the messages' tables, as the one writer takes them.
ghost use Rattle.std.specs.Prelude.{◌≡◌};
ghost use Rattle.wire_write.specs.Rows.{solicit_rows, advertise_rows, request_rows, lookup_rows, ack_rows, flood_rows, inquire_rows, authority_rows};

use wire_numbers::*;
use wire_shapes::Shape;
use wire_write::Row;

// The rows that messages have in common, each once. `MAY_` is before those that may be absent in some messages and not in others.
const ACKED_ROW: Row = Row {
    number: ACKED,
    optional: false,
    padded: false,
    shape: Shape::Sized(ACKED_LEN),
};

const TARGET_ROW: Row = Row {
    number: TARGET,
    optional: false,
    padded: false,
    shape: Shape::Sized(KEY_LEN),
};

const VALIDATE_ROW: Row = Row {
    number: VALIDATE,
    optional: false,
    padded: false,
    shape: Shape::Sized(KEY_LEN),
};

const KEYS_ROW: Row = Row {
    number: KEYS,
    optional: false,
    padded: false,
    shape: Shape::Array(KEY, KEYS_EACH, 0, KEYS_MOST),
};

const FLAGS_ROW: Row = Row {
    number: FLAGS,
    optional: false,
    padded: true,
    shape: Shape::Sized(FLAGS_LEN),
};

const MAY_FLAGS_ROW: Row = Row {
    number: FLAGS,
    optional: true,
    padded: true,
    shape: Shape::Sized(FLAGS_LEN),
};

// ACK's, with nothing after them.
const LAST_FLAGS_ROW: Row = Row {
    number: FLAGS,
    optional: true,
    padded: false,
    shape: Shape::Sized(FLAGS_LEN),
};

const FLOOD_CONTROLS_ROW: Row = Row {
    number: FLOOD_CONTROLS,
    optional: false,
    padded: true,
    shape: Shape::Sized(FLOOD_CONTROLS_LEN),
};

const LOOKUP_CONTROLS_ROW: Row = Row {
    number: LOOKUP_CONTROLS,
    optional: false,
    padded: false,
    shape: Shape::Lookup,
};

// Split controls follow from the rest of a message: nothing is asked of them but their length.
const SPLIT_ROW: Row = Row {
    number: SPLIT,
    optional: false,
    padded: false,
    shape: Shape::Sized(SPLIT_LEN),
};

const MAY_SPLIT_ROW: Row = Row {
    number: SPLIT,
    optional: true,
    padded: false,
    shape: Shape::Sized(SPLIT_LEN),
};

const HASHED_ROW: Row = Row {
    number: HASHED,
    optional: false,
    padded: false,
    shape: Shape::Sized(HASHED_LEN),
};

const NONCE_ROW: Row = Row {
    number: NONCE,
    optional: false,
    padded: false,
    shape: Shape::Sized(NONCE_LEN),
};

const MAY_NONCE_ROW: Row = Row {
    number: NONCE,
    optional: true,
    padded: false,
    shape: Shape::Sized(NONCE_LEN),
};

const CREDENTIAL_ROW: Row = Row {
    number: CREDENTIAL,
    optional: true,
    padded: false,
    shape: Shape::Any,
};

const SIGNATURE_ROW: Row = Row {
    number: SIGNATURE,
    optional: true,
    padded: false,
    shape: Shape::Any,
};

const KEY_ID_ROW: Row = Row {
    number: KEY_ID,
    optional: true,
    padded: false,
    shape: Shape::Any,
};

// The certificate chain of an AUTHORITY: a credential with padding.
const CHAIN_ROW: Row = Row {
    number: CREDENTIAL,
    optional: true,
    padded: true,
    shape: Shape::Any,
};

const TOKEN_ROW: Row = Row {
    number: TOKEN,
    optional: true,
    padded: true,
    shape: Shape::Any,
};

const CODES_ROW: Row = Row {
    number: CODES,
    optional: true,
    padded: true,
    shape: Shape::Array(CODE, CODES_EACH, 0, CODES_MOST),
};

const PAYLOAD_ROW: Row = Row {
    number: PAYLOAD,
    optional: true,
    padded: true,
    shape: Shape::Any,
};

const ENTRY_ROW: Row = Row {
    number: ENTRY,
    optional: true,
    padded: true,
    shape: Shape::Entry,
};

const CPA_ROW: Row = Row {
    number: CPA,
    optional: true,
    padded: false,
    shape: Shape::Any,
};

const REVOKED_ROW: Row = Row {
    number: REVOKED,
    optional: true,
    padded: true,
    shape: Shape::Any,
};

const ENDPOINTS_ROW: Row = Row {
    number: ENDPOINTS,
    optional: false,
    padded: false,
    shape: Shape::Array(ENDPOINT, ENDPOINTS_EACH, ENDPOINTS_LEAST, ENDPOINTS_MOST),
};

const MAY_ENDPOINTS_ROW: Row = Row {
    number: ENDPOINTS,
    optional: true,
    padded: false,
    shape: Shape::Array(ENDPOINT, ENDPOINTS_EACH, ENDPOINTS_LEAST, ENDPOINTS_MOST),
};

// Where a message has fewer than nine.
const NO_ROW: Row = Row {
    number: 0,
    optional: true,
    padded: false,
    shape: Shape::Any,
};

pub fn solicit_rows() -> [Row; 9]
    ensures { result ≡ solicit_rows }
{
    [
        ENTRY_ROW, HASHED_ROW, NO_ROW, NO_ROW, NO_ROW, NO_ROW, NO_ROW, NO_ROW, NO_ROW,
    ]
}

pub fn advertise_rows() -> [Row; 9]
    ensures { result ≡ advertise_rows }
{
    [
        ACKED_ROW, KEYS_ROW, HASHED_ROW, NO_ROW, NO_ROW, NO_ROW, NO_ROW, NO_ROW, NO_ROW,
    ]
}

pub fn request_rows() -> [Row; 9]
    ensures { result ≡ request_rows }
{
    [
        MAY_FLAGS_ROW,
        MAY_SPLIT_ROW,
        NONCE_ROW,
        KEYS_ROW,
        CREDENTIAL_ROW,
        SIGNATURE_ROW,
        KEY_ID_ROW,
        NO_ROW,
        NO_ROW,
    ]
}

pub fn flood_rows() -> [Row; 9]
    ensures { result ≡ flood_rows }
{
    [
        FLOOD_CONTROLS_ROW,
        VALIDATE_ROW,
        TOKEN_ROW,
        REVOKED_ROW,
        ENTRY_ROW,
        MAY_ENDPOINTS_ROW,
        NO_ROW,
        NO_ROW,
        NO_ROW,
    ]
}

pub fn inquire_rows() -> [Row; 9]
    ensures { result ≡ inquire_rows }
{
    [
        FLAGS_ROW,
        VALIDATE_ROW,
        MAY_NONCE_ROW,
        CREDENTIAL_ROW,
        SIGNATURE_ROW,
        KEY_ID_ROW,
        NO_ROW,
        NO_ROW,
        NO_ROW,
    ]
}

pub fn authority_rows() -> [Row; 9]
    ensures { result ≡ authority_rows }
{
    [
        ACKED_ROW,
        SPLIT_ROW,
        FLAGS_ROW,
        CHAIN_ROW,
        TOKEN_ROW,
        CODES_ROW,
        PAYLOAD_ROW,
        ENTRY_ROW,
        CPA_ROW,
    ]
}

pub fn ack_rows() -> [Row; 9]
    ensures { result ≡ ack_rows }
{
    [
        ACKED_ROW,
        LAST_FLAGS_ROW,
        NO_ROW,
        NO_ROW,
        NO_ROW,
        NO_ROW,
        NO_ROW,
        NO_ROW,
        NO_ROW,
    ]
}

pub fn lookup_rows() -> [Row; 9]
    ensures { result ≡ lookup_rows }
{
    [
        LOOKUP_CONTROLS_ROW,
        TARGET_ROW,
        VALIDATE_ROW,
        ENTRY_ROW,
        ENDPOINTS_ROW,
        CREDENTIAL_ROW,
        SIGNATURE_ROW,
        KEY_ID_ROW,
        NO_ROW,
    ]
}
