//! The names of members and types: one table, by which they are read and written.
pub(crate) const SRC: &str = "src";

pub(crate) const DEST: &str = "dest";

pub(crate) const BODY: &str = "body";

pub(crate) const TYPE: &str = "type";

pub(crate) const MSG_ID: &str = "msg_id";

pub(crate) const IN_REPLY_TO: &str = "in_reply_to";

pub(crate) const AT: &str = "at";

pub(crate) const FROM: &str = "from";

pub(crate) const ASK: &str = "ask";

pub(crate) const TELL: &str = "tell";

pub(crate) const STEP: &str = "step";

pub(crate) const BATCH: &str = "batch";

pub(crate) const EPOCH: &str = "epoch";

pub(crate) const FLOOR: &str = "floor";

pub(crate) const STORAGE: &str = "storage";

pub(crate) const STANDS: &str = "stands";

pub(crate) const ENTRIES: &str = "entries";

pub(crate) const LAST: &str = "last";

pub(crate) const NODE: &str = "node";

pub(crate) const CODE: &str = "code";

pub(crate) const ENTRY: &str = "entry";

pub(crate) const HEARING: &str = "hearing";

pub(crate) const NEWEST: &str = "newest";

pub(crate) const TEXT: &str = "text";

pub(crate) const TURN: &str = "turn";

pub(crate) const KEY: &str = "key";

pub(crate) const VALUE: &str = "value";

pub(crate) const VERSION: &str = "version";

pub(crate) const READ: &str = "read";

pub(crate) const WANTS: &str = "wants";

// ---- types

pub(crate) const INIT: &str = "init";

pub(crate) const BEGIN: &str = "begin";

pub(crate) const HEAR: &str = "hear";

pub(crate) const SUBMIT: &str = "submit";

pub(crate) const BACK: &str = "back";

pub(crate) const INIT_OK: &str = "init_ok";

pub(crate) const LAST_OK: &str = "last_ok";

pub(crate) const WANTS_OK: &str = "wants_ok";

pub(crate) const READ_OK: &str = "read_ok";

pub(crate) const ASK_OK: &str = "ask_ok";

pub(crate) const HEAR_OK: &str = "hear_ok";

pub(crate) const SUBMIT_OK: &str = "submit_ok";

pub(crate) const BEGIN_OK: &str = "begin_ok";

pub(crate) const BACK_OK: &str = "back_ok";

pub(crate) const ERROR: &str = "error";
