//! The JSON forms of scripts and journals: one table of them, a reader that goes by it and says where a text is bad, and
//! the steps between types and what is read and written, which go by it too.
#![tactic(auto)]

mod fault;
mod form;
mod kinds;
mod mistake;
mod object;
mod reading;
mod row;
pub mod table;
mod tape;
mod types;
mod values;

pub use fault::ScriptFault;
pub use form::{Form, Piece};
pub use mistake::put_printable;
pub use object::{Object, text_value, write_all};
pub use reading::{Nobody, Sink, read_one, read_text};
pub use row::{Formed, Parts, Row};
