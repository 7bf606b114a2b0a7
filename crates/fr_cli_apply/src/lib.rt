//! The command `apply` of `fdbrec` as a function over a reader and a writer: a script of operations run on an
//! empty store, a line for each, and then the rows. Beside it stands what the programs by the name `fdbrec` have in
//! common: their version, the words of `apply`, and how they end.
#![tactic(auto)]

mod apply;
mod causes;
mod operations;
mod plan;
mod program;
mod refusal;
mod rows;
mod script;
mod words;

pub use apply::{
    ApplyOptions, StoreKind, apply_counted, apply_noted, apply_noted_on, run_apply, run_apply_on,
};
pub use causes::{Beginning, Causes, NotedReader, NotedWriter};
pub use operations::{ok_line, put_contents};
pub use program::{BAD_WORDS, Ending, bad_words, own_words, program_command, show};
pub use refusal::{Nobody, Notes, Refusal, SaidRefusals};
pub use rows::put_rows;
pub use script::Operation;
pub use words::{
    MIXED, StoreWord, StoreWords, apply_command, of_kind, read_file, read_store, read_store_words,
    rows_command,
};
