//! What nodes tell.

/// What a node told, twice: for the list of turns, and for the caller.
#[derive(Drop)]
pub struct Told<T> {
    pub kept: T,
    pub handed: T,
}
