//! A world: all nodes of a run, and what they did, turn by turn. One event is one turn of one node, computed by
//! the machines of the crates below.
//!
//! # Invariants
//!
//! Lines that rely on one of these cite its number.
//!
//! 1. The nodes of a world are those to which its list of turns leads (`IsKept` of fr_world_nodes; the clauses `turn`
//!    and `run`). All laws are proved of lists of turns, so they hold of these nodes only as long as the two agree.
//! 2. An event is one turn of one node and changes no other (`stepped`). A thread in a cluster holds one node's lock
//!    in a turn, so runs of both are the same.
//! 3. An event that cannot happen changes nothing, and is refused for the first reason in the order of `NotEnabled`,
//!    with `Memory` last (`Refuses`). An audit judges runs by these answers, so they must not depend on how much
//!    memory it has.
//! 4. A node takes only requests that were sent to it, and hears only replies that were given to it (`was_sent`,
//!    `was_told`). Each may come late, again or never. An invented message would let every law be broken.
//! 5. A ballot begins at most once (`is_used`), and a node that is gone has no turn any more (`is_gone`). The main
//!    theorem has both as premises: two recoverers under one ballot could write two values, and a log that forgot and
//!    came back could take pushes below what it had promised.
//! 6. A sequencer, a proxy and a recoverer are gone with their process; cells, logs and storage servers come back as
//!    they were (`crashed`). The former keep nothing on a disk, the latter all that they answered for.
//! 7. The index of turns is for speed alone (the clauses `same`). Whatever is not entered is found by a walk, so
//!    running out of memory for it changes no answer.
#![tactic(auto)]

mod events;
mod replay;
mod step;
mod world;

pub use fr_run::{Answer, Config, ConfigFault, Event, NotEnabled};
pub use fr_world_turns::Turn;
pub use world::World;
