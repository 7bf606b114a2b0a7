//! Threads that wait for the logs of a directory.
use crate::directory::Directory;
use fr_base::{Epoch, LogId, Node, Version};
use fr_log::Log;
use fr_register::Cell;
use std::sync::Wait;

impl<C: Node<Plain = Cell> + Drop, L: Node<Plain = Log> + Drop> Directory<C, L> {
    /// Waits until a log told to hold this version. It waits two seconds at most, and not for a log that is not there,
    /// nor once nobody is to wait for it: then it answers false.
    pub fn wait_for<R: Wait>(&self, rt: &R, log: LogId, version: Version) -> bool {
        match self.log(log) {
            Some((log, _)) => log.wait_for(rt, version),
            // A log that is not there holds no version, and nothing would wake the thread (invariant 7).
            None => false,
        }
    }

    /// Nobody is to wait for the logs of this epoch any more, since a version of it is pushed no more.
    pub fn let_go(&self, epoch: Epoch) {
        // All logs of the epoch: a push goes to each of them, so each may have a thread that waits (invariant 7).
        if self.is_first(epoch) {
            self.first.let_go();
        } else if let Some(nodes) = self.nodes_of(epoch) {
            nodes.let_go();
        }
    }
}
