//! The law of several asks.
ghost use Rattle.fr_record_node.specs.Several.{AfterApart, ToldApart, WrittenApart};

use crate::recorded::Recorded;

/// A list of asks leads to where its front and then the rest lead, is told what these are told, and has their
/// records. So a file has the same bytes, however many asks were served at once.
pub fn several_law<M: Recorded>()
    ensures after { AfterApart M.after }
    ensures told { ToldApart M.after M.told }
    ensures written { WrittenApart M.after M.written }
{}
