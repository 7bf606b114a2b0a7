//! Lines written.
use crate::envelope::Envelope;
use crate::fault::LineFault;
use crate::names;
use fr_audit_journal::{Entry, node_text};
use fr_base::{Memory, NodeId};
use fr_forms::{Object, text_value, write_all};
use fr_node::{Kind, NodeReply, Stand, Wants};
use fr_script::audit::write_entry;
use serde_json::Value;
use std::alloc::Global;

/// The line that answers another one, with its end.
pub fn write_reply(
    alloc: Global,
    node: NodeId,
    envelope: &Envelope,
    reply: &NodeReply,
) -> Result<Vec<u8>, Memory> {
    let body = match reply {
        NodeReply::Init { node, stand } => {
            let body = of_type(alloc, names::INIT_OK)?.with(names::NODE, node)?;
            with_stand(alloc, body, stand)?
        }
        NodeReply::Last { last } => of_type(alloc, names::LAST_OK)?.with(names::LAST, last)?,
        NodeReply::Wants { wants } => {
            of_type(alloc, names::WANTS_OK)?.put(names::WANTS, write_all(alloc, wants.as_slice()))?
        }
        NodeReply::Read { value } => { of_type(alloc, names::READ_OK)?.with(names::VALUE, value)? }
        NodeReply::Taken {
            kind,
            entry,
            stand,
            wants,
        } => {
            let body = write_taken(alloc, *kind, entry, stand)?;
            with_wants(alloc, body, wants)?
        }
        NodeReply::Back { entries, stand } => write_back(alloc, entries.as_slice(), stand)?,
    };
    write_line(alloc, node, envelope, body)
}

/// The line that says why another one is not done, with its end.
pub fn write_error(
    alloc: Global,
    node: NodeId,
    envelope: &Envelope,
    fault: LineFault,
) -> Result<Vec<u8>, Memory> {
    let body = of_type(alloc, names::ERROR)?
        .with(names::CODE, &fault.code())?
        .put(names::TEXT, text_value(alloc, fault.text()))?;
    write_line(alloc, node, envelope, body)
}

fn of_type(alloc: Global, name: &str) -> Result<Object, Memory> {
    Object::new(alloc).put(names::TYPE, text_value(alloc, name))
}

/// With where a node stands: its state, or, of a storage server, that without its rows.
fn with_stand(alloc: Global, body: Object, stand: &Stand) -> Result<Object, Memory> {
    match stand {
        Stand::Whole(last) => body.with(names::LAST, last),
        Stand::Storage {
            epoch,
            version,
            floor,
        } => {
            let its = Object::new(alloc)
                .with(names::EPOCH, epoch)?
                .with(names::FLOOR, floor)?
                .with(names::VERSION, version)?;
            let stands = Object::new(alloc).put(names::STORAGE, its.value())?;
            body.put(names::STANDS, stands.value())
        }
    }
}

/// What is entered of a turn, and where the node then stands.
fn write_taken(alloc: Global, kind: Kind, entry: &Entry, stand: &Stand) -> Result<Object, Memory> {
    let body = of_type(alloc, type_of(kind))?;
    with_stand(alloc, body, stand)?.put(names::ENTRY, write_entry(alloc, entry))
}

/// What is entered of a node that was started again, and where it stands.
fn write_back(alloc: Global, entries: &[Entry], stand: &Stand) -> Result<Object, Memory> {
    let body = with_stand(alloc, of_type(alloc, names::BACK_OK)?, stand)?;
    let mut written = Vec::with_capacity(alloc, entries.len())?;
    for entry in entries {
        written.push(write_entry(alloc, entry)?)?;
    }
    body.put(names::ENTRIES, Ok(Value::Array(written)))
}

/// The type of the answer to a turn of a kind.
fn type_of(kind: Kind) -> &'static str {
    match kind {
        Kind::Ask => names::ASK_OK,
        Kind::Hear => names::HEAR_OK,
        Kind::Submit => names::SUBMIT_OK,
        Kind::Begin => names::BEGIN_OK,
    }
}

fn with_wants(alloc: Global, body: Object, wants: &Option<Wants>) -> Result<Object, Memory> {
    match wants {
        Some(wants) => body.put(names::WANTS, write_all(alloc, wants.as_slice())),
        None => Ok(body),
    }
}

/// A line from a node with this body, to the sender of the one that it answers.
fn write_line(
    alloc: Global,
    node: NodeId,
    envelope: &Envelope,
    body: Object,
) -> Result<Vec<u8>, Memory> {
    let body = match envelope.number {
        Some(number) => body.with(names::IN_REPLY_TO, &number)?,
        None => body,
    };
    let name = node_text(alloc, node)?;
    let line = Object::new(alloc)
        .with(names::SRC, &name)?
        .put(names::BODY, body.value())?;
    let line = match &envelope.sender {
        Some(sender) => line.with(names::DEST, sender)?,
        None => line,
    };
    let mut text = line.value()?.to_vec(alloc)?;
    text.push(b'\n')?;
    Ok(text)
}
