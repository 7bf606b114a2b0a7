//! The parts of types: numbers within their limits, bytes, lists, batches, pushes and states.
use crate::object::{Object, hex_value, text_value, write_all};
use crate::row::{Formed, Row};
use crate::table;
use crate::tape::Slot;
use fr_ask::Rows;
use fr_base::{Ballot, Bytes, Epoch, LogId, Memory, Shape, Stamp, Step, Tag, Version};
use fr_cli_json::tokens::Unread;
use fr_log::{Most, PoppedTags, Push};
use fr_mutation::{AtomicOp, Batch, BatchFault, Mutation};
use fr_register::CellValue;
use fr_state::{CoordState, Generation, StateDecodeFault, StateFault, decode, encode};
use fr_tags::Body;
use serde_json::Value;
use std::alloc::Global;

impl Formed for u64 {
    fn from_row(_alloc: Global, row: Row<'_>) -> Result<Self, Unread> {
        Ok(row.number())
    }

    fn to_value(&self, _alloc: Global) -> Result<Value, Memory> {
        Ok(Value::from(*self))
    }
}

/// A number that the table says to be below 256.
impl Formed for u8 {
    fn from_row(_alloc: Global, row: Row<'_>) -> Result<Self, Unread> {
        Ok(row.byte())
    }

    fn to_value(&self, _alloc: Global) -> Result<Value, Memory> {
        Ok(Value::from(*self as u64))
    }
}

impl Formed for bool {
    fn from_row(_alloc: Global, row: Row<'_>) -> Result<Self, Unread> {
        Ok(matches!(row.slot, Slot::Flag(true)))
    }

    fn to_value(&self, _alloc: Global) -> Result<Value, Memory> {
        Ok(Value::from(*self))
    }
}

impl Formed for Version {
    fn from_row(_alloc: Global, row: Row<'_>) -> Result<Self, Unread> {
        Version::new(row.number()).ok_or(Unread::Unusual)
    }

    fn to_value(&self, _alloc: Global) -> Result<Value, Memory> {
        Ok(Value::from(self.get()))
    }
}

impl Formed for Epoch {
    fn from_row(_alloc: Global, row: Row<'_>) -> Result<Self, Unread> {
        Epoch::new(row.number()).ok_or(Unread::Unusual)
    }

    fn to_value(&self, _alloc: Global) -> Result<Value, Memory> {
        Ok(Value::from(self.get()))
    }
}

impl Formed for Ballot {
    fn from_row(_alloc: Global, row: Row<'_>) -> Result<Self, Unread> {
        Ballot::new(row.number()).ok_or(Unread::Unusual)
    }

    fn to_value(&self, _alloc: Global) -> Result<Value, Memory> {
        Ok(Value::from(self.get()))
    }
}

impl Formed for Step {
    fn from_row(_alloc: Global, row: Row<'_>) -> Result<Self, Unread> {
        Step::new(row.number()).ok_or(Unread::Unusual)
    }

    fn to_value(&self, _alloc: Global) -> Result<Value, Memory> {
        Ok(Value::from(self.get()))
    }
}

impl Formed for Stamp {
    fn from_row(_alloc: Global, row: Row<'_>) -> Result<Self, Unread> {
        Stamp::new(row.number()).ok_or(Unread::Unusual)
    }

    fn to_value(&self, _alloc: Global) -> Result<Value, Memory> {
        Ok(Value::from(self.get()))
    }
}

impl Formed for Tag {
    fn from_row(_alloc: Global, row: Row<'_>) -> Result<Self, Unread> {
        Tag::new(row.byte()).ok_or(Unread::Unusual)
    }

    fn to_value(&self, _alloc: Global) -> Result<Value, Memory> {
        Ok(Value::from(self.get() as u64))
    }
}

impl Formed for Most {
    fn from_row(_alloc: Global, row: Row<'_>) -> Result<Self, Unread> {
        Most::new(row.byte()).ok_or(Unread::Unusual)
    }

    fn to_value(&self, _alloc: Global) -> Result<Value, Memory> {
        Ok(Value::from(self.get() as u64))
    }
}

impl Formed for Bytes {
    fn from_row(alloc: Global, row: Row<'_>) -> Result<Self, Unread> {
        Ok(Bytes::from_vec(row.bytes(alloc)?))
    }

    fn to_value(&self, alloc: Global) -> Result<Value, Memory> {
        hex_value(alloc, self.as_slice())
    }
}

impl Formed for String {
    fn from_row(alloc: Global, row: Row<'_>) -> Result<Self, Unread> {
        match row.slot {
            Slot::Text(text) => Ok(String::from_str(alloc, text)?),
            _ => Err(Unread::Unusual),
        }
    }

    fn to_value(&self, alloc: Global) -> Result<Value, Memory> {
        text_value(alloc, self.as_str())
    }
}

impl Formed for CellValue {
    fn from_row(alloc: Global, row: Row<'_>) -> Result<Self, Unread> {
        CellValue::new(row.bytes(alloc)?).ok_or(Unread::Unusual)
    }

    fn to_value(&self, alloc: Global) -> Result<Value, Memory> {
        hex_value(alloc, self.as_slice())
    }
}

/// A value, or null.
impl<T: Formed> Formed for Option<T> {
    fn from_row(alloc: Global, row: Row<'_>) -> Result<Self, Unread> {
        if row.is_none() {
            return Ok(None);
        }
        Ok(Some(T::from_row(alloc, row)?))
    }

    fn to_value(&self, alloc: Global) -> Result<Value, Memory> {
        match self {
            Some(value) => value.to_value(alloc),
            None => Ok(Value::Null),
        }
    }
}

impl<T: Formed> Formed for Vec<T> {
    fn from_row(alloc: Global, row: Row<'_>) -> Result<Self, Unread> {
        let count = row.slots().len();
        let mut all = Vec::with_capacity(alloc, count)?;
        let mut parts = row.parts();
        for _part in 0..count {
            all.push(parts.take(alloc)?)?;
        }
        Ok(all)
    }

    fn to_value(&self, alloc: Global) -> Result<Value, Memory> {
        write_all(alloc, self.as_slice())
    }
}

impl<A: Formed, B: Formed> Formed for (A, B) {
    fn from_row(alloc: Global, row: Row<'_>) -> Result<Self, Unread> {
        let mut parts = row.parts();
        let first = parts.take(alloc)?;
        Ok((first, parts.take(alloc)?))
    }

    fn to_value(&self, alloc: Global) -> Result<Value, Memory> {
        let mut items = Vec::with_capacity(alloc, 2)?;
        items.push(self.0.to_value(alloc)?)?;
        items.push(self.1.to_value(alloc)?)?;
        Ok(Value::Array(items))
    }
}

impl Formed for Rows {
    fn from_row(alloc: Global, row: Row<'_>) -> Result<Self, Unread> {
        Ok(Rows::from_vec(Vec::from_row(alloc, row)?))
    }

    fn to_value(&self, alloc: Global) -> Result<Value, Memory> {
        write_all(alloc, self.as_slice())
    }
}

/// The place of a log, behind which others may stand.
impl Formed for LogId {
    fn from_row(alloc: Global, row: Row<'_>) -> Result<Self, Unread> {
        let (epoch, index) = Formed::from_row(alloc, row)?;
        Ok(LogId { epoch, index })
    }

    fn to_value(&self, alloc: Global) -> Result<Value, Memory> {
        Object::new(alloc)
            .with("epoch", &self.epoch)?
            .with("log", &self.index)?
            .value()
    }
}

/// The number of logs, behind the degree.
impl Formed for Shape {
    fn from_row(_alloc: Global, row: Row<'_>) -> Result<Self, Unread> {
        Shape::new(row.part(1).byte(), row.part(0).byte()).ok_or(Unread::Unusual)
    }

    fn to_value(&self, alloc: Global) -> Result<Value, Memory> {
        Object::new(alloc)
            .with("degree", &self.k())?
            .with("logs", &self.m())?
            .value()
    }
}

// ---- batches

/// A batch within its limits.
impl Formed for Batch {
    fn from_row(alloc: Global, row: Row<'_>) -> Result<Self, Unread> {
        match Batch::new(Vec::from_row(alloc, row)?) {
            // Copies of it follow, in turns and journals.
            Ok(batch) => match batch.share() {
                Ok(batch) => Ok(batch),
                Err(Memory) => Err(Unread::Memory),
            },
            Err(BatchFault::Memory) => Err(Unread::Memory),
            Err(_) => Err(Unread::Unusual),
        }
    }

    fn to_value(&self, alloc: Global) -> Result<Value, Memory> {
        write_all(alloc, self.mutations())
    }
}

/// `set` and `clear` are the first two of the table.
impl Formed for Mutation {
    fn from_row(alloc: Global, row: Row<'_>) -> Result<Self, Unread> {
        let (which, content) = row.named();
        if which == 0 {
            let (key, value) = Formed::from_row(alloc, content)?;
            return Ok(Mutation::Set { key, value });
        }
        if which == 1 {
            let (begin, end) = Formed::from_row(alloc, content)?;
            return Ok(Mutation::Clear { begin, end });
        }
        let name = table::MUTATION.member(which).unwrap_or("");
        let op = AtomicOp::from_name(name).ok_or(Unread::Unusual)?;
        let (key, param) = Formed::from_row(alloc, content)?;
        Ok(Mutation::Atomic { op, key, param })
    }

    fn to_value(&self, alloc: Global) -> Result<Value, Memory> {
        let (name, key, first, operand, second) = match self {
            Mutation::Set { key, value } => ("set", "key", key, "value", value),
            Mutation::Clear { begin, end } => ("clear", "begin", begin, "end", end),
            Mutation::Atomic { op, key, param } => (
                op.name(),
                "key",
                key,
                op.operand_name(),
                param,
            ),
        };
        Object::new(alloc)
            .with(key, first)?
            .with(operand, second)?
            .named(name)
    }
}

// ---- logs

/// How far tags are popped: one at least, by rising tags, or left out.
impl Formed for PoppedTags {
    fn from_row(alloc: Global, row: Row<'_>) -> Result<Self, Unread> {
        let popped = PoppedTags::from_vec(Vec::from_row(alloc, row)?);
        if row.is_none() || rise(&popped) {
            Ok(popped)
        } else {
            Err(Unread::Unusual)
        }
    }

    fn to_value(&self, alloc: Global) -> Result<Value, Memory> {
        write_all(alloc, self.as_slice())
    }

    fn is_left_out(&self) -> bool {
        self.as_slice().is_empty()
    }
}

/// Whether there are entries, and their tags rise.
fn rise(popped: &PoppedTags) -> bool {
    let mut least = 0u8;
    for entry in popped.as_slice() {
        if entry.tag.get() < least {
            return false;
        }
        least = entry.tag.get().wrapping_add(1);
    }
    least > 0
}

/// A push within its limits: of bodies, or of a mark without bodies, at the version after `prev`.
impl Formed for Push {
    fn from_row(alloc: Global, row: Row<'_>) -> Result<Self, Unread> {
        let mut parts = row.parts();
        let bodies: Vec<Body> = parts.take(alloc)?;
        let epoch = parts.take(alloc)?;
        let known = parts.take(alloc)?;
        let mark: Option<CoordState> = parts.take(alloc)?;
        let prev = parts.take(alloc)?;
        let version = parts.take(alloc)?;
        let Some(state) = mark else {
            return Push::new(epoch, prev, version, known, bodies).ok_or(Unread::Unusual);
        };
        match Push::mark(alloc, epoch, prev, known, state) {
            Some(push) if push.version() == version && bodies.is_empty() => Ok(push),
            _ => Err(Unread::Unusual),
        }
    }

    fn to_value(&self, alloc: Global) -> Result<Value, Memory> {
        let object = Object::new(alloc)
            .put("bodies", write_all(alloc, self.bodies()))?
            .with("epoch", &self.epoch())?
            .with("known", &self.known())?
            .with("prev", &self.prev())?
            .with("version", &self.version())?;
        match self.marked() {
            Some(state) => object.with("mark", state)?.value(),
            None => object.with("mark", &None::<CoordState>)?.value(),
        }
    }
}

// ---- states

/// A state: the list of its generations, or, where some were dropped, an object of their number and that list.
impl Formed for CoordState {
    fn from_row(alloc: Global, row: Row<'_>) -> Result<Self, Unread> {
        match row.part(0).slot {
            Slot::Number(dropped) => {
                let left = state_of(alloc, Vec::from_row(alloc, row.part(1))?)?;
                with_dropped(alloc, dropped, &left)
            }
            _ => state_of(alloc, Vec::from_row(alloc, row)?),
        }
    }

    fn to_value(&self, alloc: Global) -> Result<Value, Memory> {
        if self.dropped() == 0 {
            return write_all(alloc, self.gens());
        }
        Object::new(alloc)
            .with("dropped", &self.dropped())?
            .put("gens", write_all(alloc, self.gens()))?
            .value()
    }
}

/// The state of generations, of which none was dropped.
fn state_of(alloc: Global, generations: Vec<Generation>) -> Result<CoordState, Unread> {
    let mut all = generations.into_iter();
    let first = all.next().ok_or(Unread::Unusual)?;
    let mut state = CoordState::new(alloc, first).map_err(|_| Unread::Memory)?;
    for generation in all {
        match state.extend(generation) {
            Ok(()) => {}
            Err(StateFault::Memory) => return Err(Unread::Memory),
            Err(_) => return Err(Unread::Unusual),
        }
    }
    Ok(state)
}

/// A state, and so many generations that were dropped before those that are left: what the bytes of both are read as.
fn with_dropped(alloc: Global, dropped: u64, state: &CoordState) -> Result<CoordState, Unread> {
    let Ok(spelled) = encode(alloc, state) else {
        return Err(Unread::Memory);
    };
    let mut bytes = Vec::with_capacity(alloc, 9 + spelled.len())?;
    bytes.push(2)?;
    bytes.extend_from_slice(&dropped.to_be_bytes())?;
    if let [_, rest @ ..] = spelled.as_slice() {
        bytes.extend_from_slice(rest)?;
    }
    match decode(alloc, &bytes) {
        Ok(state) => Ok(state),
        Err(StateDecodeFault::Memory) => Err(Unread::Memory),
        Err(_) => Err(Unread::Unusual),
    }
}
