//! The reader of all forms.
ghost use Rattle.std.specs.Prelude.{◌≡◌, ◌<◌, length, Some, IfSome, OnOk, IsTrue, IsUtf8};
ghost use Rattle.serde_json.specs.Data.{unsigned, Data, Num, Items, Members, no_members};
ghost use Rattle.serde_json.specs.Read.{number_of, read};
ghost use Rattle.fr_cli_json.specs.Tokens.{BeginsWithItems, BeginsWithMembers};
ghost use Rattle.fr_forms.specs.Pieces.{HasValue};

use crate::fault::ScriptFault;
use crate::form::{Form, Piece};
use crate::mistake::{Mistake, NO_JSON, Wanted, explain};
use crate::row::{Formed, Row};
use crate::tape::{Slot, Tape};
use fast_float::Numeral;
use fr_cli_json::tokens::Unread;
use json::{Reader, Scratch, Token};
use std::alloc::Global;

/// Who takes the parts that are handed out.
pub trait Sink {
    /// A list of such parts begins. Those of an earlier one count for nothing.
    fn begin(&mut self, _part: Piece) {}

    /// Takes a part.
    fn take(&mut self, _alloc: Global, _part: Piece, _row: Row<'_>) -> Result<(), Unread> {
        Ok(())
    }

    /// Takes the whole, of which the parts were taken.
    fn end(&mut self, _alloc: Global, _whole: Row<'_>) -> Result<(), Unread> {
        Ok(())
    }
}

/// Nobody takes the parts.
#[derive(Drop)]
pub struct Nobody;

impl Sink for Nobody {}

/// Who takes one value whole.
#[derive(Drop)]
struct One<T: Formed> {
    value: Option<T>,
}

impl<T: Formed> Sink for One<T> {
    fn end(&mut self, alloc: Global, whole: Row<'_>) -> Result<(), Unread> {
        self.value = Some(T::from_row(alloc, whole)?);
        Ok(())
    }
}

/// Reads a text that is one value of a form.
pub fn read_one<T: Formed>(
    alloc: Global,
    text: &[u8],
    form: &'static Form,
) -> Result<T, ScriptFault>
    ensures json { OnOk result ((d : Data) × (read text.now ≡ Some d)) }
{
    let mut one = One { value: None };
    match read_text(alloc, text, form, &mut one, &mut String::new(alloc)) {
        Ok(()) => one.value.ok_or(ScriptFault::BadScript),
        Err(fault) => Err(fault),
    }
}

/// Reads a text that is to be of a form, and hands out its parts. Of a bad script `place` says where it is bad and what
/// may stand there, as far as there is memory for that.
pub fn read_text<S: Sink>(
    alloc: Global,
    input: &[u8],
    form: &'static Form,
    sink: &mut S,
    place: &mut String,
) -> Result<(), ScriptFault>
    ensures utf8 { OnOk result (IsUtf8 input.now) }
    ensures json { OnOk result ((d : Data) × (read input.now ≡ Some d)) }
{
    let mut mistake = NO_JSON;
    if let Ok(text) = simdutf8::compat::from_utf8(input) {
        match read_whole(alloc, text, form, sink, &mut mistake) {
            Ok(()) => return Ok(()),
            Err(Unread::Memory) => return Err(ScriptFault::Memory),
            Err(Unread::Unusual) => {}
        }
    }
    if let Ok(said) = explain(alloc, input, mistake) {
        *place = said;
    }
    Err(ScriptFault::BadScript)
}

/// Reads a text; of one that is bad it gives the first mistake that counts.
fn read_whole<S: Sink>(
    alloc: Global,
    text: &str,
    form: &'static Form,
    sink: &mut S,
    mistake: &mut Mistake,
) -> Result<(), Unread>
    ensures json { OnOk result ((d : Data) × (read text.now ≡ Some d)) }
{
    let mut scratch = Scratch::new(alloc);
    let mut reader = Reader::new(text, &mut scratch)?;
    let mut tape = Tape::new(alloc);
    read_value(alloc, &mut tape, &mut reader, sink, form, 127)?;
    mistake.end = reader.offset();
    if reader.next().is_some() {
        return Err(Unread::Unusual);
    }
    end(alloc, &tape, sink, mistake)?;
    Ok(())
}

/// Gives the value of a text to whoever takes it, or its first mistake.
fn end<S: Sink>(
    alloc: Global,
    tape: &Tape<'_>,
    sink: &mut S,
    mistake: &mut Mistake,
) -> Result<(), Unread> {
    if let Slot::Wrong(index) = tape.last {
        *mistake = tape.mistakes.get(index).copied().unwrap_or(*mistake);
        return Err(Unread::Unusual);
    }
    mistake.wanted = Wanted::Whole;
    sink.end(alloc, Row::new(tape.parts.as_slice(), tape.last))
}

/// Reads the next value, which is to be of a form: arrays and objects nest no deeper than `depth`. What is no JSON is
/// `Unusual`. What is not in its form is a mistake, and read to its end all the same, since a member that a later one
/// of its name replaces may be any JSON.
#[cycle(read)]
#[inline(always)]
fn read_value<'a, S: Sink>(
    alloc: Global,
    tape: &mut Tape<'a>,
    reader: &mut Reader<'a>,
    sink: &mut S,
    form: &'static Form,
    depth: usize,
) -> Result<(), Unread>
    ensures value { OnOk result (HasValue depth reader.old reader.new) }
    ensures shorter { OnOk result (length reader.new < length reader.old) }
{
    let Some(token) = reader.next() else {
        return Err(Unread::Unusual);
    };
    let end = reader.offset();
    match token {
        Token::String(text) => {
            tape.value(form, Slot::Text(text), end)?;
            Ok(())
        }
        Token::Number(digits) => {
            tape.value(form, number_slot(digits.as_bytes())?, end)?;
            Ok(())
        }
        Token::Bool(truth) => {
            tape.value(form, Slot::Flag(truth), end)?;
            Ok(())
        }
        Token::Null => {
            tape.value(form, Slot::Null, end)?;
            Ok(())
        }
        Token::BeginArray => {
            if depth == 0 {
                return Err(Unread::Unusual);
            }
            read_items(alloc, tape, reader, sink, form, depth - 1)?;
            Ok(())
        }
        Token::BeginObject => {
            if depth == 0 {
                return Err(Unread::Unusual);
            }
            read_members(alloc, tape, reader, sink, form, depth - 1)?;
            Ok(())
        }
        Token::EndObject | Token::EndArray | Token::Key(_) | Token::Bad => Err(Unread::Unusual),
    }
}

/// Reads the items of an array that has begun, and its end.
#[cycle(read)]
#[inline(never)]
fn read_items<'a, S: Sink>(
    alloc: Global,
    tape: &mut Tape<'a>,
    reader: &mut Reader<'a>,
    sink: &mut S,
    form: &'static Form,
    depth: usize,
) -> Result<(), Unread>
    ensures value { OnOk result ((found : Items) × BeginsWithItems depth (length reader.old) reader.old found reader.new) }
    ensures shorter { OnOk result (length reader.new < length reader.old) }
{
    let mut open = tape.begin(form, false, reader.offset())?;
    if let Some(part) = open.listed() {
        sink.begin(part);
    }
    'items: while !reader.take_end_array() {
        let (item, at) = tape.item(&mut open);
        let first = tape.parts.len();
        read_value(alloc, tape, reader, sink, item, depth)?;
        hand(alloc, tape, sink, item, (first, reader.offset()))?;
        tape.add(&mut open, at)?;
    }
    tape.end(&mut open, reader.offset())?;
    Ok(())
}

/// Reads the members of an object that has begun, and its end.
#[cycle(read)]
#[inline(never)]
fn read_members<'a, S: Sink>(
    alloc: Global,
    tape: &mut Tape<'a>,
    reader: &mut Reader<'a>,
    sink: &mut S,
    form: &'static Form,
    depth: usize,
) -> Result<(), Unread>
    ensures value { OnOk result ((found : Members) × BeginsWithMembers depth (length reader.old) reader.old no_members found reader.new) }
    ensures shorter { OnOk result (length reader.new < length reader.old) }
{
    let mut open = tape.begin(form, true, reader.offset())?;
    'members: while let Some(name) = reader.next_key()? {
        let (member, at) = tape.member(&mut open, name, reader.offset())?;
        let first = tape.parts.len();
        read_value(alloc, tape, reader, sink, member, depth)?;
        hand(alloc, tape, sink, member, (first, reader.offset()))?;
        tape.put(&mut open, at);
    }
    tape.end(&mut open, reader.offset())?;
    Ok(())
}

/// Hands a value out, if its form is to be: its parts are on the tape from the first number on, and it ends at the
/// second.
#[inline(always)]
fn hand<'a, S: Sink>(
    alloc: Global,
    tape: &mut Tape<'a>,
    sink: &mut S,
    form: &'static Form,
    place: (usize, usize),
) -> Result<(), Unread> {
    match form {
        Form::Handed(part, _) if !matches!(tape.last, Slot::Wrong(_)) => {
            give(alloc, tape, sink, *part, place)
        }
        _ => Ok(()),
    }
}

/// Gives a part to whoever takes it.
#[inline(never)]
fn give<'a, S: Sink>(
    alloc: Global,
    tape: &mut Tape<'a>,
    sink: &mut S,
    part: Piece,
    place: (usize, usize),
) -> Result<(), Unread> {
    let taken = sink.take(alloc, part, Row::new(tape.parts.as_slice(), tape.last));
    tape.parts.truncate(place.0);
    tape.last = Slot::Null;
    match taken {
        Err(Unread::Unusual) => tape.wrong(place.1, Wanted::Whole),
        _ => taken,
    }
}

/// What the text of a number counts for: the number, if it is written in digits alone and fits 64 bits, else nothing.
#[inline(always)]
fn number_slot(digits: &[u8]) -> Result<Slot<'static>, Unread>
    ensures { OnOk result ((n : Num) × (number_of digits.now ≡ Some n)) }
{
    match unsigned(digits) {
        Some(number) => Ok(Slot::Number(number)),
        None => if is_in_range(digits) {
            Ok(Slot::Absent)
        } else {
            Err(Unread::Unusual)
        },
    }
}

/// The number that a text of JSON's is, if it is written in digits alone and fits 64 bits.
fn unsigned(digits: &[u8]) -> Option<u64>
    ensures { IfSome result (λ n. number_of digits.now ≡ Some (unsigned n)) }
{
    if digits.is_empty() || digits[0] == b'-' {
        return None;
    }
    Numeral::scan(digits).to_u64()
}

/// Whether a text of JSON's is a number that a double can come near: JSON here has no greater ones.
pub(crate) fn is_in_range(digits: &[u8]) -> bool
    ensures { IsTrue result → (n : Num) × (number_of digits.now ≡ Some n) }
{
    if digits.is_empty() {
        return false;
    }
    if digits[0] == b'-' {
        Numeral::scan(&digits[1..])
            .to_float::<f64>(true)
            .is_finite()
    } else {
        Numeral::scan(digits).to_float::<f64>(false).is_finite()
    }
}
