//! Two ballots one after the other: the later one finds what is chosen.
ghost use Rattle.std.specs.Prelude.{◌≡◌, IfOk};
ghost use Rattle.fr_register.specs.declared.poll.Progress.{Progress};
ghost use Rattle.example_ballots.specs.Scene.{after_attempt, attempt, attempt_of, found, found_nothing, held};

use crate::phases::{read_two, write_two};
use crate::scenes::{Attempt, Cells, SceneEnd, ballots};
use fr_base::{Ballot, Memory};
use fr_register::{Cell, CellValue};
use std::alloc::Global;

/// A ballot reads two of three cells, in this order, and then writes a value to them.
fn read_and_write(
    alloc: Global,
    ballot: Ballot,
    value: &CellValue,
    one_index: u8,
    one: &mut Cell,
    other_index: u8,
    other: &mut Cell,
) -> Result<Attempt, Memory>
    ensures cells { IfOk result (λ _. (one.new ≡ after_attempt one.old ballot value.now) × (other.new ≡ after_attempt other.old ballot value.now)) }
    ensures attempt { IfOk result (λ a. a ≡ attempt_of ballot value.now one_index one.old other_index other.old) }
{
    let found = read_two(alloc, ballot, one_index, one, other_index, other)?;
    let wrote = write_two(alloc, ballot, value, one_index, one, other_index, other)?;
    Ok(Attempt { found, wrote })
}

/// The second ballot, 512, comes after the first, 256, whose value is in a majority of the cells: it
/// finds that value, and may then write over it. The only error is `Memory`.
pub fn in_turn(
    alloc: Global,
    first_value: &CellValue,
    second_value: &CellValue,
) -> Result<SceneEnd, Memory>
    ensures first { IfOk result (λ end. end.first ≡ attempt found_nothing Progress.Majority) }
    ensures second { IfOk result (λ end. end.second ≡ attempt (found 256 first_value.now) Progress.Majority) }
    ensures left { IfOk result (λ end. end.cells.left ≡ held 256 first_value.now) }
    ensures middle { IfOk result (λ end. end.cells.middle ≡ held 512 second_value.now) }
    ensures right { IfOk result (λ end. end.cells.right ≡ held 512 second_value.now) }
{
    let (first, second) = ballots();
    let mut left = Cell::new(alloc);
    let mut middle = Cell::new(alloc);
    let mut right = Cell::new(alloc);
    let earlier = read_and_write(alloc, first, first_value, 0, &mut left, 1, &mut middle)?;
    let later = read_and_write(alloc, second, second_value, 1, &mut middle, 2, &mut right)?;
    Ok(SceneEnd {
        first: earlier,
        second: later,
        cells: Cells {
            left,
            middle,
            right,
        },
    })
}
