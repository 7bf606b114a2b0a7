//! Two ballots at once: the one that overtakes the other.
ghost use Rattle.std.specs.Prelude.{◌≡◌, IfOk};
ghost use Rattle.fr_register.specs.declared.poll.Progress.{Progress};
ghost use Rattle.example_ballots.specs.Scene.{attempt, found_nothing, held};

use crate::phases::{read_two, write_two};
use crate::scenes::{Attempt, Cells, SceneEnd, ballots};
use fr_base::Memory;
use fr_register::{Cell, CellValue};
use std::alloc::Global;

/// The second ballot, 512, reads between the reads of the first, 256, and its writes: the first loses to
/// it, and the second, which could not see the first's value, has its own in a majority of the cells.
/// The only error is `Memory`.
pub fn overtaken(
    alloc: Global,
    first_value: &CellValue,
    second_value: &CellValue,
) -> Result<SceneEnd, Memory>
    ensures first { IfOk result (λ end. end.first ≡ attempt found_nothing (Progress.Lost 512)) }
    ensures second { IfOk result (λ end. end.second ≡ attempt found_nothing Progress.Majority) }
    ensures left { IfOk result (λ end. end.cells.left ≡ held 256 first_value.now) }
    ensures middle { IfOk result (λ end. end.cells.middle ≡ held 512 second_value.now) }
    ensures right { IfOk result (λ end. end.cells.right ≡ held 512 second_value.now) }
{
    let (first, second) = ballots();
    let mut left = Cell::new(alloc);
    let mut middle = Cell::new(alloc);
    let mut right = Cell::new(alloc);
    let first_found = read_two(alloc, first, 0, &mut left, 1, &mut middle)?;
    let second_found = read_two(alloc, second, 1, &mut middle, 2, &mut right)?;
    let first_wrote = write_two(alloc, first, first_value, 0, &mut left, 1, &mut middle)?;
    let second_wrote = write_two(alloc, second, second_value, 1, &mut middle, 2, &mut right)?;
    Ok(SceneEnd {
        first: Attempt {
            found: first_found,
            wrote: first_wrote,
        },
        second: Attempt {
            found: second_found,
            wrote: second_wrote,
        },
        cells: Cells {
            left,
            middle,
            right,
        },
    })
}
