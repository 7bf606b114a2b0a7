//! Three ballots, of which the second wins and the third finds the values of both that came before it.
ghost use Rattle.fr_register.specs.History.{IsWritten};
ghost use Rattle.fr_register.specs.Chosen.{IsChosen, Descends};
ghost use Rattle.fr_register.specs.Made.{IsLawful, parent_of};
ghost use Rattle.example_ballots.specs.Contended.{begun, readings, contended, won, later};

use fr_register::register_law;

/// A history on which every premise of the register's law holds: a value of the second ballot is in a
/// majority of the cells, beside another one of the first, and what the third wrote descends from it.
pub fn descended()
    ensures lawful { IsLawful 3 begun readings contended }
    ensures chosen { IsChosen 3 begun contended won }
    ensures written { IsWritten contended later }
    ensures descends { Descends contended (parent_of 3 readings) later won }
{
    register_law();
}
