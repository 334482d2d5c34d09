// The board of the Viking: what each instruction does to its registers, its next address and its bus.
#![tactic(auto)]

ghost use Rattle.machine.specs.Agreement.{Agreement};
ghost use Rattle.board.specs.Core.{RegistersStand};
ghost use Rattle.board.specs.Step.{AskedBefore};
ghost use Rattle.board.specs.Viking.{viking};
ghost use Rattle.board.specs.VikingLaws.{viking_laws};
ghost use Rattle.board.specs.Sums.{Sums};

use machine::{Lawful, board_follows_reading};

// The Viking, as a machine that keeps its laws.
#[derive(Drop)]
pub struct Viking;

impl Lawful for Viking {
    ghost machine = { viking };

    ghost keeps = { viking_laws };
}

// The agreement: a board follows the reading of every program whose lines keep what they owe.
pub fn boards_follow()
    ensures { Agreement viking }
{
    board_follows_reading::<Viking>();
}

// Registers are told apart by their numbers.
pub fn registers_stand()
    ensures { RegistersStand }
{}

// An odd access is refused before the bus is asked.
pub fn asked_before()
    ensures { AskedBefore }
{}

// What the definitions come to on given values: each kind of word, loads and stores on a bus, and runs of a small program.
pub fn sums_stand()
    ensures { Sums }
{}
