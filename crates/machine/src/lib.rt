// Why a board does what the lines of its program say: the theory, over no particular word, line or word size.
// The definitions stand in specs/: a machine, its board, programs of lines, what a line owes, the reading, calls, and the agreement.
#![tactic(auto)]

ghost use Rattle.machine.specs.Machine.{Machine, Laws};
ghost use Rattle.machine.specs.Agreement.{Agreement};
ghost use Rattle.machine.specs.Rules.{Rules};

// A type that stands for a machine, and owes that the machine keeps its laws.
pub trait Lawful {
    ghost machine: { Machine };

    ghost keeps: { Laws machine };
}

// Board against reading, on every machine that keeps its laws: whatever calls are sent, a newly started board follows the reading of every
// program whose lines keep what they owe.
pub fn board_follows_reading<T: Lawful>()
    ensures { Agreement T.Lawful.machine }
{}

// The ready-made ways to show that a line keeps what it owes, on every machine that keeps its laws.
pub fn rules_hold<T: Lawful>()
    ensures { Rules T.Lawful.machine }
{}
