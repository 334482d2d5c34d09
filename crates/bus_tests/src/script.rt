// Calls with the answers that they must get.
use any_bus::{BusCall, BusReply, answer};
use bus::{Bus, BusFault};
use card::{FillFault, ProgramCard};
use std::process::Abort;

// Sends each call in turn.
pub fn check_calls<B: Bus>(
    rt: &impl Abort,
    bus: &mut B,
    script: &[(BusCall, Result<BusReply, BusFault>)],
) {
    check_noted(rt, bus, script, "an answer");
}

// The same, with what the calls show, for the message of a test that fails.
pub fn check_noted<B: Bus>(
    rt: &impl Abort,
    bus: &mut B,
    script: &[(BusCall, Result<BusReply, BusFault>)],
    note: &str,
) {
    for (call, said) in script {
        assert_eq!(rt; answer(bus, *call), *said, "{note}");
    }
}

// One call, sent `times` times.
pub fn check_repeated<B: Bus>(
    rt: &impl Abort,
    bus: &mut B,
    times: u16,
    call: BusCall,
    said: Result<BusReply, BusFault>,
) {
    for _ in 0..times {
        assert_eq!(rt; answer(bus, call), said);
    }
}

pub fn check_number(rt: &impl Abort, fault: BusFault, number: u8) {
    assert_eq!(rt; fault.number(), number);
}

pub fn check_filled(
    rt: &impl Abort,
    card: &mut ProgramCard,
    bytes: &[u8],
    said: Result<(), FillFault>,
) {
    assert_eq!(rt; card.fill(bytes), said);
}
