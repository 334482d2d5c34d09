// One accepted call of each kind.
use crate::script::{check_calls, check_filled, check_noted};
use any_bus::BusCall::*;
use any_bus::BusReply::*;
use any_bus::read_back::{store_and_load_byte, store_and_load_in, store_and_load_word};
use bus::{BusFault, Flat};
use card::ProgramCard;
use console::Console;
use std::process::Abort;

#[test]
fn flat_memory(rt: HostRuntime) {
    let mut bytes = [1, 2, 3, 4];
    check_calls(
        &rt,
        &mut Flat::new(&mut bytes),
        &[
            (Peek(3), Ok(Seen(Some(4)))),
            (LoadByte(0), Ok(Loaded(1))),
            (LoadWord(2), Ok(Loaded(0x0304))),
            (StoreByte(1, 9), Ok(Done)),
            (StoreWord(2, 0xABCD), Ok(Done)),
        ],
    );
    assert_eq!(rt;
        bytes,
        [1, 9, 0xAB, 0xCD],
        "the lender has what the bus held last"
    );
}

#[test]
fn card_over_memory(rt: HostRuntime) {
    let mut card = ProgramCard::new();
    check_filled(&rt, &mut card, &[1, 2], Ok(()));
    let mut bytes = [5, 6, 7, 8];
    let mut bus = card.over(Flat::new(&mut bytes));
    check_calls(
        &rt,
        &mut bus,
        &[
            (Peek(1), Ok(Seen(Some(2)))),
            (LoadByte(0), Ok(Loaded(1))),
            (LoadWord(0), Ok(Loaded(0x0102))),
        ],
    );
    check_calls(
        &rt,
        &mut bus,
        &[
            (StoreByte(2, 9), Ok(Done)),
            (StoreWord(2, 0x0A0B), Ok(Done)),
            (LoadWord(2), Ok(Loaded(0x0A0B))),
        ],
    );
    let mut below = bus.into_below();
    check_noted(
        &rt,
        &mut below,
        &[(LoadWord(0), Ok(Loaded(0x0506)))],
        "what lies under the card",
    );
}

#[test]
fn console_over_memory(rt: HostRuntime) {
    let mut bytes = [5, 6];
    let mut bus = Console::new(Flat::new(&mut bytes));
    check_calls(
        &rt,
        &mut bus,
        &[
            (Give(0xFF), Ok(Done)),
            (Give(2), Ok(Done)),
            (LoadWord(0xF004), Ok(Loaded(0xFF))),
            (LoadWord(0xF004), Ok(Loaded(2))),
        ],
    );
    // of a character only the low byte is sent
    check_calls(
        &rt,
        &mut bus,
        &[
            (StoreWord(0xF000, 0x1241), Ok(Done)),
            (Take, Ok(Taken(0x41))),
            (Peek(1), Ok(Seen(Some(6)))),
        ],
    );
    let mut below = bus.into_below();
    check_calls(&rt, &mut below, &[(LoadByte(0), Ok(Loaded(5)))]);
}

// What the number port sends for `v`.
fn check_text(rt: &impl Abort, v: u16, text: &[u8]) {
    let mut bus = Console::new(Flat::new(&mut []));
    check_calls(rt, &mut bus, &[(StoreWord(0xF002, v), Ok(Done))]);
    for b in text {
        check_calls(rt, &mut bus, &[(Take, Ok(Taken(*b)))]);
    }
    check_calls(rt, &mut bus, &[(Take, Err(BusFault::NoneSent))]);
}

#[test]
fn number_text(rt: HostRuntime) {
    check_text(&rt, 0, b"0");
    check_text(&rt, 10, b"10");
    check_text(&rt, 32767, b"32767");
    check_text(&rt, 0x8000, b"-32768");
    check_text(&rt, 0xFFFF, b"-1");
}

#[test]
fn read_back(rt: HostRuntime) {
    let mut bytes = [0; 5];
    assert_eq!(rt;
        store_and_load_byte(&mut Flat::new(&mut bytes), 1, 7),
        Ok(7)
    );
    assert_eq!(rt;
        store_and_load_word(&mut Flat::new(&mut bytes), 2, 0x1234),
        Ok(0x1234)
    );
    assert_eq!(rt; store_and_load_in(&mut bytes, 2, 0x5678), Ok(0x5678));
    assert_eq!(rt; bytes, [0, 7, 0x56, 0x78, 0]);
}
