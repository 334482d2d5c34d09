// What a bus hides of the bus below it.
use crate::script::{check_calls, check_filled, check_noted};
use any_bus::BusCall::*;
use any_bus::BusReply::*;
use bus::{BusFault, Flat};
use card::ProgramCard;
use console::Console;

#[test]
fn console_over_console(rt: HostRuntime) {
    let mut lower = Console::new(Flat::new(&mut []));
    check_calls(
        &rt,
        &mut lower,
        &[(Give(1), Ok(Done)), (StoreWord(0xF000, 2), Ok(Done))],
    );
    let mut upper = Console::new(lower);
    check_calls(
        &rt,
        &mut upper,
        &[
            (LoadWord(0xF004), Err(BusFault::NoneWaiting)),
            (Take, Err(BusFault::NoneSent)),
        ],
    );
    check_calls(
        &rt,
        &mut upper,
        &[(Give(3), Ok(Done)), (StoreWord(0xF000, 4), Ok(Done))],
    );
    let mut lower = upper.into_below();
    check_noted(
        &rt,
        &mut lower,
        &[
            (LoadWord(0xF004), Ok(Loaded(1))),
            (Take, Ok(Taken(2))),
            (Take, Err(BusFault::NoneSent)),
        ],
        "what was hidden is as it was",
    );
}

#[test]
fn card_over_console(rt: HostRuntime) {
    let mut card = ProgramCard::new();
    check_filled(&rt, &mut card, &[1, 2], Ok(()));
    let mut bytes = [5, 6, 7, 8];
    let mut bus = card.over(Console::new(Flat::new(&mut bytes)));
    check_calls(
        &rt,
        &mut bus,
        &[
            (Give(9), Ok(Done)),
            (LoadWord(0xF004), Ok(Loaded(9))),
            (LoadWord(0), Ok(Loaded(0x0102))),
            (LoadWord(2), Ok(Loaded(0x0708))),
        ],
    );
}

#[test]
fn console_over_card(rt: HostRuntime) {
    let mut card = ProgramCard::new();
    check_filled(&rt, &mut card, &[1, 2], Ok(()));
    let mut bytes = [0; 65536];
    let mut bus = Console::new(card.over(Flat::new(&mut bytes)));
    // a fixed cell stays one, and a port stands where a cell lies below
    check_calls(
        &rt,
        &mut bus,
        &[
            (StoreWord(0, 7), Err(BusFault::WrongWay)),
            (Peek(0xF001), Ok(Seen(None))),
            (StoreByte(0xF006, 7), Ok(Done)),
            (LoadByte(0xEFFF), Ok(Loaded(0))),
        ],
    );
}
