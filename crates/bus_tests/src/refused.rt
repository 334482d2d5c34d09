// One example for each refusal.
use crate::script::{check_calls, check_filled, check_number, check_repeated};
use any_bus::BusCall::*;
use any_bus::BusReply::*;
use bus::{BusFault, Flat};
use card::{FillFault, ProgramCard};
use console::Console;

#[test]
fn odd_address_30(rt: HostRuntime) {
    check_number(&rt, BusFault::OddAddress, 30);
    let mut bytes = [0; 4];
    // the second lies past the cells: 30 comes before 31
    check_calls(
        &rt,
        &mut Flat::new(&mut bytes),
        &[
            (LoadWord(1), Err(BusFault::OddAddress)),
            (StoreWord(9, 0), Err(BusFault::OddAddress)),
        ],
    );
}

#[test]
fn nothing_there_31(rt: HostRuntime) {
    check_number(&rt, BusFault::NothingThere, 31);
    // the fifth byte is cut off
    let mut bytes = [0; 5];
    check_calls(
        &rt,
        &mut Flat::new(&mut bytes),
        &[
            (LoadByte(4), Err(BusFault::NothingThere)),
            (StoreWord(4, 1), Err(BusFault::NothingThere)),
        ],
    );
}

#[test]
fn byte_at_port_32(rt: HostRuntime) {
    check_number(&rt, BusFault::ByteAtPort, 32);
    // also at an odd address, and the wrong way: 32 comes before 33
    let mut console = Console::new(Flat::new(&mut []));
    check_calls(
        &rt,
        &mut console,
        &[
            (LoadByte(0xF005), Err(BusFault::ByteAtPort)),
            (StoreByte(0xF004, 1), Err(BusFault::ByteAtPort)),
        ],
    );
}

#[test]
fn wrong_way_33(rt: HostRuntime) {
    check_number(&rt, BusFault::WrongWay, 33);
    let mut card = ProgramCard::new();
    check_filled(&rt, &mut card, &[1, 2], Ok(()));
    let mut bus = card.over(Console::new(Flat::new(&mut [])));
    let no = Err(BusFault::WrongWay);
    check_calls(
        &rt,
        &mut bus,
        &[
            (StoreByte(1, 9), no),
            (LoadWord(0xF002), no),
            (StoreWord(0xF004, 7), no),
        ],
    );
}

#[test]
fn none_waiting_34(rt: HostRuntime) {
    check_number(&rt, BusFault::NoneWaiting, 34);
    check_calls(
        &rt,
        &mut Console::new(Flat::new(&mut [])),
        &[(LoadWord(0xF004), Err(BusFault::NoneWaiting))],
    );
}

#[test]
fn no_room_35(rt: HostRuntime) {
    check_number(&rt, BusFault::NoRoom, 35);
    let mut console = Console::new(Flat::new(&mut []));
    check_repeated(&rt, &mut console, 1019, StoreWord(0xF000, 0x2A), Ok(Done));
    // five bytes are left: -32768 has six, 32767 has five
    let no = Err(BusFault::NoRoom);
    check_calls(
        &rt,
        &mut console,
        &[
            (StoreWord(0xF002, 0x8000), no),
            (StoreWord(0xF002, 32767), Ok(Done)),
            (StoreWord(0xF000, 1), no),
        ],
    );
}

#[test]
fn waiting_full_36(rt: HostRuntime) {
    check_number(&rt, BusFault::WaitingFull, 36);
    let mut console = Console::new(Flat::new(&mut []));
    check_repeated(&rt, &mut console, 256, Give(1), Ok(Done));
    check_calls(&rt, &mut console, &[(Give(1), Err(BusFault::WaitingFull))]);
}

#[test]
fn none_sent_37(rt: HostRuntime) {
    check_number(&rt, BusFault::NoneSent, 37);
    check_calls(
        &rt,
        &mut Console::new(Flat::new(&mut [])),
        &[(Take, Err(BusFault::NoneSent))],
    );
}

#[test]
fn wrong_length_38(rt: HostRuntime) {
    assert_eq!(rt; FillFault::WrongLength.number(), 38);
    let mut card = ProgramCard::new();
    check_filled(&rt, &mut card, &[7, 8], Ok(()));
    check_filled(&rt, &mut card, &[1, 2, 3], Err(FillFault::WrongLength));
    check_filled(&rt, &mut card, &[0; 4098], Err(FillFault::WrongLength));
    // a refused filling leaves the card as it was
    check_calls(
        &rt,
        &mut card.over(Flat::new(&mut [])),
        &[(Peek(1), Ok(Seen(Some(8)))), (Peek(2), Ok(Seen(None)))],
    );
}
