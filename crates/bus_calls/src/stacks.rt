// The stacks of buses that the calls go to.
use crate::report::{Script, send_script, write_bytes, write_digest};
use bus::{Bus, Flat};
use card::ProgramCard;
use console::Console;
use std::fmt::Write;

// More than a bus has addresses, and odd.
const MOST_BYTES: usize = 65539;

// More than a card holds.
const MOST_PROGRAM: usize = 4098;

// The same bytes before each stack.
fn refill(bytes: &mut [u8]) {
    let mut b: u8 = 3;
    for byte in bytes.iter_mut() {
        *byte = b;
        b = b.wrapping_add(7);
    }
}

// A card filled with `program`, and the number of the refusal if it is one.
fn filled(out: &mut String, program: &[u8]) -> anyhow::Result<ProgramCard> {
    let mut card = ProgramCard::new();
    let length = program.len();
    match card.fill(program) {
        Ok(()) => writeln!(out, "card {length}")?,
        Err(f) => writeln!(out, "card {length} !{}", f.number())?,
    }
    Ok(card)
}

// Sends the script to a bus, then writes its digest, and gives it back.
fn sent<B: Bus + Drop>(out: &mut String, script: Script, mut bus: B) -> anyhow::Result<B> {
    send_script(out, script, &mut bus)?;
    write_digest(out, &mut bus)?;
    Ok(bus)
}

// Lends the same bytes to a stack that `run` builds over them, and writes what comes back.
fn lend<F: FnOnce(&mut String, &mut [u8]) -> anyhow::Result<()>>(
    out: &mut String,
    bytes: &mut [u8],
    run: F,
) -> anyhow::Result<()>
    requires { F.IsAlwaysCallable run }
{
    refill(bytes);
    run(out, bytes)?;
    write_bytes(out, bytes)
}

fn flat(out: &mut String, script: Script, bytes: &mut [u8]) -> anyhow::Result<()> {
    lend(out, bytes, |out, bytes| {
        sent(out, script, Flat::new(bytes))?;
        Ok(())
    })
}

fn card(out: &mut String, script: Script, program: &[u8], bytes: &mut [u8]) -> anyhow::Result<()> {
    lend(out, bytes, |out, bytes| {
        let bus = filled(out, program)?.over(Flat::new(bytes));
        let mut below = sent(out, script, bus)?.into_below();
        write_digest(out, &mut below)
    })
}

fn console(out: &mut String, script: Script, bytes: &mut [u8]) -> anyhow::Result<()> {
    lend(out, bytes, |out, bytes| {
        let bus = Console::new(Flat::new(bytes));
        let mut below = sent(out, script, bus)?.into_below();
        write_digest(out, &mut below)
    })
}

fn flats(out: &mut String, bytes: &mut [u8; MOST_BYTES]) -> anyhow::Result<()> {
    flat(out, Script::new("flat 0", 1), &mut bytes[..0])?;
    flat(out, Script::new("flat 7", 2), &mut bytes[..7])?;
    flat(out, Script::new("flat 65536", 3), &mut bytes[..65536])?;
    flat(out, Script::new("flat 65539", 4), bytes)
}

fn cards(
    out: &mut String,
    program: &[u8; MOST_PROGRAM],
    bytes: &mut [u8; MOST_BYTES],
) -> anyhow::Result<()> {
    card(
        out,
        Script::new("card 0, flat 64", 5),
        &program[..0],
        &mut bytes[..64],
    )?;
    card(
        out,
        Script::new("card 10, flat 64", 6),
        &program[..10],
        &mut bytes[..64],
    )?;
    card(
        out,
        Script::new("card 64, flat 11", 7),
        &program[..64],
        &mut bytes[..11],
    )?;
    card(
        out,
        Script::new("card 4096, flat 65536", 8),
        &program[..4096],
        &mut bytes[..65536],
    )?;
    card(
        out,
        Script::new("card 11 refused, flat 20", 9),
        &program[..11],
        &mut bytes[..20],
    )?;
    card(
        out,
        Script::new("card 4098 refused, flat 20", 10),
        program,
        &mut bytes[..20],
    )?;
    lend(out, &mut bytes[..12], |out, bytes| {
        let lower = filled(out, &program[..8])?.over(Flat::new(bytes));
        let bus = filled(out, &program[..4])?.over(lower);
        sent(out, Script::new("card 4, card 8, flat 12", 11), bus)?;
        Ok(())
    })
}

fn consoles(
    out: &mut String,
    program: &[u8; MOST_PROGRAM],
    bytes: &mut [u8; MOST_BYTES],
) -> anyhow::Result<()> {
    console(out, Script::new("console, flat 0", 12), &mut bytes[..0])?;
    console(
        out,
        Script::new("console, flat 65536", 13),
        &mut bytes[..65536],
    )?;
    lend(out, &mut bytes[..65535], |out, bytes| {
        let bus = Console::new(filled(out, &program[..4096])?.over(Flat::new(bytes)));
        sent(out, Script::new("console, card 4096, flat 65535", 14), bus)?;
        Ok(())
    })?;
    lend(out, &mut bytes[..7], |out, bytes| {
        let bus = filled(out, &program[..16])?.over(Console::new(Flat::new(bytes)));
        sent(out, Script::new("card 16, console, flat 7", 15), bus)?;
        Ok(())
    })?;
    // The lower console has bytes of its own before the upper one hides it.
    lend(out, &mut bytes[..61445], |out, bytes| {
        let mut lower = Console::new(Flat::new(bytes));
        send_script(out, Script::new("lower console", 16), &mut lower)?;
        let bus = Console::new(lower);
        let mut below = sent(
            out,
            Script::new("console, console, flat 61445", 17),
            bus,
        )?.into_below();
        write_digest(out, &mut below)
    })
}

pub fn all(out: &mut String) -> anyhow::Result<()> {
    let mut bytes = [0; MOST_BYTES];
    let mut program = [0; MOST_PROGRAM];
    refill(&mut program);
    flats(out, &mut bytes)?;
    cards(out, &program, &mut bytes)?;
    consoles(out, &program, &mut bytes)
}
