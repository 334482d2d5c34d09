// What is written of a bus: each answer, and a digest of all that can be learned of it at the end.
use crate::random::Random;
use crate::script::{Drawn, drain, flood, mixed};
use any_bus::{BusCall, BusReply, answer};
use bus::{Bus, BusFault};
use std::fmt::Write;

// Answers on one line, so that a difference can be found by its line.
const PER_LINE: u32 = 20;

// One answer: a byte or a word as its number, none as `-`, done as `.`, a refusal as `!` and its number.
// Stays: a function over both types, since a `Display` would need a type of its own round the `Result`.
fn write_answer(out: &mut String, said: Result<BusReply, BusFault>) -> anyhow::Result<()> {
    match said {
        Ok(BusReply::Seen(None)) => out.push_str("-")?,
        Ok(BusReply::Seen(Some(b)) | BusReply::Taken(b)) => write!(out, "{b}")?,
        Ok(BusReply::Loaded(v)) => write!(out, "{v}")?,
        Ok(BusReply::Done) => out.push_str(".")?,
        Err(f) => write!(out, "!{}", f.number())?,
    }
    Ok(())
}

// Sends `lines` lines of calls, each made by `call`.
fn send_phase<B: Bus, F: Fn(Drawn) -> BusCall>(
    out: &mut String,
    bus: &mut B,
    random: &mut Random,
    lines: u32,
    call: F,
) -> anyhow::Result<()>
    requires { F.IsAlwaysCallable call }
{
    for _ in 0..lines {
        for i in 0..PER_LINE {
            if 0 < i {
                out.push_str(" ")?;
            }
            write_answer(out, answer(bus, call(Drawn::next(random))))?;
        }
        out.push_str("\n")?;
    }
    Ok(())
}

// A script: its heading, and the seed of its calls.
#[derive(Clone, Copy)]
pub struct Script {
    name: &'static str,
    seed: u32,
}

impl Script {
    pub fn new(name: &'static str, seed: u32) -> Script {
        Script { name, seed }
    }
}

// All phases, under the heading.
pub fn send_script<B: Bus>(out: &mut String, script: Script, bus: &mut B) -> anyhow::Result<()> {
    writeln!(out, "stack {}", script.name)?;
    let mut random = Random::new(script.seed);
    send_phase(out, bus, &mut random, 60, mixed)?;
    send_phase(out, bus, &mut random, 80, flood)?;
    send_phase(out, bus, &mut random, 60, drain)?;
    send_phase(out, bus, &mut random, 20, mixed)
}

// An answer as a number.
fn number(said: Result<BusReply, BusFault>) -> u32 {
    match said {
        Ok(BusReply::Seen(None)) => 70000,
        Ok(BusReply::Seen(Some(b)) | BusReply::Taken(b)) => u32::from(b),
        Ok(BusReply::Loaded(v)) => u32::from(v),
        Ok(BusReply::Done) => 70001,
        Err(f) => 80000 + u32::from(f.number()),
    }
}

// One number made of many.
#[derive(Drop)]
struct Digest {
    value: u32,
}

impl Digest {
    fn new() -> Digest {
        Digest { value: 2166136261 }
    }

    fn mix(&mut self, n: u32) {
        self.value = (self.value ^ n).wrapping_mul(16777619);
    }

    // Sends a call and mixes in its answer. Inlined, it asks the bus at once for what the caller names.
    #[inline(always)]
    fn send<B: Bus>(&mut self, bus: &mut B, call: BusCall) -> Result<BusReply, BusFault> {
        let said = answer(bus, call);
        self.mix(number(said));
        said
    }

    // The same call until it is refused, at most 2,000 times.
    fn send_until_refused<B: Bus>(&mut self, bus: &mut B, call: BusCall) {
        for _ in 0..2000 {
            if self.send(bus, call).is_err() {
                return;
            }
        }
    }

    // The kind and the byte of each address, and what waits and was sent.
    fn learn<B: Bus>(&mut self, bus: &mut B) {
        self.send_until_refused(bus, BusCall::Take);
        self.send_until_refused(bus, BusCall::LoadWord(0xF004));
        for a in 0..=0xFFFF {
            let seen = bus.peek(a);
            self.mix(number(Ok(BusReply::Seen(seen))));
            let _ = self.send(bus, BusCall::LoadByte(a));
            let _ = self.send(bus, BusCall::StoreByte(a, seen.unwrap_or(0)));
            if seen.is_none() {
                let _ = self.send(bus, BusCall::LoadWord(a));
                let _ = self.send(bus, BusCall::StoreWord(a, 7));
            }
        }
        self.send_until_refused(bus, BusCall::Give(1));
        self.send_until_refused(bus, BusCall::StoreWord(0xF000, 1));
    }
}

pub fn write_digest<B: Bus>(out: &mut String, bus: &mut B) -> anyhow::Result<()> {
    let mut digest = Digest::new();
    digest.learn(bus);
    writeln!(out, "bus {:08x}", digest.value)?;
    Ok(())
}

// The bytes that come back to their lender, those past the cells too.
pub fn write_bytes(out: &mut String, bytes: &[u8]) -> anyhow::Result<()> {
    let mut digest = Digest::new();
    for b in bytes {
        digest.mix(u32::from(*b));
    }
    writeln!(out, "bytes {:08x}", digest.value)?;
    Ok(())
}
