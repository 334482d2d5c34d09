// Digests, in which one byte or record touched past an end shows.
use assembler::{LabelRecord, LineKind, LineRecord};

const START: u32 = 2166136261;

fn mix(digest: u32, n: u32) -> u32 {
    (digest ^ n).wrapping_mul(16777619)
}

pub fn kind_name(kind: LineKind) -> &'static str {
    match kind {
        LineKind::Instruction => "instruction",
        LineKind::Data => "data",
    }
}

fn kind_number(kind: LineKind) -> u32 {
    match kind {
        LineKind::Instruction => 0,
        LineKind::Data => 1,
    }
}

fn mix_label(digest: u32, label: LabelRecord) -> u32 {
    let digest = mix(digest, u32::from(label.place));
    let digest = mix(digest, u32::from(label.length));
    mix(digest, u32::from(label.address))
}

fn mix_line(digest: u32, line: LineRecord) -> u32 {
    let digest = mix(digest, u32::from(line.line));
    let digest = mix(digest, u32::from(line.address));
    let digest = mix(digest, u32::from(line.words));
    mix(digest, kind_number(line.kind))
}

pub fn of_bytes(bytes: &[u8]) -> u32 {
    bytes
        .iter()
        .fold(START, |digest, b| mix(digest, u32::from(*b)))
}

pub fn of_labels(labels: &[LabelRecord]) -> u32 {
    labels
        .iter()
        .fold(START, |digest, label| mix_label(digest, *label))
}

pub fn of_lines(lines: &[LineRecord]) -> u32 {
    lines
        .iter()
        .fold(START, |digest, line| mix_line(digest, *line))
}
