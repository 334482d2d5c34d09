// What is printed for a text: its words, or why it is refused.
#![tactic(auto)]

ghost use Rattle.std.specs.Prelude.{◌≡◌, [], ◌∷◌, ◌++◌, codes, length, IfOk, OnOk};
ghost use Rattle.hex.specs.Hex.{encode_lower};
ghost use Rattle.assembler.specs.Answers.{assembled};
ghost use Rattle.assembler.specs.Placing.{room};
ghost use Rattle.printing.specs.Printed.{word_lines, refusal_line, bytes_of, printed_for, printed};

use assembler::{LabelRecord, LineKind, LineRecord, Refused, assemble};
use std::alloc::{AllocError, Global};

// What fills the tables before a text is assembled.
const NO_LABEL: LabelRecord = LabelRecord {
    place: 0,
    length: 0,
    address: 0,
};

const NO_LINE: LineRecord = LineRecord {
    line: 0,
    address: 0,
    words: 0,
    kind: LineKind::Data,
};

// A word by its bytes.
fn print_word(high: u8, low: u8, out: &mut Vec<u8>) -> Result<(), AllocError>
    ensures { OnOk result (out.new.items ≡ out.old.items ++ (encode_lower (high ∷ low ∷ []) ++ codes "\n")) }
{
    let mut digits = *b"0000\n";
    let _ = hex::encode_to_slice([high, low], &mut digits[..4]);
    out.extend_from_slice(&digits)
}

// The words of an image, a line each.
fn print_words(heap: Global, image: &[u8]) -> Result<Vec<u8>, AllocError>
    ensures { IfOk result (λ out. out.items ≡ word_lines image.now) }
{
    let mut out = Vec::new(heap);
    let mut left = image;
    while let [high, low, rest @ ..] = left {
        print_word(*high, *low, &mut out)?;
        left = rest;
    }
    Ok(out)
}

fn print_refusal(heap: Global, refused: Refused) -> Result<Vec<u8>, AllocError>
    ensures { IfOk result (λ out. out.items ≡ refusal_line refused.refusal refused.line) }
{
    let number = refused.refusal.number();
    let line = refused.line;
    let message = format!(in heap; "refused {number} line {line}\n")?;
    Vec::from_slice(heap, message.as_bytes())
}

fn print_over(
    heap: Global,
    text: &[u8],
    image: &mut [u8],
    labels: &mut [LabelRecord],
    lines: &mut [LineRecord],
) -> Result<Result<Vec<u8>, Vec<u8>>, AllocError>
    ensures { IfOk result (λ r. bytes_of r ≡ printed_for (assembled (room (length labels.old) (length lines.old)) (length image.old) text.now)) }
{
    match assemble(text, image, labels, lines) {
        Ok(assembled) => Ok(Ok(print_words(heap, &image[..assembled.length])?)),
        Err(refused) => Ok(Err(print_refusal(heap, refused)?)),
    }
}

/// What is printed for a text: its words, or in `Err` the line that says why it is refused.
pub fn print(heap: Global, text: &[u8]) -> Result<Result<Vec<u8>, Vec<u8>>, AllocError>
    ensures { IfOk result (λ r. bytes_of r ≡ printed text.now) }
{
    let mut image = vec![in heap; 0u8; 65_536]?;
    let mut labels = vec![in heap; NO_LABEL; 256]?;
    let mut lines = vec![in heap; NO_LINE; 2_048]?;
    print_over(
        heap,
        text,
        image.as_mut_slice(),
        labels.as_mut_slice(),
        lines.as_mut_slice(),
    )
}

#[cfg(test)]
mod tests {
    use super::*;
    use std::process::Abort;
    use std::test::Fail;

    fn words(rt: &impl Abort, heap: Global, text: &[u8], expected: &[u8]) -> Result<(), Fail> {
        let printed = print(heap, text)?;
        assert!(rt; printed.is_ok_and(|words| words.as_slice() == expected));
        Ok(())
    }

    fn refusal(rt: &impl Abort, heap: Global, text: &[u8], expected: &[u8]) -> Result<(), Fail> {
        let printed = print(heap, text)?;
        assert!(rt; printed.is_err_and(|line| line.as_slice() == expected));
        Ok(())
    }

    #[test]
    fn words_of_texts(rt: HostRuntime) -> Result<(), Fail> {
        words(&rt, rt.alloc(), b"", b"")?;
        words(
            &rt,
            rt.alloc(),
            b"\tadd r1,127\n\tldc r1,255\n",
            b"597f\n99ff\n",
        )?;
        words(&rt, rt.alloc(), b"a \"abc\"\nb \"\"", b"6162\n6300\n0000\n")?;
        words(&rt, rt.alloc(), b"\tldi r1,5", b"9900\n9905\n")
    }

    #[test]
    fn refusals_of_texts(rt: HostRuntime) -> Result<(), Fail> {
        refusal(&rt, rt.alloc(), b"\tadd r1,128", b"refused 11 line 1\n")?;
        refusal(&rt, rt.alloc(), b"\n\tldc r1,256", b"refused 11 line 2\n")?;
        refusal(&rt, rt.alloc(), b"a\na", b"refused 6 line 2\n")?;
        refusal(&rt, rt.alloc(), b"\tldi r1,k", b"refused 14 line 1\n")?;
        refusal(&rt, rt.alloc(), &[b'\n'; 2_049], b"refused 2 line 2049\n")
    }
}
