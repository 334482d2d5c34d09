// A valid word as the line that assembles to it.
#![tactic(auto)]

mod line;
mod listing;
mod reports;

pub use listing::{Refusal, list};
pub use reports::{report, word_in};

#[cfg(test)]
mod tests {
    use super::*;
    use std::process::Abort;
    use std::test::Fail;

    fn lists(rt: &impl Abort, word: u16, text: &[u8]) -> Result<(), Fail> {
        let mut buffer = [0; 16];
        let n = list(word, &mut buffer)?;
        assert!(rt; n <= 16);
        assert!(rt; &buffer[0..n] == text);
        Ok(())
    }

    #[test]
    fn lines_of_words(rt: HostRuntime) -> Result<(), Fail> {
        lists(&rt, 0x5328, b"\tadd r3,r1,r2\n")?;
        lists(&rt, 0x2DFF, b"\txor r5,-1\n")?;
        lists(&rt, 0xAC1C, b"\tbez r4,28\n")?;
        lists(&rt, 0x0FFF, b"\tand r7,255\n")?;
        lists(&rt, 0x5F80, b"\tadd r7,-128\n")?;
        lists(&rt, 0x0000, b"\tand r0,r0,r0\n")?;
        lists(&rt, 0x0003, b"\thcf\n")
    }

    #[test]
    fn refusals_leave_the_buffer(rt: HostRuntime) {
        let mut buffer = [7; 13];
        assert_eq!(rt; list(0x7800, &mut buffer), Err(Refusal::NotValid));
        assert_eq!(rt; list(0x5328, &mut buffer), Err(Refusal::DoesNotFit));
        assert!(rt; buffer == [7; 13]);
        assert_eq!(rt; list(0x7800, &mut []), Err(Refusal::NotValid));
        assert_eq!(rt; Refusal::NotValid.number(), 16);
        assert_eq!(rt; Refusal::DoesNotFit.number(), 17);
    }

    #[test]
    fn reports_of_lines(rt: HostRuntime) -> Result<(), Fail> {
        let mut out = Vec::new(rt.alloc());
        assert!(rt; report(rt.alloc(), 1, b"2dFF", &mut out)?);
        assert!(rt; !report(rt.alloc(), 2, b"0007", &mut out)?);
        assert!(rt; !report(rt.alloc(), 31, b"12g4", &mut out)?);
        let expected: &[u8] =
            b"\txor r5,-1\nrefused 16\nline 31: not a word, four hexadecimal digits expected\n";
        assert!(rt; out.as_slice() == expected);
        assert_eq!(rt; word_in(b"aBc9"), Some(0xABC9));
        Ok(())
    }
}
