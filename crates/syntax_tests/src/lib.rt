// Examples of lines and their refusals. A crate of its own, so that `syntax` is not proved twice.
#![tactic(auto)]

#[cfg(test)]
mod tests {
    use syntax::{LineFault, read_data, read_statement};

    // The number of the line's refusal, or `None` where it passes.
    fn refusal(line: &[u8]) -> Option<u8> {
        read_statement(line).err().map(LineFault::number)
    }

    #[test]
    fn lines_that_pass(rt: HostRuntime) {
        assert_eq!(rt; refusal(b""), None);
        assert_eq!(rt; refusal(b"; a comment"), None);
        assert_eq!(rt; refusal(b"k 5"), None);
        assert_eq!(rt; refusal(b"\tldi at,5"), None);
        assert_eq!(rt; refusal(b"\tlsrm r0,r1"), None);
        assert_eq!(rt; refusal(b"\tadd\tr1,-0x80"), None);
    }

    #[test]
    fn refusals_of_lines(rt: HostRuntime) {
        assert_eq!(rt; refusal(b"caf\xC3\xA9"), Some(3));
        assert_eq!(rt; refusal(b" add r1,r2,r3"), Some(4));
        assert_eq!(rt; refusal(b"r7 5"), Some(5));
        assert_eq!(rt; refusal(b"\t\tadd r1,r2,r3"), Some(9));
        assert_eq!(rt; refusal(b"\tnop "), Some(10));
        assert_eq!(rt; refusal(b"\tldb r1\t5"), Some(10));
        assert_eq!(rt; refusal(b"\tadd r1,r2"), Some(10));
    }

    #[test]
    fn ranges_and_registers(rt: HostRuntime) {
        assert_eq!(rt; refusal(b"\tadd r1,127"), None);
        assert_eq!(rt; refusal(b"\tadd r1,128"), Some(11));
        assert_eq!(rt; refusal(b"\tldc r1,255"), None);
        assert_eq!(rt; refusal(b"\tldc r1,256"), Some(11));
        assert_eq!(rt; refusal(b"\tldw r0,70000"), Some(11));
        assert_eq!(rt; refusal(b"\tlsr r1,r2,r3"), Some(12));
        assert_eq!(rt; refusal(b"\tneg at"), Some(12));
        assert_eq!(rt; refusal(b"\tlsrm r5,sr"), Some(12));
    }

    #[test]
    fn data(rt: HostRuntime) {
        assert!(rt; read_data(b"\"abc\"").is_some());
        assert!(rt; read_data(b"1 -2 0xFF").is_some());
        assert!(rt; read_data(b"1  2").is_none());
        assert!(rt; read_data(b"\"a\"b\"").is_none());
        assert!(rt; read_data(b"65536").is_none());
    }
}
