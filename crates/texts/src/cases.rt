// The cases of standard input: a line of four decimal numbers, then a text of any bytes and an LF.
use anyhow::{Context, Result, ensure};

// A text, and the lengths of the image buffer and of the tables that are lent for it.
#[derive(Clone, Copy)]
pub struct Case<'a> {
    pub text: &'a [u8],
    pub image: usize,
    pub labels: usize,
    pub lines: usize,
}

// What has not been read yet.
#[derive(Drop)]
pub struct Input<'a> {
    rest: &'a [u8],
}

impl<'a> Input<'a> {
    pub fn new(rest: &'a [u8]) -> Input<'a> {
        Input { rest }
    }

    fn bytes(&mut self, n: usize) -> Result<&'a [u8]> {
        let (front, rest) = self.rest.split_at_checked(n).context("too few bytes")?;
        self.rest = rest;
        Ok(front)
    }

    fn expect(&mut self, byte: u8) -> Result<()> {
        let read = self.bytes(1)?;
        ensure!(
            read.first().copied() == Some(byte),
            "another byte than {byte} expected"
        );
        Ok(())
    }

    // A decimal number, and the byte that ends it.
    pub fn number(&mut self, end: u8) -> Result<usize> {
        let length = self
            .rest
            .iter()
            .position(|b| *b == end)
            .context("no end of a number")?;
        let digits = self.bytes(length)?;
        self.expect(end)?;
        Ok(str::from_utf8(digits)?.parse::<usize>()?)
    }

    pub fn case(&mut self) -> Result<Case<'a>> {
        let length = self.number(b' ')?;
        let image = self.number(b' ')?;
        let labels = self.number(b' ')?;
        let lines = self.number(b'\n')?;
        let text = self.bytes(length)?;
        self.expect(b'\n')?;
        Ok(Case {
            text,
            image,
            labels,
            lines,
        })
    }

    pub fn end(self) -> Result<()> {
        ensure!(self.rest.is_empty(), "bytes behind the last case");
        Ok(())
    }
}
