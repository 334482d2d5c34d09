// A register's number. It stands in a file of its own because the definitions speak of it.
ghost use Rattle.std.specs.Prelude.{◌<◌};

/// One of the eight registers, by its number: 0 to 7.
#[derive(Clone, Copy, PartialEq, Eq, Debug)]
pub struct Register {
    pub(crate) number: u8,
    ghost small: { number < 8 },
}
