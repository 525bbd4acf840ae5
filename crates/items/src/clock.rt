// A time of day as a text has it.
ghost use Rattle.std.specs.Prelude.{◌<◌};
ghost use Rattle.meaning.specs.Limits as Limits;

// A time of day as it is written: each part is a number of digits, in range or not, and the nanoseconds are less than a second.
#[derive(Clone, Copy)]
pub struct Clock {
    pub hour: u8,
    pub minute: u8,
    pub second: u8,
    pub nanos: u64,
    ghost parted: { nanos < Limits.second },
}
