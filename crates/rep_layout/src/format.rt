//! The formats of a disk.

ghost use Rattle.std.specs.Prelude.{◌≡◌, Some};
ghost use Rattle.rep_layout.specs.Formats.{digit_of, format_of};

use arrayvec::ArrayVec;
use rep_forms::{Exact, Form, Put, put_u8, read_u8, strip_front};

/// In which of its formats a superblock or a window is spelled. The last of its first eight bytes is
/// its digit.
#[derive(Clone, Copy, Debug, PartialEq, Eq)]
pub enum Format {
    /// Of a window this one tells the entries alone: its size is that of the parameters.
    One,
    /// This one tells the window's size and its floor too.
    Two,
}

impl Format {
    /// The digit that tells it.
    fn digit(self) -> u8
        ensures { result ≡ digit_of self }
    {
        match self {
            Format::One => b'1',
            Format::Two => b'2',
        }
    }

    /// The format of this digit.
    fn of_digit(digit: u8) -> Option<Format>
        ensures { result ≡ format_of digit }
    {
        match digit {
            b'1' => Some(Format::One),
            b'2' => Some(Format::Two),
            _ => None,
        }
    }
}

impl Form for Format {
    ghost use Rattle.rep_layout.specs.Formats.{format_form};
    ghost use Rattle.rep_layout.specs.FormatLaws.{format_is_form};

    ghost form = { format_form };

    ghost most = { 1 };

    fn read(bytes: &[u8]) -> Option<(Format, &[u8])> {
        let (digit, rest) = read_u8(bytes)?;
        let format = Format::of_digit(digit)?;
        Some((format, rest))
    }

    ghost is_form = { format_is_form };
}

impl<const N: usize> Put<N> for Format {
    fn put(&self, out: &mut ArrayVec<u8, N>) {
        put_u8(out, self.digit());
    }
}

impl Exact for Format {
    fn strip<'a>(&self, bytes: &'a [u8]) -> Option<&'a [u8]> {
        strip_front(bytes, &[self.digit()])
    }
}
