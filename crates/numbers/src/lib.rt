// Numbers of a trace: groups of seven bits, lowest group first, in the shortest form.
#![tactic(auto)]

ghost use Rattle.std.specs.Prelude.{◌≡◌};
ghost use Rattle.numbers.specs.Reading.{number_of, page_of, frame_of};
ghost use Rattle.numbers.specs.Widths.{Wide, Long};

// What is wrong with a number, with the place of the faulty byte, counted from the number's first byte.
#[derive(Clone, Copy, PartialEq, Eq)]
pub enum Fault {
    // The bytes end before the number does; the place is that of the first missing byte.
    Missing(usize),
    // A last byte 0 after others.
    NotShortest(usize),
    // The last byte that the width allows is past its limit.
    TooLarge(usize),
}

// A number that stands at the start of some bytes, and how many bytes it takes.
#[derive(Clone, Copy, PartialEq, Eq)]
pub struct Numeral<T> {
    pub value: T,
    pub used: usize,
}

// A page: any u64, in at most ten bytes, the tenth being 1.
pub fn read_page(s: &[u8]) -> Result<Numeral<u64>, Fault>
    ensures { result ≡ page_of s.now }
{
    read_number(s, 10, 1)
}

// A frame: any u32, in at most five bytes, the fifth at most 15.
pub fn read_frame(s: &[u8]) -> Result<Numeral<u32>, Fault>
    ensures { result ≡ frame_of s.now }
{
    let n = read_number(s, 5, 15)?;
    Ok(Numeral {
        value: n.value as u32,
        used: n.used,
    })
}

// A number of at most `most` bytes, the last of these at most `limit`. The first byte and the second are read straight, and a
// loop reads on: a longer straight line would no longer be compiled into its caller.
fn read_number(s: &[u8], most: usize, limit: u8) -> Result<Numeral<u64>, Fault>
    requires { Wide most limit }
    ensures { result ≡ number_of most limit s.now }
{
    if s.len() == 0 {
        return Err(Fault::Missing(0));
    }
    let b = s[0];
    if b < 128 {
        return Ok(Numeral {
            value: b as u64,
            used: 1,
        });
    }
    if s.len() == 1 {
        return Err(Fault::Missing(1));
    }
    let d = s[1];
    if d < 128 {
        if d == 0 {
            return Err(Fault::NotShortest(1));
        }
        let low = (b % 128) as u64;
        let high = d as u64;
        return Ok(Numeral {
            value: low + 128 * high,
            used: 2,
        });
    }
    read_long(s, most, limit)
}

// The same where the first two bytes have their top bit set: a loop up to the last byte that the width allows, which has a
// limit of its own.
fn read_long(s: &[u8], most: usize, limit: u8) -> Result<Numeral<u64>, Fault>
    requires { Long most limit s.now }
    ensures { result ≡ number_of most limit s.now }
{
    let last = most - 1;
    let mut value: u64 = (s[0] % 128) as u64 + 128 * ((s[1] % 128) as u64);
    let mut scale: u64 = 16384;
    for at in 2..last {
        if s.len() <= at {
            return Err(Fault::Missing(at));
        }
        let b = s[at];
        if b < 128 {
            if b == 0 {
                return Err(Fault::NotShortest(at));
            }
            return Ok(Numeral {
                value: value + scale * (b as u64),
                used: at + 1,
            });
        }
        value = value + scale * ((b % 128) as u64);
        scale = scale * 128;
    }
    if s.len() <= last {
        return Err(Fault::Missing(last));
    }
    let b = s[last];
    if limit < b {
        return Err(Fault::TooLarge(last));
    }
    if b == 0 {
        return Err(Fault::NotShortest(last));
    }
    Ok(Numeral {
        value: value + scale * (b as u64),
        used: last + 1,
    })
}
