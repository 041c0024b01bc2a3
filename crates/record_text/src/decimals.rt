// Numbers that are no whole ones, as exact decimals.
ghost use Rattle.std.specs.Prelude.{◌<◌};

use integers::absolute;
use std::fmt;
use std::fmt::{Display, Formatter};

// Writes the decimals of n / unit, which is below 1, up to the last that is not 0: at most 64, of which 60 binary digits have 60.
fn write_fraction<W: fmt::Write>(f: &mut Formatter<W>, n: u64, unit: u64) -> fmt::Result
    requires { 0 < unit }
{
    let mut rest = n;
    for _ in 0..64 {
        if rest == 0 {
            break;
        }
        let tenths = rest.checked_mul(10).unwrap_or(0);
        write!(f, "{}", tenths / unit)?;
        rest = tenths % unit;
    }
    Ok(())
}

// Writes n / 2^places, for at most 60 binary places.
fn write_binary<W: fmt::Write>(f: &mut Formatter<W>, n: u64, places: u64) -> fmt::Result {
    if 60 < places {
        return f.write_str("?");
    }
    let unit = 1u64 << places;
    write!(f, "{}", n / unit)?;
    if n % unit == 0 {
        return Ok(());
    }
    f.write_str(".")?;
    write_fraction(f, n % unit, unit)
}

// A number times a scale: a scale -k stands for 2^-k, and one above 0 for itself.
#[derive(Clone, Copy)]
pub(crate) struct Scaled {
    pub(crate) number: i64,
    pub(crate) scale: i64,
}

impl Display for Scaled {
    fn fmt<W: fmt::Write>(&self, f: &mut Formatter<W>) -> fmt::Result {
        let size = absolute(self.number);
        let factor = absolute(self.scale);
        if self.number < 0 {
            f.write_str("-")?;
        }
        if self.scale < 0 {
            return write_binary(f, size, factor);
        }
        match size.checked_mul(factor) {
            Some(product) => write!(f, "{product}"),
            None => f.write_str("?"),
        }
    }
}

// The 64 bits of a double. What is not a number has no bits of its own.
pub(crate) fn pattern(x: f64) -> u64 {
    if x == x { f64::to_bits(x) } else { 0 }
}

// A double, which is 0 or lies between 2^-60 and 2^53 and has at most 60 binary places.
#[derive(Clone, Copy)]
pub(crate) struct Exact(pub(crate) f64);

impl Display for Exact {
    fn fmt<W: fmt::Write>(&self, f: &mut Formatter<W>) -> fmt::Result {
        let bits = pattern(self.0);
        let exponent = bits >> 52 & 2047;
        if bits >> 63 == 1 {
            f.write_str("-")?;
        }
        if exponent == 0 {
            return f.write_str("0");
        }
        let Some(places) = 1075u64.checked_sub(exponent) else {
            return f.write_str("?");
        };
        let mut odd = 1 << 52 | bits & (1 << 52) - 1;
        for left in (1..=places).rev() {
            if odd % 2 == 1 {
                return write_binary(f, odd, left);
            }
            odd /= 2;
        }
        write!(f, "{odd}")
    }
}

// A double from 1 to 2^53 rounded to the tenth, a half upwards, without a tenth that is 0.
#[derive(Clone, Copy)]
pub struct Tenths(pub f64);

impl Display for Tenths {
    fn fmt<W: fmt::Write>(&self, f: &mut Formatter<W>) -> fmt::Result {
        let bits = pattern(self.0);
        let exponent = bits >> 52;
        if exponent < 1023 || 1075 < exponent {
            return f.write_str("?");
        }
        let unit = 1u64 << (1075 - exponent);
        let twentieths = (1 << 52 | bits & (1 << 52) - 1) * 20 / unit;
        let tenths = twentieths.wrapping_add(1) / 2;
        write!(f, "{}", tenths / 10)?;
        if tenths % 10 != 0 {
            write!(f, ".{}", tenths % 10)?;
        }
        Ok(())
    }
}
