// What of the form of datagrams an order settles: the method of addressing chunks.
#![tactic(auto)]

ghost use Rattle.std.specs.Prelude.{◌≡◌};
ghost use Rattle.format.specs.Format.{method_by, addressing_of, is_method, format_of};

#[derive(Clone, Copy, PartialEq, Eq)]
pub enum Addressing {
    // 32-bit bins.
    Bins,
    // 32-bit chunk ranges.
    Ranges,
}

// A number is no method's.
#[derive(Clone, Copy, PartialEq, Eq)]
pub struct NoMethod;

#[derive(Clone, Copy, PartialEq, Eq)]
pub struct Format {
    pub addressing: Addressing,
}

// The methods' numbers, in an order and in option 6.
pub const BINS: u32 = 0;

pub const RANGES: u32 = 2;

impl From<Addressing> for u32 {
    ghost from_gives = { λ a k. k ≡ method_by a };

    fn from(addressing: Addressing) -> u32 {
        match addressing {
            Addressing::Bins => BINS,
            Addressing::Ranges => RANGES,
        }
    }
}

impl TryFrom<u32> for Addressing {
    type Error = NoMethod;

    ghost try_from_gives = { λ k r. r ≡ addressing_of k };

    fn try_from(method: u32) -> Result<Addressing, NoMethod> {
        match method {
            BINS => Ok(Addressing::Bins),
            RANGES => Ok(Addressing::Ranges),
            _ => Err(NoMethod),
        }
    }
}

// Whether a number is a method's. It and `of_method` stay: they say for any number what 02 says of it.
pub fn is_method(method: u32) -> bool
    ensures { result ≡ is_method method }
{
    Addressing::try_from(method).is_ok()
}

// The format under a method; a number that is no method's counts as that of ranges.
pub fn of_method(method: u32) -> Format
    ensures { result ≡ format_of method }
{
    Format {
        addressing: Addressing::try_from(method).unwrap_or(Addressing::Ranges),
    }
}
