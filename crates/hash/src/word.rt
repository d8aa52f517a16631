// Words of 32 bits: FIPS 180-4, sections 3.2 and 4.1.2.
ghost use Rattle.std.specs.Prelude.{◌≡◌};
ghost use Rattle.hash.specs.Word.{◌⊞◌, Ch, Maj, Σ0, Σ1, σ0, σ1};

// The sum modulo 2^32.
pub fn add(x: u32, y: u32) -> u32
    ensures { result ≡ x ⊞ y }
{
    x.wrapping_add(y)
}

// y where x has a 1, z where it has a 0.
pub fn ch(x: u32, y: u32, z: u32) -> u32
    ensures { result ≡ Ch x y z }
{
    ((y ^ z) & x) ^ z
}

// What two of the three have.
pub fn maj(x: u32, y: u32, z: u32) -> u32
    ensures { result ≡ Maj x y z }
{
    ((x ^ y) & (y ^ z)) ^ y
}

// The sigmas share a rotation between their first two terms: a rotation goes through XOR.
pub fn big_sigma0(x: u32) -> u32
    ensures { result ≡ Σ0 x }
{
    (x ^ x.rotate_right(11)).rotate_right(2) ^ x.rotate_right(22)
}

pub fn big_sigma1(x: u32) -> u32
    ensures { result ≡ Σ1 x }
{
    (x ^ x.rotate_right(5)).rotate_right(6) ^ x.rotate_right(25)
}

pub fn small_sigma0(x: u32) -> u32
    ensures { result ≡ σ0 x }
{
    (x ^ x.rotate_right(11)).rotate_right(7) ^ (x >> 3)
}

pub fn small_sigma1(x: u32) -> u32
    ensures { result ≡ σ1 x }
{
    (x ^ x.rotate_right(2)).rotate_right(17) ^ (x >> 10)
}
