//! Numbers among the bits of bytes: bit n is bit n % 8 of byte n / 8.

ghost use Rattle.std.specs.Prelude.{◌≡◌, ℕ, ◌+◌, ◌-◌, ◌*◌, ◌^◌, ◌<◌, ◌≤◌, ◌⊎◌, length, max, min};
ghost use Rattle.std.specs.Int.{bit_at};
ghost use Rattle.point_bits.specs.Strings.{byte_bit};

/// The byte of these bits where there is a one, and else of the old ones.
#[inline(always)]
fn merged(old: u8, ones: u8, new: u8) -> u8
    ensures { (j : ℕ) → j < 8 → bit_at result j ≡ max (min (bit_at old j) (1 - bit_at ones j)) (bit_at new j) }
{
    (old & !ones) | new
}

/// The byte of a number with this number, from 0.
#[inline(always)]
fn byte_of(number: u64, k: u32) -> u8
    requires { k < 8 }
    ensures { (j : ℕ) → j < 8 → bit_at result j ≡ bit_at number (8 * k + j) }
{
    ((number >> (8 * k)) % 256) as u8
}

/// So many ones, the lowest bits of a number.
#[inline(always)]
fn ones(len: u8) -> u64
    requires { len ≤ 32 }
    ensures { result ≡ 2 ^ len - 1 }
{
    (1 << len) - 1
}

/// Makes the bits from `at` on those of a number of `len` bits, the lowest first.
#[inline(always)]
pub(crate) fn put_number(bytes: &mut [u8], at: u64, len: u8, number: u32)
    requires len { (1 ≤ len) × (len ≤ 32) }
    requires small { number < 2 ^ len }
    requires within { at + len ≤ 8 * length bytes.old }
    ensures long { length bytes.new ≡ length bytes.old }
    ensures inside { (n : ℕ) → at ≤ n → n < at + len → byte_bit bytes.new n ≡ bit_at number (n - at) }
    ensures outside { (n : ℕ) → (n < at) ⊎ (at + len ≤ n) → byte_bit bytes.new n ≡ byte_bit bytes.old n }
{
    let shift = (at % 8) as u32;
    let taken = ones(len) << shift;
    let moved = u64::from(number) << shift;
    'windows: for k in 0..(shift + u32::from(len)).div_ceil(8) {
        let place = (at / 8) as usize + k as usize;
        bytes[place] = merged(bytes[place], byte_of(taken, k), byte_of(moved, k));
    }
}

/// The number of the `len` bits from `at` on, the lowest first.
#[inline(always)]
pub(crate) fn number_at(bytes: &[u8], at: u64, len: u8) -> u32
    requires len { (1 ≤ len) × (len ≤ 32) }
    requires within { at + len ≤ 8 * length bytes.now }
    ensures { (j : ℕ) → j < len → bit_at result j ≡ byte_bit bytes.now (at + j) }
{
    let shift = (at % 8) as u32;
    let mut window = 0;
    'windows: for k in 0..(shift + u32::from(len)).div_ceil(8) {
        window += u64::from(bytes[(at / 8) as usize + k as usize]) << (8 * k);
    }
    ((window >> shift) & ones(len)) as u32
}
