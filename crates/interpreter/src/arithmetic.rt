// The numbers of programs: u32, added and multiplied in u64 and brought back by a remainder, as the project has it, and not by `wrapping_add`.
ghost use Rattle.std.specs.Prelude.{◌≡◌, ◌+◌, ◌*◌, ◌%◌, if◌then◌else◌, nat_lt};
ghost use Rattle.semantics.specs.Run.{word};

// Numbers are below this, 2^32.
const WORD: u64 = 1 << 32;

// The sum modulo 2^32; the remainder fits.
pub(crate) fn add(a: u32, b: u32) -> u32
    ensures { result ≡ (a + b) % word }
{
    ((u64::from(a) + u64::from(b)) % WORD) as u32
}

// The product modulo 2^32; the remainder fits.
pub(crate) fn multiply(a: u32, b: u32) -> u32
    ensures { result ≡ (a * b) % word }
{
    (u64::from(a) * u64::from(b) % WORD) as u32
}

// 1 where the first number is less, else 0.
pub(crate) fn less(a: u32, b: u32) -> u32
    ensures { result ≡ (if nat_lt a b then 1 else 0) }
{
    u32::from(a < b)
}
