// Runs of elements, of bytes mostly: filled with one value, compared, and cut to a length.
//
// Each is a public call with a promise of its own (docs/PROMISES.md), and stays so whether a floor above calls it or std's.
ghost use Rattle.std.specs.Prelude.{◌≡◌, ◌≤◌, min, length, take, replicate};
ghost use Rattle.little.specs.Runs.{same, are_all};

// The smaller of two lengths, promised in numbers: std's `min` promises by an order's `cmp`.
pub fn least(a: usize, b: usize) -> usize
    ensures { (result ≡ min a b) × (result ≤ a) × (result ≤ b) }
{
    a.min(b)
}

// How many of the first n elements a slice has. The slice is handed in, and not its length, so that the promise can speak of
// the part that `&s[..r]` lends.
pub fn within<T>(n: usize, s: &[T]) -> usize
    ensures { (result ≡ min n (length s.now)) × (result ≤ length s.now) × (result ≡ length (take result s.now)) }
{
    least(n, s.len())
}

// One value over all of a slice. By hand: std's `fill` stores clones, and asks that no clone fails, which `Copy` does not say.
pub fn fill<T: Copy>(d: &mut [T], value: T)
    ensures { d.new ≡ replicate (length d.old) value }
{
    for x in d.iter_mut() {
        *x = value;
    }
}

// What lent memory ends as, for each kind of element.
pub trait Zero: Copy {
    ghost ZERO: { Self };

    const ZERO: Self;
}

impl Zero for u8 {
    ghost ZERO = { 0 };

    const ZERO: u8 = 0;
}

impl Zero for u16 {
    ghost ZERO = { 0 };

    const ZERO: u16 = 0;
}

impl Zero for u32 {
    ghost ZERO = { 0 };

    const ZERO: u32 = 0;
}

// Zeros over all of a slice.
pub fn clear<T: Zero>(d: &mut [T])
    ensures { d.new ≡ replicate (length d.old) T.ZERO }
{
    fill(d, T::ZERO);
}

// Whether each element is that value. All are looked at, so that the compiler compares many at a time: std's `all` leaves early.
pub fn are_all<T: Copy + PartialEq>(s: &[T], value: T) -> bool
    ensures { result ≡ are_all T.eq value s.now }
{
    let mut all = true;
    for x in s {
        all &= *x == value;
    }
    all
}

// Whether two runs are the same bytes: std's `==`, promised in this crate's word for it. Runs of two lengths are not.
pub fn is_same(a: &[u8], b: &[u8]) -> bool
    ensures { result ≡ same a.now b.now }
{
    a == b
}
