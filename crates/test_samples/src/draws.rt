// Numbers at random, from a seed.

ghost use Rattle.std.specs.Prelude.{◌<◌};

// The next state of a xorshift generator.
pub fn next(seed: usize) -> usize {
    let a = seed ^ (seed << 13);
    let b = a ^ (a >> 7);
    b ^ (b << 17)
}

// A number below n, or 0 where there is none.
pub fn below(seed: usize, n: usize) -> usize
    ensures { 0 < n → result < n }
{
    if n == 0 {
        return 0;
    }
    seed / 65536 % n
}

// The seed of a number.
pub fn seed_of(i: usize) -> usize {
    next(next(next(88172645463325252 + i % 4294967296 * 1048576)))
}

// A seed of its own for each purpose below 16 that a seed serves.
pub fn stream(seed: usize, purpose: usize) -> usize {
    next(next(next(seed ^ ((purpose % 16) << 40))))
}
