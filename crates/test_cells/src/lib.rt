// Cells of lent slices for the test programs, read and written with the bound tested in the code: a read past the end gives 0, and a store there does
// nothing. What is read and stored is a usize, so that callers make no casts.
#![tactic(auto)]

pub trait Cell: Copy + Into<usize> {
    // What a cell keeps of a number: its low bits.
    fn of(number: usize) -> Self;
}

impl Cell for u8 {
    fn of(number: usize) -> u8 {
        (number % 256) as u8
    }
}

impl Cell for u16 {
    fn of(number: usize) -> u16 {
        (number % 65536) as u16
    }
}

impl Cell for usize {
    fn of(number: usize) -> usize {
        number
    }
}

pub fn get<C: Cell>(cells: &[C], i: usize) -> usize {
    cells.get(i).map_or(0, |cell| (*cell).into())
}

pub fn put<C: Cell>(cells: &mut [C], i: usize, number: usize) {
    if let Some(cell) = cells.get_mut(i) {
        *cell = C::of(number);
    }
}
