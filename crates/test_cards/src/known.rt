// The runs that document 01 tells, and those for the links, the sums and the halts of document 02's K2, K3 and K6: each is answered as told where there are
// records enough, with its cards after clean, and else refused by 16.
use crate::lending::all_answer;
use test_calls::known::{HEAD, cells_of, next_run, read_runs, told};
use test_calls::{chains, judging, roomy, sums};
use test_cells::get;
use test_outcome::{Fault, Outcome, make_outcome};
use test_slow::Memory;

fn run_agrees(cells: &[u16], at: usize, memory: &mut Memory) -> bool {
    let n = get(cells, at);
    let from = at.wrapping_add(HEAD).min(cells.len());
    let lent = cells_of(n).min(cells.len() - from);
    let call = judging(roomy(n), at);
    all_answer(&cells[from..from + lent], call, told(cells, at), memory)
}

// The table has so many cells: some, and none behind the last run's.
fn go_through(cells: &[u16], count: Option<usize>, memory: &mut Memory) -> Outcome {
    let count = count.unwrap_or(0);
    let mut at = 0;
    for number in 0..count {
        if count <= at {
            return make_outcome(number, at == count);
        }
        if !run_agrees(cells, at, memory) {
            return Err(Fault { number });
        }
        at = next_run(cells, at);
    }
    Err(Fault { number: count })
}

pub fn try_all(memory: &mut Memory) -> Outcome {
    let mut cells = [0u16; 1024];
    let count = read_runs(&mut cells);
    go_through(&cells, count, memory)
}

// The short runs for the links.
pub fn try_chains(memory: &mut Memory) -> Outcome {
    let mut cells = [0u16; 1024];
    let count = chains::read_runs(&mut cells);
    go_through(&cells, count, memory)
}

pub fn try_sums(memory: &mut Memory) -> Outcome {
    let mut cells = [0u16; 1024];
    let count = sums::read_runs(&mut cells);
    go_through(&cells, count, memory)
}
