// Runs both solvers on the same searches and prints what they answer: a table from standard input, and generated lists.
// A line of the table is `M LITERALS | ASSUMED`: the literals are codes, a clause's count before them.
#![tactic(auto)]

use anyhow::anyhow;
use counting::CountingSolver;
use faults::SolverFault;
use search::SearchSolver;
use solver::Solver;
use solver::assumed::every_true;
use solver::compare::equal_over;
use std::alloc::Global;
use std::fmt;
use words::eval::satisfied;

// The numbers of a text, parted by spaces.
fn numbers(heap: Global, text: &str) -> anyhow::Result<Vec<u16>> {
    let mut out = Vec::new(heap);
    for word in text.split(' ') {
        if !word.is_empty() {
            out.push(word.parse::<u16>()?)?;
        }
    }
    Ok(out)
}

// Whether what the solver keeps is a model of the list in which the assumed literals are true.
fn keeps_model<S: Solver>(
    heap: Global,
    solver: &S,
    m: usize,
    list: &[u16],
    assumed: &[u16],
) -> anyhow::Result<bool> {
    let mut bits = Vec::new(heap);
    for v in 1..=m {
        match solver.value(v) {
            Ok(bit) => bits.push(bit)?,
            Err(_) => return Ok(false),
        }
    }
    Ok(satisfied(list, &bits) && every_true(assumed, &bits))
}

// What a search answered, and whether what it keeps fits that.
#[derive(Clone, Copy, PartialEq, Eq)]
enum Said {
    Yes,
    YesWithoutModel,
    Nothing,
    NothingButKept,
    Turned,
}

impl fmt::Display for Said {
    fn fmt<W: fmt::Write>(&self, f: &mut fmt::Formatter<W>) -> fmt::Result {
        f.write_str(match self {
            Said::Yes => "yes",
            Said::YesWithoutModel => "yes, and no model is kept",
            Said::Nothing => "none",
            Said::NothingButKept => "none, and something is kept",
            Said::Turned => "refused",
        })
    }
}

// What a search says.
fn ask<S: Solver>(
    heap: Global,
    solver: &mut S,
    m: usize,
    list: &[u16],
    assumed: &[u16],
) -> anyhow::Result<Said> {
    match solver.search(m, list, assumed) {
        Ok(true) => {
            if keeps_model(heap, solver, m, list, assumed)? {
                Ok(Said::Yes)
            } else {
                Ok(Said::YesWithoutModel)
            }
        }
        Ok(false) => match solver.value(1) {
            Err(SolverFault::NothingKept) => Ok(Said::Nothing),
            _ => Ok(Said::NothingButKept),
        },
        Err(_) => Ok(Said::Turned),
    }
}

// A row of numbers that looks random and is the same at every run.
#[derive(Drop)]
struct Draws {
    x: u64,
}

impl Draws {
    // The next number, below a bound.
    fn below(&mut self, bound: u16) -> u16 {
        self.x = self.x % 2147483647 * 48271 % 2147483647;
        (self.x % u64::from(bound.max(1))) as u16
    }
}

// A list of clauses of one to three literals over m variables.
fn random_list(heap: Global, draws: &mut Draws, m: u16, clauses: u16) -> anyhow::Result<Vec<u16>> {
    let mut list = Vec::new(heap);
    for _ in 0..clauses {
        let count = draws.below(3).saturating_add(1);
        list.push(count)?;
        for _ in 0..count {
            list.push(draws.below(m.saturating_mul(2)).saturating_add(2))?;
        }
    }
    Ok(list)
}

// How both solvers answer generated searches and comparisons.
fn compare_random(
    rt: &HostRuntime,
    counter: &mut CountingSolver,
    searcher: &mut SearchSolver,
) -> anyhow::Result<()> {
    let heap = rt.alloc();
    let mut draws = Draws { x: 1 };
    let mut yes = 0u32;
    let mut equal = 0u32;
    for i in 0..400u16 {
        let m = (i % 12).saturating_add(1);
        let clauses = draws.below(m.saturating_mul(4)).saturating_add(1);
        let list = random_list(heap, &mut draws, m, clauses)?;
        let assumed = [draws.below(m.saturating_mul(2)).saturating_add(2)];
        let one = ask(heap, counter, m as usize, &list, &assumed)?;
        let other = ask(heap, searcher, m as usize, &list, &assumed)?;
        if one != other {
            println!(rt; "list {i}: the solvers differ")?;
        }
        if one == Said::Yes {
            yes = yes.saturating_add(1);
        }
        let c = draws.below(m.saturating_mul(2)).saturating_add(2);
        let d = draws.below(m.saturating_mul(2)).saturating_add(2);
        let by_counting = equal_over(counter, m as usize, &list, c, d);
        let by_search = equal_over(searcher, m as usize, &list, c, d);
        if by_counting != by_search {
            println!(rt; "list {i}: {c} and {d} differ between the solvers")?;
        }
        if by_search == Ok(true) {
            equal = equal.saturating_add(1);
        }
    }
    println!(rt; "400 generated lists: {yes} yes; {equal} pairs equal")?;
    Ok(())
}

fn main(rt: HostRuntime) -> anyhow::Result<()> {
    let heap = rt.alloc();
    let mut counter = CountingSolver::new(heap)?;
    let mut searcher = SearchSolver::new(heap)?;
    for line in rt.lines(heap) {
        let line = line?;
        let Some((front, assumed)) = line.as_str().split_once('|') else {
            return Err(anyhow!("no bar on a line"));
        };
        let Some((m, list)) = front.split_once(' ') else {
            return Err(anyhow!("no list on a line"));
        };
        let m = m.parse::<usize>()?;
        let list = numbers(heap, list)?;
        let assumed = numbers(heap, assumed)?;
        let one = ask(heap, &mut counter, m, &list, &assumed)?;
        let other = ask(heap, &mut searcher, m, &list, &assumed)?;
        println!(rt; "{line}: counting {one}, search {other}")?;
    }
    compare_random(&rt, &mut counter, &mut searcher)
}
