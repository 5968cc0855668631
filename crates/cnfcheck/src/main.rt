// Reads a clause file from standard input and prints one line: what it holds, or its first fault.
// With --solve it says in a second line whether the clauses have a model, and gives one.
#![tactic(auto)]

use anyhow::anyhow;
use cnf::limits::MAX_WORDS;
use dimacs::error::ReadError;
use dimacs::formula::Formula;
use report::write::{LINE, write_refusal};
use search::SearchSolver;
use solver::Solver;
use std::env;
use std::io::{Read, Write};

// One byte more than a text may have, so that a text that is too long is seen to be so.
const MOST_BYTES: u64 = 60_001;

// Whether a model is asked for.
fn wants_model(rt: &HostRuntime) -> anyhow::Result<bool> {
    let mut args = env::args(rt)?.skip(1);
    match args.next() {
        None => Ok(false),
        Some(option) => {
            if option.as_str() != "--solve" || args.next().is_some() {
                return Err(anyhow!("usage: cnfcheck [--solve]"));
            }
            Ok(true)
        }
    }
}

// Prints a model of the clauses, or that there is none.
fn print_model(rt: &HostRuntime, formula: &Formula) -> anyhow::Result<()> {
    let nets = formula.nets();
    let mut solver = SearchSolver::new(rt.alloc())?;
    match solver.search(nets, formula.words(), &[]) {
        Ok(true) => print!(rt; "satisfiable")?,
        Ok(false) => {
            println!(rt; "contradiction")?;
            return Ok(());
        }
        Err(_) => unreachable!(),
    }
    for v in 1..=nets {
        let bit = u8::from(solver.value(v) == Ok(true));
        print!(rt; " {bit}")?;
    }
    println!(rt; "")?;
    Ok(())
}

fn run(rt: &HostRuntime) -> anyhow::Result<()> {
    let solve = wants_model(rt)?;
    let heap = rt.alloc();
    let mut text = Vec::new(heap);
    rt.stdin().take(MOST_BYTES).read_to_end(&mut text)?;
    match dimacs::read(heap, &text, MAX_WORDS) {
        Ok(formula) => {
            let nets = formula.nets();
            let clauses = formula.clause_count();
            let words = formula.words().len();
            println!(rt; "nets {nets} clauses {clauses} words {words}")?;
            if solve {
                print_model(rt, &formula)?;
            }
            Ok(())
        }
        Err(ReadError::Refused(at)) => {
            let mut line = [0; LINE];
            match write_refusal(at, &mut line) {
                Ok(_) => rt.stdout().write_all(&line)?,
                Err(_) => unreachable!(),
            }
            Ok(())
        }
        Err(ReadError::Memory) => Err(anyhow!("out of memory")),
    }
}

fn main(rt: HostRuntime) -> anyhow::Result<()> {
    run(&rt)
}
