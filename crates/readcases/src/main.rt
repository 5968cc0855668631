// Reads the texts that standard input lists, a line `WORDS FILE` for each, and prints what each reading gives.
#![tactic(auto)]

use anyhow::anyhow;
use dimacs::error::ReadError;
use std::alloc::Global;
use std::fs;

// What reading this text for this store space gives, in a line.
fn outcome(heap: Global, text: &[u8], space: usize) -> anyhow::Result<String> {
    match dimacs::read(heap, text, space) {
        Ok(formula) => {
            let nets = formula.nets();
            let clauses = formula.clause_count();
            let words = formula.words();
            Ok(format!(in heap; "nets {nets} clauses {clauses} words {words:?}")?)
        }
        Err(ReadError::Refused(at)) => {
            let line = at.line;
            let part = at.fault.part();
            let number = at.fault.number();
            Ok(format!(in heap; "line {line} {part} {number}")?)
        }
        Err(ReadError::Memory) => Err(anyhow!("out of memory")),
    }
}

fn main(rt: HostRuntime) -> anyhow::Result<()> {
    let heap = rt.alloc();
    for line in rt.lines(heap) {
        let line = line?;
        let Some((space, file)) = line.as_str().split_once(' ') else {
            return Err(anyhow!("no file on a line"));
        };
        let text = fs::read(&rt, file)?;
        let said = outcome(heap, &text, space.parse::<usize>()?)?;
        println!(rt; "{file}: {said}")?;
    }
    Ok(())
}
