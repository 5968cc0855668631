// Opening a sheet by its number of nets.
ghost use Rattle.std.specs.Prelude.{◌≡◌, ◌≤◌, min, [], IfOk, IfErr, vec_len};
ghost use Rattle.cnf.specs.Open.{Refuses};
ghost use Rattle.sheet.specs.Of.{state_of};
ghost use Rattle.sheet.specs.Calls.{opened};
ghost use Rattle.sheet.specs.Laws.{Fits};

use crate::Sheet;
use classes::scratch::Scratch;
use cnf::limits::MAX_WORDS;
use cnf::open::OpenError;
use cnf::table::own_entries;
use std::alloc::Global;

// Why a sheet was not opened, with the store space that was handed over.
#[derive(Drop)]
pub struct Unopened {
    pub error: OpenError,
    pub space: Vec<u16>,
}

impl Sheet {
    // A sheet of a number of nets with no clause, in a store space of which at most the first
    // 30,000 words count.
    pub fn open(heap: Global, nets: usize, mut space: Vec<u16>) -> Result<Sheet, Unopened>
        ensures few { IfOk result (λ _. nets ≤ 2000) }
        ensures opens { IfOk result (λ s. state_of s ≡ opened nets (min (vec_len space) 30000)) }
        ensures law { IfOk result (λ s. Fits [] (state_of s)) }
        ensures refuses { IfErr result (λ u. Refuses nets u.error) }
        ensures given_back { IfErr result (λ u. u.space ≡ space) }
    {
        match Sheet::set_aside(heap, nets) {
            Ok(mut sheet) => {
                sheet.space = space.len().min(MAX_WORDS);
                space.clear();
                sheet.words = space;
                Ok(sheet)
            }
            Err(error) => Err(Unopened { error, space }),
        }
    }

    // A sheet with no store space yet.
    fn set_aside(heap: Global, nets: usize) -> Result<Sheet, OpenError>
        ensures few { IfOk result (λ _. nets ≤ 2000) }
        ensures opens { IfOk result (λ s. state_of s ≡ opened nets 0) }
        ensures refuses { IfErr result (Refuses nets) }
    {
        let table = own_entries(heap, nets)?;
        let size = table.len();
        Ok(Sheet {
            table,
            words: Vec::new(heap),
            space: 0,
            waiting: vec![in heap; false; size]?,
            next: vec![in heap; 0; size]?,
            news: vec![in heap; 0; size]?,
            bits: vec![in heap; false; size]?,
            scratch: Scratch::new(heap, nets)?,
        })
    }
}
