// A sheet and the spaces that it owns.
ghost use Rattle.std.specs.Prelude.{◌≡◌, ℕ, ◌-◌, ◌≤◌, true, false, length, vec_len, vec_capacity, slice_index_or};
ghost use Rattle.cnf.specs.Words.{read, well};
ghost use Rattle.cnf.specs.Table.{rep, Tabled};
ghost use Rattle.sheet.specs.State.{broken, contains};

use classes::scratch::Scratch;

// The table has an entry for the constant and one for each net; the words are the store, of whose
// space `space` words count; a net waits if its mark is set.
// The other spaces serve sweeps and questions: the table to come, the new representative of each
// variable, the bits of an assignment, and what the sweep of a set works in. Each is lent as a whole
// to functions over tables, bits or marks, so they are no vector of records.
#[derive(Drop)]
pub struct Sheet {
    pub(crate) table: Vec<u16>,
    pub(crate) words: Vec<u16>,
    pub(crate) space: usize,
    pub(crate) waiting: Vec<bool>,
    pub(crate) next: Vec<u16>,
    pub(crate) news: Vec<u16>,
    pub(crate) bits: Vec<bool>,
    pub(crate) scratch: Scratch,
    // not cnf's `Table`: that one takes no new entries from a sweep, and a public method that did
    // would have to ask that they are a table's
    ghost tabled: { Tabled table.items },
    ghost some: { 1 ≤ vec_len table },
    ghost few: { vec_len table ≤ 2001 },
    // the store is a clause list in the space set aside for it, and each literal in it is its own
    // representative
    ghost limit: { space ≤ 30000 },
    ghost reserved: { space ≤ vec_capacity words },
    ghost room: { vec_len words ≤ space },
    ghost formed: { well (vec_len table - 1) words.items ≡ true },
    ghost own: { (c : ℕ) → contains (read words.items) c ≡ true → rep table.items c ≡ c },
    // a contradictory sheet stores just the empty clause and has nothing waiting
    ghost alone: { broken (read words.items) ≡ true → vec_len words ≡ 1 },
    ghost quiet: { broken (read words.items) ≡ true →
        (v : ℕ) → slice_index_or waiting.items v false ≡ false },
    // only nets wait
    ghost constant: { slice_index_or waiting.items 0 false ≡ false },
    // each other space has an entry for each of the table's
    ghost waiting_size: { vec_len waiting ≡ vec_len table },
    ghost next_size: { vec_len next ≡ vec_len table },
    ghost news_size: { vec_len news ≡ vec_len table },
    ghost bits_size: { vec_len bits ≡ vec_len table },
    ghost scratch_size: { vec_len scratch.rank ≡ vec_len table },
}

impl Sheet {
    // How many nets there are.
    pub fn nets(&self) -> usize
        ensures { result ≡ length self.now.table.items - 1 }
    {
        self.table.len() - 1
    }
}
