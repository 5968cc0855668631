// What a text says.
ghost use Rattle.std.specs.Prelude.{◌≡◌, ◌≤◌, true, length};
ghost use Rattle.cnf.specs.Words.{read, well};

// The number of nets, and the clauses in order and as written, in words.
#[derive(Drop)]
pub struct Formula {
    pub(crate) nets: usize,
    pub(crate) count: usize,
    pub(crate) words: Vec<u16>,
    ghost few: { nets ≤ 2000 },
    ghost form: { well nets words.items ≡ true },
    ghost counted: { count ≡ length (read words.items) },
}

impl Formula {
    // How many nets there are.
    pub fn nets(&self) -> usize
        ensures { result ≡ self.now.nets }
    {
        self.nets
    }

    // How many clauses there are.
    pub fn clause_count(&self) -> usize
        ensures { result ≡ length (read self.now.words.items) }
    {
        self.count
    }

    // The clauses: for each the count of its literals, then their codes.
    pub fn words(&self) -> &[u16]
        ensures { result.now ≡ self.now.words.items }
    {
        self.words.as_slice()
    }
}
