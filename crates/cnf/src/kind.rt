// What a table says of a variable.
ghost use Rattle.std.specs.Prelude.{◌≡◌};
ghost use Rattle.cnf.specs.Table.{kind_of};

// Free: it represents itself. Fixed: a constant represents it, with the value. Tied: the code of another variable's literal represents it.
#[derive(Clone, Copy, PartialEq, Eq, Debug)]
pub enum Kind {
    Free,
    Fixed(bool),
    Tied(u16),
}

impl Kind {
    // What the variable v is, where this is its entry in a table.
    pub fn of(v: usize, entry: u16) -> Kind
        ensures { result ≡ kind_of v entry }
    {
        if entry % 2 == 0 && entry as usize / 2 == v {
            Kind::Free
        } else if entry < 2 {
            Kind::Fixed(entry == 1)
        } else {
            Kind::Tied(entry)
        }
    }
}
