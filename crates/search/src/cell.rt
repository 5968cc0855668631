// Partial assignments, and what a clause comes to under one. A cell has the bit of a variable, or none while it is open.
ghost use Rattle.std.specs.Prelude.{◌≡◌, true, length, position};
ghost use Rattle.std.specs.Option.{is_none};
ghost use Rattle.cnf.specs.Truth.{named, inside};
ghost use Rattle.search.specs.Cells.{look, Weighed};

// What a clause comes to: a literal is true, all are false, all but one that is open are false, or more are open.
#[derive(Clone, Copy)]
pub(crate) enum Status {
    Satisfied,
    Conflict,
    Forced(u16),
    Unresolved,
}

// The cell of a literal.
#[tactic(auto, unfolding(crate::specs::Cells::look))]
pub(crate) fn look_at(cells: &[Option<bool>], code: u16) -> Option<bool>
    requires { named (length cells.now) code ≡ true }
    ensures { result ≡ look cells.now code }
{
    let cell = cells[(code / 2 - 1) as usize];
    if code % 2 == 0 {
        cell
    } else {
        cell.map(|bit| !bit)
    }
}

// What a clause comes to.
pub(crate) fn weigh(cells: &[Option<bool>], body: &[u16]) -> Status
    requires { inside (length cells.now) body.now ≡ true }
    ensures { Weighed cells.now body.now result }
{
    let mut last: Option<u16> = None;
    for code in body {
        match look_at(cells, *code) {
            Some(true) => return Status::Satisfied,
            Some(false) => {}
            None => {
                if last.is_some() {
                    return Status::Unresolved;
                }
                last = Some(*code);
            }
        }
    }
    match last {
        None => Status::Conflict,
        Some(code) => Status::Forced(code),
    }
}

// The lowest open place.
pub(crate) fn first_open(cells: &[Option<bool>]) -> Option<usize>
    ensures { result ≡ position is_none cells.now }
{
    cells.iter().position(|cell| cell.is_none())
}
