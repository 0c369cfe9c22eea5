// Answers with an option, as they cross to C: a flag beside a number.
#![tactic(auto)]

ghost use Rattle.std.specs.Prelude.{◌≡◌};
ghost use Rattle.crossing.specs.Framed.{across};
ghost use Rattle.crossing.specs.Foreseen.{foreseen};

// What a frame answers across C: an enum cannot cross, so a flag does, beside the code, which is 0 where there is no edit yet.
// C has it as it lies here, so it holds the number and is no `Result`.
#[repr(C)]
#[derive(Clone, Copy)]
pub struct Framed {
    pub number: u32,
    pub coded: bool,
    pub code: u32,
}

// What a frame answers, across C: any number, and beside it an edit or none. No `From`, here and below: the name says where it goes.
pub fn across(number: u32, edit: Option<u32>) -> Framed
    ensures { result ≡ across (record { number = number; edit = edit }) }
{
    match edit {
        Some(code) => Framed {
            number,
            coded: true,
            code,
        },
        None => Framed {
            number,
            coded: false,
            code: 0,
        },
    }
}

// What a forecast answers across C: an enum cannot cross, so its number does, and whether an entry is named stands before the entry.
// Of one shape with `Framed`, as are the two functions: C knows each by its name, and their fields by theirs.
// C has it as it lies here, so it holds the number and is no `Result`.
#[repr(C)]
#[derive(Clone, Copy)]
pub struct Foreseen {
    pub number: u32,
    pub named: bool,
    pub entry: u32,
}

// What a forecast answers, across C: any number, and beside it an entry or none.
pub fn foreseen_of(number: u32, winner: Option<u32>) -> Foreseen
    ensures { result ≡ foreseen number winner }
{
    match winner {
        Some(entry) => Foreseen {
            number,
            named: true,
            entry,
        },
        None => Foreseen {
            number,
            named: false,
            entry: 0,
        },
    }
}
