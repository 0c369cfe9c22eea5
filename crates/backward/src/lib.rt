// A walk over words from their end, for up to 64 lines of the frame together, that stops when each line has its edit. Where the words have none for a
// line, it is the one that is kept of what was before them.
#![tactic(auto)]

ghost use Rattle.std.specs.Prelude.{◌≡◌, length};
ghost use Rattle.runs.specs.Runs.{Named};
ghost use Rattle.backward.specs.Cells.{asked_of, edit_added, new_edits, or_kept, placed, cells_at, walked_of};

// A cell for each number that a word's line can be: 0 if the line is named and has no edit yet, else not 0. `left` of them are 0.
#[derive(Clone, Copy)]
pub struct Asked {
    pub left: u32,
    pub cells: [u32; 256],
}

// The edits of the lines named, in their order, as they are stored (0 for no edit yet, else the code + 1); and how many words were read.
// No `Option`s, here and in the cells: the kept codes are as a record has them, and the edits go to C as they lie here.
#[derive(Clone, Copy)]
pub struct Walked {
    pub words: usize,
    pub edits: [u32; 64],
}

// `Named` stands in three contracts: a struct around the lent lines would be made by one caller, for one call.
// The lines that are named: every cell is 1 or 0 here, so that a cell says whether its line is a new one.
fn ask(lines: &[u32]) -> Asked
    requires { Named lines.now }
    ensures { result ≡ asked_of lines.now }
{
    let mut left: u32 = 0;
    let mut cells: [u32; 256] = [1; 256];
    for named in lines {
        let line = *named as usize;
        left += cells[line];
        cells[line] = 0;
    }
    Asked { left, cells }
}

// The word is read: it is the edit of its line if the line is named and has none yet. Answers how many edits that adds.
fn add_edit(cells: &mut [u32; 256], word: u32) -> u32
    requires { length cells.old ≡ 256 }
    ensures { (cells.new ≡ edit_added cells.old word) × (result ≡ new_edits cells.old word) }
{
    let line = words::line_of(word);
    if cells[line] != 0 {
        return 0;
    }
    cells[line] = word % 65536 + 1;
    1
}

// The edit, or the kept one if there is none.
fn or_kept(edit: u32, kept: u32) -> u32
    ensures { result ≡ or_kept edit kept }
{
    if edit != 0 {
        return edit;
    }
    kept
}

// What the cells say of the lines, or else the kept codes; past the lines no edit yet.
fn answers(cells: &[u32; 256], lines: &[u32], codes: [u32; 64]) -> [u32; 64]
    requires { Named lines.now }
    ensures { result ≡ placed (cells_at codes cells.now lines.now) }
{
    let mut edits: [u32; 64] = [0; 64];
    for (i, named) in lines.iter().enumerate() {
        let line = *named as usize;
        edits[i] = or_kept(cells[line], codes[line]);
    }
    edits
}

// The last edit of each line named, in the words or else in the codes kept of what was before them. It is for up to 64 lines of the frame: more have
// no place in the answer. Public only for the crate above, which proves what it requires.
pub fn walk(words: &[u32], lines: &[u32], codes: [u32; 64]) -> Walked
    requires { Named lines.now }
    ensures { result ≡ walked_of words.now lines.now codes }
{
    let asked = ask(lines);
    let mut left = asked.left;
    let mut cells = asked.cells;
    // `end` stays a number, and the words no iterator: how many were read is part of the answer.
    let mut end = words.len();
    while left > 0 {
        if end == 0 {
            break;
        }
        end = end - 1;
        left = left - add_edit(&mut cells, words[end]);
    }
    let edits = answers(&cells, lines, codes);
    Walked {
        words: words.len() - end,
        edits,
    }
}
