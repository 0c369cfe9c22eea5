// What the entries of a settled log have done, as a record holds it: the weights after its moves, and the last edit of each line.
#![tactic(auto)]

ghost use Rattle.std.specs.Prelude.{◌≡◌};
ghost use Rattle.summary.specs.Summary.{start_with, summary_after, summary_next};

// The present weights, and the settled codes of the 64 lines: 0 for a line with no edit yet, else the code + 1. C has them so: `Option`s
// cannot cross, nor be walked on vectors.
#[repr(C)]
#[derive(Clone, Copy, PartialEq, Eq)]
pub struct Summary {
    pub present: [u16; 8],
    pub codes: [u32; 64],
}

impl Summary {
    // Of an empty log: the founding weights, and no edit of any line.
    pub fn start(founding: [u16; 8]) -> Summary
        ensures { result ≡ start_with founding }
    {
        Summary {
            present: founding,
            codes: [0; 64],
        }
    }

    // After the entries of a log.
    pub fn after(self, words: &[u32]) -> Summary
        ensures { result ≡ summary_after self words.now }
    {
        Summary {
            present: moved_weights::weights_after(self.present, words),
            codes: settled_codes::codes_after(self.codes, words),
        }
    }

    // After one entry more: the code of its line is its code. A move is for no line.
    pub fn next(self, word: u32) -> Summary
        ensures { result ≡ summary_next self word }
    {
        let mut next = Summary {
            present: moved_weights::moved(self.present, word),
            ..self
        };
        let line = words::line_of(word);
        if line < 64 {
            next.codes[line] = settled_codes::cell_of(word);
        }
        next
    }
}
