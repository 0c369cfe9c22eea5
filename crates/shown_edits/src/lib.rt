// What a frame shows for a line: a code, or no edit yet; and what a stored code says.
#![tactic(auto)]

ghost use Rattle.std.specs.Prelude.{◌≡◌};
ghost use Rattle.shown_edits.specs.Shown.{stored_edit};

// What a stored code says: 0 is for no edit yet, any other number for the code below it.
pub fn stored_edit(stored: u32) -> Option<u32>
    ensures { result ≡ stored_edit stored }
{
    stored.checked_sub(1)
}
