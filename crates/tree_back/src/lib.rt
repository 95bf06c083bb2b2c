// What it is to write a listing of a foreign card back, and that nothing else is written: the definitions and the theorems.
// No code but the answers' types and the refusals' numbers: a listing is written back by `tree_write::write_back`.
// The theorems are of the definition; each piece's contract says that its answer is the definition's.
#![tactic(auto)]

ghost use Rattle.std.specs.Prelude.{◌≡◌};
ghost use Rattle.tree_back.specs.Sources.{number_of};

// An object that was put: how many of the values it took, and how many bytes were put.
#[derive(Clone, Copy, PartialEq, Eq)]
pub struct Step {
    pub values: usize,
    pub bytes: usize,
}

// Why nothing is written back.
#[derive(Clone, Copy, PartialEq, Eq)]
pub enum BackError {
    // The room is too small for the bytes.
    Room,
    // There are no bytes with this listing and these values.
    Listing,
}

impl BackError {
    // The number of the refusal.
    pub fn number(self) -> u8
        ensures { result ≡ number_of self }
    {
        match self {
            BackError::Room => 55,
            BackError::Listing => 56,
        }
    }
}
