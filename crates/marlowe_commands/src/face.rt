//! For whom a command prints.
ghost use Rattle.std.specs.Prelude.{◌≡◌};
ghost use Rattle.marlowe_commands.specs.Streams.{spelling_of};
ghost use Rattle.marlowe_commands.specs.Tasks.{face_by};

use serve::Spelling;

/// How a command shows what it says.
#[derive(Clone, Copy, Debug, PartialEq, Eq)]
pub enum Face {
    /// For people: a refusal is a line on standard error.
    Plain,
    /// For people: behind that line stand others, which say where and why.
    Explained,
    /// For tools: all is JSON on standard output, a refusal an object with what is told of it, and the status says who refuses.
    Json,
}

impl Face {
    /// JSON where it is wanted, and else explanations where they are.
    pub fn of(json: bool, explain: bool) -> Face
        ensures { result ≡ face_by json explain }
    {
        match (json, explain) {
            (true, _) => Face::Json,
            (false, true) => Face::Explained,
            (false, false) => Face::Plain,
        }
    }

    // In which spelling a refusal is explained.
    pub(crate) fn spelling(self) -> Spelling
        ensures { result ≡ spelling_of self }
    {
        match self {
            Face::Plain | Face::Explained => Spelling::Lines,
            Face::Json => Spelling::Members,
        }
    }
}
