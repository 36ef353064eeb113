//! What a command says, and how it is shown.
ghost use Rattle.std.specs.Prelude.{◌≡◌, ◌⊎◌, [], ◌∷◌, ◌++◌, IfOk, OnOk};
ghost use Rattle.serve.specs.RefusalObjects.Objects.{refused_line};
ghost use Rattle.marlowe_commands.specs.Streams.{for_people, for_tools, refusal_of, refused_shown, refuses, saying_of, shown, streams_of, unreadable};
ghost use Rattle.marlowe_commands.specs.Tasks.{refusal_by, unread_party};

use crate::face::Face;
use crate::printed::Printed;
use marlowe_play::{Fault, JsonFault, Memory, json_fault_name, refusal};
use serve::{members, named_members, put_next, refused_line, status};
use std::alloc::Global;

// The status for tools of a text that isn't read.
const UNREAD: u8 = 4;

/// A refusal, as it is told to people and to tools.
#[derive(Drop)]
pub struct Refusal {
    /// Its line, without a line feed.
    pub line: Vec<u8>,
    pub status: u8,
    /// Its first members, as JSON.
    pub members: Vec<u8>,
    /// The status for tools.
    pub tool_status: u8,
}

/// What a command says.
#[derive(Drop)]
pub enum Said {
    /// A text, with its status.
    Text(Vec<u8>, u8),
    /// A text, and the refusal that ends it.
    Refused(Vec<u8>, Refusal),
}

impl Said {
    /// A fault, behind a text.
    pub fn refused(alloc: Global, text: Vec<u8>, fault: &Fault) -> Result<Said, Memory>
        ensures { IfOk result (λ said. saying_of said ≡ refuses text.items (refusal_by fault.now)) }
    {
        let refusal = Refusal {
            line: refusal(alloc, fault)?,
            status: 1,
            members: members(alloc, fault)?,
            tool_status: status(fault),
        };
        Ok(Said::Refused(text, refusal))
    }

    /// A file that can't be read.
    pub fn unreadable(alloc: Global, path: &str) -> Result<Said, Memory>
        ensures { IfOk result (λ said. saying_of said ≡ refuses [] (unreadable path.now)) }
    {
        let line = format!(in alloc; "unreadable {path}")?;
        let mut members = named_members(alloc, "file", "unreadable")?;
        put_next(alloc, &mut members, "file", &path)?;
        let refusal = Refusal {
            line: line.into_bytes(),
            status: 2,
            members,
            tool_status: 2,
        };
        Ok(Said::Refused(Vec::new(alloc), refusal))
    }

    /// A text that stands for no party.
    pub fn unread_party(alloc: Global, fault: JsonFault) -> Result<Said, Memory>
        ensures { IfOk result (λ said. saying_of said ≡ refuses [] (unread_party fault)) }
    {
        let name = json_fault_name(fault);
        let line = format!(in alloc; "refused party {name}")?;
        let refusal = Refusal {
            line: line.into_bytes(),
            status: 1,
            members: named_members(alloc, "party", name)?,
            tool_status: UNREAD,
        };
        Ok(Said::Refused(Vec::new(alloc), refusal))
    }

    /// Whether more is to be told of it: it is a refusal, and explanations are shown.
    pub fn is_explained(&self, face: Face) -> bool {
        match self {
            Said::Text(_, _) => false,
            Said::Refused(_, _) => face != Face::Plain,
        }
    }

    /// What is printed, with what is told of a refusal, or without it where memory is refused.
    pub fn shown(self, alloc: Global, face: Face, told: &Vec<u8>) -> Result<Printed, Memory>
        ensures { IfOk result (λ printed. (streams_of printed ≡ shown face (saying_of self) told.now.items)
            ⊎ (streams_of printed ≡ shown face (saying_of self) [])) }
    {
        match self {
            Said::Text(text, status) => Ok(on_output(alloc, text, status)),
            Said::Refused(text, refusal) => {
                refused_shown(alloc, text, refusal, face, told.as_slice())
            }
        }
    }
}

// A refusal behind a text.
fn refused_shown(
    alloc: Global,
    text: Vec<u8>,
    refusal: Refusal,
    face: Face,
    told: &[u8],
) -> Result<Printed, Memory>
    ensures { IfOk result (λ printed. (streams_of printed ≡ refused_shown face text.items (refusal_of refusal) told.now)
        ⊎ (streams_of printed ≡ refused_shown face text.items (refusal_of refusal) [])) }
{
    match face {
        Face::Plain => for_people(text, refusal, &[]),
        Face::Explained => for_people(text, refusal, told),
        Face::Json => for_tools(alloc, text, refusal, told),
    }
}

fn on_output(alloc: Global, text: Vec<u8>, status: u8) -> Printed
    ensures { streams_of result ≡ (text.items, [], status) }
{
    Printed {
        output: text,
        errors: Vec::new(alloc),
        status,
        unread: status == UNREAD,
    }
}

// A refusal on standard error.
fn for_people(text: Vec<u8>, refusal: Refusal, lines: &[u8]) -> Result<Printed, Memory>
    ensures { IfOk result (λ printed. (streams_of printed ≡ for_people text.items (refusal_of refusal) lines.now)
        ⊎ (streams_of printed ≡ for_people text.items (refusal_of refusal) [])) }
{
    let Refusal {
        mut line,
        status,
        tool_status,
        ..
    } = refusal;
    line.push(b'\n')?;
    put_if(&mut line, lines);
    Ok(Printed {
        output: text,
        errors: line,
        status,
        unread: tool_status == UNREAD,
    })
}

/// Puts bytes behind others, or none where memory is refused.
#[tactic(auto, using(crate::proofs::ShownLemmas::with_none))]
pub(crate) fn put_if(to: &mut Vec<u8>, bytes: &[u8])
    ensures { (to.new.items ≡ to.old.items ++ bytes.now) ⊎ (to.new.items ≡ to.old.items ++ []) }
{
    let _ = to.extend_from_slice(bytes);
}

// A refusal on standard output.
fn for_tools(alloc: Global, text: Vec<u8>, refusal: Refusal, told: &[u8]) -> Result<Printed, Memory>
    ensures { IfOk result (λ printed. (streams_of printed ≡ for_tools text.items (refusal_of refusal) told.now)
        ⊎ (streams_of printed ≡ for_tools text.items (refusal_of refusal) [])) }
{
    let line = line_with(alloc, refusal.members.as_slice(), told)?;
    let output = put_line(text, line.as_slice())?;
    Ok(on_output(alloc, output, refusal.tool_status))
}

// The line of a refusal, with what is told of it, or without it where memory is refused.
fn line_with(alloc: Global, members: &[u8], told: &[u8]) -> Result<Vec<u8>, Memory>
    ensures { IfOk result (λ line. (line.items ≡ refused_line members.now told.now) ⊎ (line.items ≡ refused_line members.now [])) }
{
    match refused_line(alloc, members, told) {
        Ok(line) => Ok(line),
        Err(_) => refused_line(alloc, members, &[]),
    }
}

fn put_line(mut text: Vec<u8>, line: &[u8]) -> Result<Vec<u8>, Memory>
    ensures { IfOk result (λ whole. whole.items ≡ text.items ++ line.now) }
{
    text.extend_from_slice(line)?;
    Ok(text)
}
