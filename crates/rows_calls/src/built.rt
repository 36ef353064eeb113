//! Transactions that are built.
use crate::desk::Desk;
use crate::offers::Handed;
use crate::parts::{WrittenPart, lent_parts};
use crate::shown::put_output;
use builder::{BuildFault, Part, build_claim, build_start, build_step, build_steps};
use contract::{Input, Items, State, Text};
use ledger::{Datum, Instance, Look, Published, Spend, Tx, TxFault};
use rows_text::{
    Known, RowFault, both, first, inputs_of, nothing, parts, put_words, refusal_line, replace,
    state_of, text, word_of, word_of_reference,
};
use std::alloc::{AllocError, Global};

/// What is asked for, beside the interval and the signers that are written. Dropped once:
/// who owns it is generic in it, so that no proof walks through its drop.
trait Request: Drop {
    fn build(&self, alloc: Global, tx: &Tx, handed: &Handed) -> Result<Tx, BuildFault>;
}

#[derive(Drop)]
struct StepRequest<'a> {
    look: &'a Look,
    inputs: Items<Input>,
    change: Text,
}

#[derive(Drop)]
struct StepsRequest<'a> {
    parts: Vec<Part<'a>>,
    change: Text,
}

#[derive(Drop)]
struct StartRequest<'a> {
    published: &'a Published,
    state: State,
    change: Text,
}

#[derive(Drop)]
struct ClaimRequest {
    to: Text,
    change: Text,
}

impl Request for StepRequest<'_> {
    fn build(&self, alloc: Global, tx: &Tx, handed: &Handed) -> Result<Tx, BuildFault> {
        build_step(
            alloc,
            self.look,
            tx.interval,
            self.inputs.as_slice(),
            tx.signers.as_slice(),
            handed.offered.as_slice(),
            &self.change,
        )
    }
}

impl Request for StepsRequest<'_> {
    fn build(&self, alloc: Global, tx: &Tx, handed: &Handed) -> Result<Tx, BuildFault> {
        build_steps(
            alloc,
            &self.parts,
            tx.interval,
            tx.signers.as_slice(),
            handed.offered.as_slice(),
            &self.change,
        )
    }
}

impl Request for StartRequest<'_> {
    fn build(&self, alloc: Global, tx: &Tx, handed: &Handed) -> Result<Tx, BuildFault> {
        build_start(
            alloc,
            self.published,
            &self.state,
            tx.interval,
            tx.signers.as_slice(),
            handed.offered.as_slice(),
            &self.change,
        )
    }
}

impl Request for ClaimRequest {
    fn build(&self, alloc: Global, tx: &Tx, handed: &Handed) -> Result<Tx, BuildFault> {
        build_claim(
            alloc,
            handed.claimed.as_slice(),
            tx.interval,
            tx.signers.as_slice(),
            handed.offered.as_slice(),
            &self.to,
            &self.change,
        )
    }
}

/// Builds from what is written and handed in, and from `step`, `steps`, `start` or `claim` and what follows: what is printed. What was
/// handed in is gone, and in place of what was written stands what is built, if anything.
pub fn build(alloc: Global, desk: &mut Desk, rest: &str) -> Result<String, RowFault> {
    let (sort, rest) = first(rest);
    match sort {
        "step" => {
            let request = step_of(alloc, &desk.known, &desk.look, rest);
            built(alloc, &desk.known, &mut desk.tx, &mut desk.handed, request)
        }
        "steps" => {
            let request = steps_of(alloc, &desk.parts, rest);
            built(alloc, &desk.known, &mut desk.tx, &mut desk.handed, request)
        }
        "start" => {
            let request = start_of(alloc, &desk.known, rest);
            built(alloc, &desk.known, &mut desk.tx, &mut desk.handed, request)
        }
        "claim" => {
            let request = claim_of(alloc, rest);
            built(alloc, &desk.known, &mut desk.tx, &mut desk.handed, request)
        }
        _ => Err(RowFault::NoSuchRow),
    }
}

// From `CHANGE INPUT ..`.
fn step_of<'a>(
    alloc: Global,
    known: &Known,
    look: &'a Option<Look>,
    rest: &str,
) -> Result<StepRequest<'a>, RowFault> {
    let (change, inputs) = first(rest);
    match look {
        Some(look) => {
            let (change, inputs) = both(text(alloc, change), inputs_of(alloc, known, inputs))?;
            Ok(StepRequest {
                look,
                inputs,
                change,
            })
        }
        None => Err(RowFault::NoSuchRow),
    }
}

// From `CHANGE`.
fn steps_of<'a>(
    alloc: Global,
    parts: &'a [WrittenPart],
    change: &str,
) -> Result<StepsRequest<'a>, RowFault> {
    let change = text(alloc, change)?;
    let parts = lent_parts(alloc, parts)?;
    Ok(StepsRequest { parts, change })
}

// From `NAME STATE CHANGE`.
fn start_of<'a>(alloc: Global, known: &'a Known, rest: &str) -> Result<StartRequest<'a>, RowFault> {
    let (name, rest) = parts(rest)?;
    let (state, change) = parts(rest)?;
    let published = known.by_name(name)?.published();
    let (change, state) = both(text(alloc, change), state_of(alloc, known, state))?;
    Ok(StartRequest {
        published,
        state,
        change,
    })
}

// From `TO CHANGE`.
fn claim_of(alloc: Global, rest: &str) -> Result<ClaimRequest, RowFault> {
    let (to, change) = parts(rest)?;
    let (to, change) = both(text(alloc, to), text(alloc, change))?;
    Ok(ClaimRequest { to, change })
}

fn built<R: Request>(
    alloc: Global,
    known: &Known,
    tx: &mut Tx,
    handed: &mut Handed,
    request: Result<R, RowFault>,
) -> Result<String, RowFault> {
    let request = request?;
    let built = request.build(alloc, tx, handed);
    if matches!(&built, Err(BuildFault::Memory)) {
        return Err(RowFault::Refused);
    }
    replace(handed, Handed::new(alloc));
    replace(tx, nothing(alloc));
    keep(alloc, known, tx, built)
}

// What is laid out. Dropped once: who owns it is generic in it, so that no proof walks through its drop.
trait Laid: Drop {
    fn lines(&self, alloc: Global, known: &Known) -> Result<String, AllocError>;
}

// Keeps what is built: its lines, or the one for the fault.
fn keep<T: Laid>(
    alloc: Global,
    known: &Known,
    place: &mut T,
    built: Result<T, BuildFault>,
) -> Result<String, RowFault> {
    match built {
        Ok(made) => {
            let lines = made.lines(alloc, known)?;
            replace(place, made);
            Ok(lines)
        }
        Err(fault) => Ok(fault_line(alloc, fault)?),
    }
}

fn fault_line(alloc: Global, fault: BuildFault) -> Result<String, AllocError> {
    match fault {
        BuildFault::NotAuthorised(party) => refusal_line(alloc, &TxFault::NotAuthorised(party)),
        BuildFault::NoFunds(token) => {
            let token = word_of(alloc, &token)?;
            format!(in alloc; "refused NoFunds({token})")
        }
        fault => format!(in alloc; "refused {fault:?}"),
    }
}

impl Laid for Tx {
    fn lines(&self, alloc: Global, known: &Known) -> Result<String, AllocError> {
        let mut lines = String::from_str(alloc, "built from")?;
        put_inputs(alloc, &mut lines, known, self.inputs.as_slice())?;
        put_outputs(alloc, &mut lines, known, self)?;
        Ok(lines)
    }
}

fn put_inputs(
    alloc: Global,
    lines: &mut String,
    known: &Known,
    inputs: &[Spend],
) -> Result<(), AllocError> {
    for input in inputs {
        lines.push(' ')?;
        put_words(
            lines,
            word_of_reference(alloc, &known.sent, &input.reference),
        )?;
    }
    Ok(())
}

fn put_outputs(
    alloc: Global,
    lines: &mut String,
    known: &Known,
    tx: &Tx,
) -> Result<(), AllocError> {
    for (place, output) in tx.outputs.as_slice().iter().enumerate() {
        lines.push_str("\n ")?;
        let datum = datum_of(tx.contract_at(place as u64));
        put_output(alloc, lines, known, output, datum)?;
    }
    Ok(())
}

// The datum of a contract that is made, if one is.
fn datum_of(made: Option<Instance<'_>>) -> Option<&Datum> {
    match made {
        Some(made) => Some(made.datum),
        None => None,
    }
}
