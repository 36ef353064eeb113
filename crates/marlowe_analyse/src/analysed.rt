//! The analysis of a contract, from text to text.
ghost use Rattle.std.specs.Prelude.{◌≡◌, true, not, ◌||◌, map, All, IfOk, IfSome};
ghost use Rattle.contract.specs.Collections.Answers.{AsideBy};
ghost use Rattle.contract.specs.Tree.{contract_tree};
ghost use Rattle.marlowe_run.specs.Start.{start_of};
ghost use Rattle.bound_runs.specs.Told.{RangeHasNumbers, LossHasNumbers};
ghost use Rattle.analysis_lines.specs.ToldLines.{line_of, LineFits};
ghost use Rattle.marlowe_analyse.specs.Told.{text_given};
ghost use Rattle.marlowe_analyse.specs.Printed.{printed, IsClear, TellsOfTree, is_read};
ghost use Rattle.marlowe_analyse.specs.Keeping.{IsSure, IsSureFor, TellsFor, TellsSo};
ghost use Rattle.analysis_lines.specs.Kept.{with_kept};
ghost use Rattle.marlowe_analyse.specs.RunsSupport.{AnalysedFrom, is_started};

use crate::once::told_once;
use crate::ranges::told_ranges;
use crate::runs::{bounds_work_of, told_alarms, work_of};
use crate::taken::{leaves, told_losses, told_out};
use crate::unreached::told_places;
use analysis::analyse;
use analysis_lines::{Told, json_for_tools, lines_for_people, with_kept};
use analysis_spec::PaidRange;
use analysis_walk::Analysis;
use bound_runs::{Shown, with_runs};
use contract::{Contract, Items, Memory, Party, State};
use keeping_up::Kept;
use loss_walk::kept_up;
use marlowe_run::{Readable, RunFault, beside_dropped, read_contract_within, read_start};
use std::alloc::Global;

/// How an analysis is told.
#[derive(Clone, Copy, Debug, PartialEq, Eq)]
pub struct Telling {
    /// JSON for tools, and else lines for people.
    pub tools: bool,
    /// Runs are looked for: those that end in alarms, and those that reach bounds.
    pub runs: bool,
    /// Each alarm is told in full, and else of alarms of one kind at equal parts the first that has a run. Tools are told all anyhow.
    pub all: bool,
    /// Notes on the contract are told too.
    pub notes: bool,
}

/// What is printed of a contract, with a line feed at the end, whether it never warns and stays within 128 bits, and whether
/// a part is told to which no run comes.
#[derive(Drop)]
pub struct Analysed {
    pub text: Vec<u8>,
    pub is_clear: bool,
    pub has_unreached: bool,
    /// Whether no alarm tells that a number may leave 128 bits.
    pub stays: bool,
}

/// Analyses a contract from a state, both as JSON texts of at most 1,048,576 bytes; without a state its runs start
/// without entries, at time 0. The contract nests no deeper than is readable, and a number of the state may be a text of its
/// digits, as outcomes have it where JSON lacks it, where that is readable. Refused is a text that is no contract or no state. Where runs
/// are wanted, it looks for one that ends in each alarm, and one that reaches each bound above 0. All searches together do no more work than
/// the length of the texts allows. Alarms stand in the order of the contract, none twice, and so do the parts that are told to be never
/// reached, none below another. A least is told only where a run is known that closes the contract. From when on all can be taken out is
/// told exactly where there is no alarm of `Leaves128`, and so is what parties can lose: who isn't named loses nothing. A run is told with a
/// bound only where it comes to that very sum; of a least and of a loss it closes the contract. Where a party is asked about, it is told too
/// what it is paid at least of each token, and can lose, in all runs in which it keeps up.
pub fn analyse_text(
    alloc: Global,
    contract: &[u8],
    state: Option<&[u8]>,
    readable: Readable,
    telling: Telling,
    party: &Option<Party>,
) -> Result<Analysed, RunFault>
    ensures told { IfOk result (λ told.
        TellsSo telling party.now readable contract.now (text_given state.entry) told.is_clear told.has_unreached told.text.items) }
    ensures clear { IfOk result (λ told. told.is_clear ≡ true → IsClear readable contract.now (text_given state.entry)) }
    ensures read { AsideBy RunFault.Memory (λ _. tt) result (is_read readable contract.now (text_given state.entry)) }
{
    let length = contract.len().saturating_add(length_of(state));
    match read_contract_within(alloc, contract, readable.depth) {
        Ok(given) => {
            let texts = readable.text_numbers;
            let told = analysed_from(alloc, &given, state, texts, length, telling, party);
            beside_dropped(given, told)
        }
        Err(fault) => Err(RunFault::of_contract(fault)),
    }
}

// What is printed of a contract and the text of a state, if there is one.
fn analysed_from(
    alloc: Global,
    contract: &Contract,
    state: Option<&[u8]>,
    texts: bool,
    length: usize,
    telling: Telling,
    party: &Option<Party>,
) -> Result<Analysed, RunFault>
    ensures told { IfOk result (AnalysedFrom telling party.now texts (contract_tree contract.now) (text_given state.entry)) }
    ensures read { AsideBy RunFault.Memory (λ _. tt) result (is_started (start_of texts (text_given state.entry))) }
{
    match read_start(alloc, state, texts) {
        Ok(first) => {
            let given = state.is_some();
            let text = analysis_for(alloc, contract, &first, given, length, telling, party);
            let told = beside_dropped(first, text)?;
            Ok(told)
        }
        Err(fault) => Err(RunFault::of_state(fault)),
    }
}

/// What is printed of a contract that starts in a state, which may be given or the one without entries: what `analyse_text` prints once
/// all is read of texts that have so many bytes together.
pub fn analysis_for(
    alloc: Global,
    contract: &Contract,
    state: &State,
    given: bool,
    length: usize,
    telling: Telling,
    party: &Option<Party>,
) -> Result<Analysed, Memory>
    ensures { IfOk result (λ told. TellsFor telling party.now given state.now (contract_tree contract.now)
        told.is_clear told.has_unreached told.text.items) }
{
    let (told, kept) = all_told(alloc, contract, state, given, length, telling, party)?;
    match party {
        Some(party) => with_party(alloc, told, kept, given, telling, party),
        None => Ok(told),
    }
}

// What is printed, with what a party is sure of while it keeps up.
fn with_party(
    alloc: Global,
    told: Analysed,
    kept: Option<Items<Kept>>,
    given: bool,
    telling: Telling,
    party: &Party,
) -> Result<Analysed, Memory>
    ensures { IfOk result (λ whole. (whole.text.items ≡ with_kept telling.tools given party.now kept told.text.items)
        × (whole.is_clear ≡ told.is_clear) × (whole.has_unreached ≡ told.has_unreached)) }
{
    let Analysed {
        text,
        is_clear,
        has_unreached,
        stays,
    } = told;
    let text = with_kept(alloc, text, telling.tools, given, party, &kept)?;
    Ok(Analysed {
        text,
        is_clear,
        has_unreached,
        stays,
    })
}

// What it is sure of, if one is asked about; nothing where a number may leave 128 bits, since then what it brought may never come out.
fn kept_for(
    alloc: Global,
    contract: &Contract,
    state: &State,
    ranges: &[PaidRange],
    party: &Option<Party>,
    stays: bool,
) -> Result<Option<Items<Kept>>, Memory>
    ensures { IfOk result (IsSureFor party.now state.now (contract_tree contract.now) stays) }
{
    match party {
        Some(party) => kept_if(alloc, contract, state, ranges, party, stays),
        None => Ok(None),
    }
}

fn kept_if(
    alloc: Global,
    contract: &Contract,
    state: &State,
    ranges: &[PaidRange],
    party: &Party,
    stays: bool,
) -> Result<Option<Items<Kept>>, Memory>
    ensures { IfOk result (IsSure party.now state.now (contract_tree contract.now) stays) }
{
    if stays {
        let kept = kept_up(alloc, contract, state, ranges, party)?;
        Ok(Some(kept))
    } else {
        Ok(None)
    }
}

// What is printed where no party is asked about, and what the party is sure of, if one is.
fn all_told(
    alloc: Global,
    contract: &Contract,
    state: &State,
    given: bool,
    length: usize,
    telling: Telling,
    party: &Option<Party>,
) -> Result<(Analysed, Option<Items<Kept>>), Memory>
    ensures told { IfOk result (λ r.
        TellsOfTree telling given state.now (contract_tree contract.now) r.0.is_clear r.0.has_unreached r.0.stays r.0.text.items) }
    ensures kept { IfOk result (λ r. IsSureFor party.now state.now (contract_tree contract.now) r.0.stays r.1) }
{
    let Analysis {
        alarms,
        ranges,
        unreached,
    } = analyse(alloc, contract, state)?;
    let out = told_out(contract, state, alarms.as_slice());
    let all_come = unreached.is_empty();
    let losses = told_losses(alloc, contract, state, alarms.as_slice(), &ranges, all_come)?;
    let stays = !leaves(alarms.as_slice());
    let kept = kept_for(alloc, contract, state, ranges.as_slice(), party, stays)?;
    let work = work_of(length, telling.runs);
    let alarms = told_alarms(alloc, contract, state, alarms.as_slice(), work)?;
    let ranges = told_ranges(alloc, contract, state, ranges)?;
    let work = bounds_work_of(length, telling.runs);
    let Shown { ranges, losses } = with_runs(alloc, contract, state, ranges, losses, work)?;
    let unreached = told_places(alloc, unreached.as_slice())?;
    let is_clear = alarms.is_empty();
    let once = is_told_once(telling);
    let alarms = told_once(alloc, contract, alarms, once)?;
    let has_unreached = !unreached.is_empty();
    let told = Told {
        alarms,
        unreached,
        ranges,
        out,
        losses,
    };
    let text = printed(alloc, &told, contract, state, given, telling)?;
    let told = Analysed {
        text,
        is_clear,
        has_unreached,
        stays,
    };
    Ok((told, kept))
}

// Whether of alarms of one kind at equal parts one is told.
fn is_told_once(telling: Telling) -> bool
    ensures { result ≡ not (telling.tools || telling.all) }
{
    !(telling.tools || telling.all)
}

fn length_of(state: Option<&[u8]>) -> usize {
    match state {
        Some(text) => text.len(),
        None => 0,
    }
}

fn printed(
    alloc: Global,
    told: &Told,
    contract: &Contract,
    state: &State,
    given: bool,
    telling: Telling,
) -> Result<Vec<u8>, Memory>
    requires alarms { All LineFits told.now.alarms.items }
    requires ranges { All RangeHasNumbers told.now.ranges }
    requires losses { IfSome told.now.losses (All LossHasNumbers) }
    ensures { IfOk result (λ text. text.items ≡ printed telling given state.now (contract_tree contract.now)
        (map line_of told.now.alarms.items) told.now.unreached told.now.ranges told.now.out told.now.losses) }
{
    if telling.tools {
        json_for_tools(alloc, told, contract, state, telling.runs, telling.notes)
    } else {
        lines_for_people(
            alloc,
            told,
            contract,
            state,
            given,
            telling.runs,
            telling.notes,
        )
    }
}
