//! What is printed of a play: its history, what became of each thread, and who holds what.
ghost use Rattle.std.specs.Prelude.{◌≡◌, ◌<◌, ◌-◌, length, map, slice_get, IfOk, List};
ghost use Rattle.std.specs.List.{All};
ghost use Rattle.play_endings.specs.Plans.declared.scenario.NamedThread.{NamedThread};
ghost use Rattle.play_setup.specs.PlayLines.PlayLines.{ThreadLine as Told};
ghost use Rattle.play_setup.specs.SetUp.{key_output};
ghost use Rattle.marlowe_play.specs.Played.{IsThreadLine, IsTold, TellsAll, leaves_close, wanted, well_by};
ghost use Rattle.marlowe_play.specs.PlayedSupport.{AreLines};

use crate::all::all_told;
use crate::asked::{Asked, Face, Played};
use crate::strict::went_well;
use chain_holdings::holdings_after;
use parties::{Chain, LeftOut, StepRecord};
use play_endings::{Memory, NamedThread, OutputRef, Published, Scenario, Spelling, Text};
use play_setup::{Stage, ThreadLine, key_outputs, played_lines};
use std::alloc::Global;

// All that is told of a play, and who holds what.
fn told_text(
    alloc: Global,
    chain: &Chain,
    scenario: &Scenario,
    starts: &[OutputRef],
    left: &[Vec<LeftOut>],
    lines: &[ThreadLine<'_>],
    spelling: Spelling,
) -> Result<Vec<u8>, Memory>
    requires genesis { chain.now.genesis ≡ map key_output scenario.now.genesis }
    requires tick { chain.now.first_tick ≡ scenario.now.tick }
    ensures { IfOk result (λ text. TellsAll spelling scenario.now chain.now starts.now (map (λ l. l.items) left.now) lines.now text.items) }
{
    let first = key_outputs(alloc, scenario.genesis.as_slice())?;
    let holdings = holdings_after(alloc, chain, &first, scenario.tick, starts)?;
    all_told(
        alloc,
        spelling,
        scenario,
        left,
        chain.entries(),
        lines,
        &holdings,
    )
}

// What is printed, as it is to be.
fn text_of(
    alloc: Global,
    chain: &Chain,
    scenario: &Scenario,
    starts: &[OutputRef],
    left: &[Vec<LeftOut>],
    lines: &[ThreadLine<'_>],
    face: Face,
) -> Result<Vec<u8>, Memory>
    requires genesis { chain.now.genesis ≡ map key_output scenario.now.genesis }
    requires tick { chain.now.first_tick ≡ scenario.now.tick }
    ensures { IfOk result (λ text.
        IsTold face scenario.now chain.now starts.now (map (λ l. l.items) left.now) lines.now text.items) }
{
    match face {
        Face::Plain => played_lines(alloc, chain.entries(), lines),
        Face::Explained => told_text(alloc, chain, scenario, starts, left, lines, Spelling::Lines),
        Face::Objects => told_text(
            alloc,
            chain,
            scenario,
            starts,
            left,
            lines,
            Spelling::Objects,
        ),
    }
}

// Whether all went well, if that was asked.
fn well_by(
    alloc: Global,
    chain: &Chain,
    scenario: &Scenario,
    left: &[Vec<LeftOut>],
    lines: &[ThreadLine<'_>],
    asked: Asked<'_>,
) -> Result<bool, Memory>
    ensures { IfOk result (λ well. well ≡ well_by (wanted asked.entry.face asked.entry.strict (map (λ s. s.now) asked.entry.kept_open.now))
        scenario.now (map (λ l. l.items) left.now) chain.now.entries lines.now) }
{
    if asked.strict {
        went_well(
            alloc,
            scenario,
            left,
            chain.entries(),
            lines,
            asked.kept_open,
        )
    } else {
        Ok(true)
    }
}

// The whole text, as it is to be, and whether all went well, if that was asked. Each line ends in a line feed.
pub(crate) fn played_text(
    alloc: Global,
    chain: &Chain,
    scenario: &Scenario,
    stage: &Stage,
    left: &[Vec<LeftOut>],
    asked: Asked<'_>,
) -> Result<Played, Memory>
    requires contracts { All (λ (t : NamedThread). t.contract < length stage.now.contracts.items) scenario.now.threads }
    requires starts { length stage.now.starts.items ≡ length scenario.now.threads }
    requires genesis { chain.now.genesis ≡ map key_output scenario.now.genesis }
    requires tick { chain.now.first_tick ≡ scenario.now.tick }
    ensures { IfOk result (λ played. (lines : List Told)
        × IsTold asked.entry.face scenario.now chain.now stage.now.starts.items (map (λ l. l.items) left.now) lines played.text.items
        × (played.well ≡ well_by (wanted asked.entry.face asked.entry.strict (map (λ s. s.now) asked.entry.kept_open.now))
        scenario.now (map (λ l. l.items) left.now) chain.now.entries lines)
        × AreLines chain.now stage.now.contracts.items scenario.now.threads stage.now.starts.items lines) }
{
    let threads = scenario.threads.as_slice();
    let lines = lines_of(alloc, chain, threads, &stage.contracts, &stage.starts)?;
    let starts = stage.starts.as_slice();
    let text = text_of(alloc, chain, scenario, starts, left, &lines, asked.face)?;
    let well = well_by(alloc, chain, scenario, left, &lines, asked)?;
    Ok(Played { text, well })
}

// The lines of threads with these start outputs.
fn lines_of<'s>(
    alloc: Global,
    chain: &Chain,
    threads: &'s [NamedThread],
    contracts: &[Published],
    starts: &[OutputRef],
) -> Result<Vec<ThreadLine<'s>>, Memory>
    requires contracts { All (λ (t : NamedThread). t.contract < length contracts.now) threads.now }
    requires starts { length starts.now ≡ length threads.now }
    ensures { IfOk result (λ lines. AreLines chain.now contracts.now threads.now starts.now lines.items) }
{
    let mut lines = Vec::new(alloc);
    for (place, thread) in threads.iter().enumerate() {
        let object = &contracts[thread.contract];
        lines.push(line_of(alloc, chain, &thread.name, object, &starts[place])?)?;
    }
    Ok(lines)
}

// How many steps of a thread were accepted, and whether the last left Close.
fn line_of<'s>(
    alloc: Global,
    chain: &Chain,
    name: &'s Text,
    object: &Published,
    start: &OutputRef,
) -> Result<ThreadLine<'s>, Memory>
    ensures { IfOk result (λ line. IsThreadLine chain.now name.now object.now start.now line) }
{
    let steps = chain.steps_of(alloc, start)?;
    Ok(ThreadLine {
        name,
        steps: steps.as_slice().len(),
        closed: is_over(object, steps.as_slice()),
    })
}

// Whether the last of a thread's steps left Close.
fn is_over(object: &Published, steps: &[StepRecord]) -> bool
    ensures { result ≡ leaves_close object.now (slice_get steps.now (length steps.now - 1)) }
{
    match steps.last() {
        Some(step) => object.table.contains(step.number) && object.table.is_close(step.number),
        None => false,
    }
}
