//! Alarms of one kind at equal parts, of which one is told in full.
ghost use Rattle.std.specs.Prelude.{◌≡◌, map, length, All, IfOk};
ghost use Rattle.contract.specs.Tree.{contract_tree};
ghost use Rattle.alike_alarms.specs.Alike.{AreHeads};
ghost use Rattle.alike_alarms.specs.AlikeSupport.{seen_of};
ghost use Rattle.analysis_lines.specs.ToldLines.{line_of, with_heads, LineFits};
ghost use Rattle.marlowe_analyse.specs.OnceSupport.{seen_told, ToldOnce, HaveHeads};

use alike_alarms::{Seen, heads_of};
use analysis_lines::ToldAlarm;
use contract::{Contract, Memory};
use std::alloc::Global;

/// The same alarms; where each kind at equal parts is told once, with how many others each is told, or that it is told with another.
pub(crate) fn told_once(
    alloc: Global,
    contract: &Contract,
    alarms: Vec<ToldAlarm>,
    once: bool,
) -> Result<Vec<ToldAlarm>, Memory>
    requires { All LineFits alarms.items }
    ensures { IfOk result (λ told. ToldOnce once (contract_tree contract.now) alarms.items told.items) }
{
    if once {
        with_their_heads(alloc, contract, alarms)
    } else {
        Ok(alarms)
    }
}

fn with_their_heads(
    alloc: Global,
    contract: &Contract,
    alarms: Vec<ToldAlarm>,
) -> Result<Vec<ToldAlarm>, Memory>
    requires { All LineFits alarms.items }
    ensures { IfOk result (λ told. HaveHeads (contract_tree contract.now) alarms.items told.items) }
{
    let mut told = alarms;
    let heads = heads_of_told(alloc, contract, &told)?;
    put_heads(&mut told, &heads);
    Ok(told)
}

fn heads_of_told(
    alloc: Global,
    contract: &Contract,
    told: &[ToldAlarm],
) -> Result<Vec<Option<usize>>, Memory>
    ensures { IfOk result (λ heads. AreHeads (contract_tree contract.now) (map seen_told told.now) heads.items) }
{
    let seen = seen_of(alloc, told)?;
    heads_of(alloc, contract, &seen)
}

fn seen_of<'a>(alloc: Global, told: &'a [ToldAlarm]) -> Result<Vec<Seen<'a>>, Memory>
    ensures { IfOk result (λ seen. map seen_of seen.items ≡ map seen_told told.now) }
{
    let mut seen = Vec::new(alloc);
    for one in told {
        seen.push(Seen {
            alarm: &one.alarm,
            has_run: one.run.is_some(),
        })?;
    }
    Ok(seen)
}

fn put_heads(told: &mut Vec<ToldAlarm>, heads: &[Option<usize>])
    requires { (length heads.now ≡ length told.old.items) × All LineFits told.old.items }
    ensures lines { map line_of told.new.items ≡ with_heads (map line_of told.old.items) heads.now }
    ensures fit { All LineFits told.new.items }
{
    for index in 0..told.len() {
        told[index].head = heads[index];
    }
}
