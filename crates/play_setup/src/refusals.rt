//! What of a setup is refused, by its fault.
ghost use Rattle.std.specs.Prelude.{◌≡◌, IfOk, string_bytes};
ghost use Rattle.setup_refusals.specs.declared.refusal.SetupRefusal.TheVariants as refusals;
ghost use Rattle.play_setup.specs.Refusals.{by_builder, by_compiler, by_genesis, by_rule, cause, compile_words, genesis_name, genesis_words, in_use};

use crate::fault::{SetupFault, refused};
use contract::{Memory, Text, TryClone};
use fault_words::{build_words, rule_words};
use marlowe_refusals::compile_fault_name;
use parties::{BuildFault, CompileFault, GenesisFault, TxFault};
use play_lines::{build_fault_text, tx_fault_text};
use setup_refusals::{Cause, SetupRefusal};
use std::alloc::Global;

// ---- the ledger's beginning

/// A genesis that is refused for this fault.
pub(crate) fn genesis_refused(alloc: Global, fault: GenesisFault) -> SetupFault {
    match fault {
        GenesisFault::Memory => SetupFault::Memory,
        fault => refused(by_genesis(alloc, fault)),
    }
}

fn by_genesis(alloc: Global, fault: GenesisFault) -> Result<SetupRefusal, Memory>
    ensures { IfOk result (λ refusal. refusal ≡ by_genesis fault) }
{
    let cause = cause(alloc, genesis_name(fault), genesis_words(fault))?;
    Ok(SetupRefusal::Genesis(cause))
}

fn genesis_name(fault: GenesisFault) -> &'static str
    ensures { result.now ≡ genesis_name fault }
{
    match fault {
        GenesisFault::NotKey => "NotKey",
        GenesisFault::TooLarge => "TooLarge",
        GenesisFault::Memory => "Memory",
    }
}

fn genesis_words(fault: GenesisFault) -> &'static str
    ensures { result.now ≡ genesis_words fault }
{
    match fault {
        GenesisFault::NotKey => "what the ledger begins with isn't under a key",
        GenesisFault::TooLarge => "the ledger would begin with more than 2^127 - 1 of a token",
        GenesisFault::Memory => "memory was refused",
    }
}

// ---- contracts

/// The contract of this name, which isn't compiled for this fault.
pub(crate) fn contract_refused(alloc: Global, name: &Text, fault: CompileFault) -> SetupFault {
    match fault {
        CompileFault::Memory => SetupFault::Memory,
        fault => refused(by_compiler(alloc, name, fault)),
    }
}

fn by_compiler(alloc: Global, name: &Text, fault: CompileFault) -> Result<SetupRefusal, Memory>
    ensures { IfOk result (λ refusal. refusal ≡ by_compiler name.now fault) }
{
    let cause = cause(alloc, compile_fault_name(fault), compile_words(fault))?;
    Ok(SetupRefusal::Contract(name.try_clone()?, cause))
}

fn compile_words(fault: CompileFault) -> &'static str
    ensures { result.now ≡ compile_words fault }
{
    match fault {
        CompileFault::TooManyNodes => "the contract has too many parts",
        CompileFault::TooDeep => "the contract is too deep",
        CompileFault::Memory => "memory was refused",
    }
}

/// The contract of this name, whose id is in use.
pub(crate) fn contract_in_use(alloc: Global, name: &Text) -> SetupFault {
    refused(in_use(alloc, name))
}

fn in_use(alloc: Global, name: &Text) -> Result<SetupRefusal, Memory>
    ensures { IfOk result (λ refusal. refusal ≡ in_use name.now) }
{
    let cause = cause(alloc, "IdInUse", "another contract has the same id")?;
    Ok(SetupRefusal::Contract(name.try_clone()?, cause))
}

// ---- threads

/// The thread of this name, whose start isn't built for this fault.
pub(crate) fn start_refused(alloc: Global, name: &Text, fault: &BuildFault) -> SetupFault {
    match fault {
        BuildFault::Memory => SetupFault::Memory,
        fault => refused(by_builder(alloc, name, fault)),
    }
}

fn by_builder(alloc: Global, name: &Text, fault: &BuildFault) -> Result<SetupRefusal, Memory>
    ensures { IfOk result (λ refusal. refusal ≡ by_builder name.now fault.now) }
{
    let words = build_words(alloc, fault)?;
    let fault = build_fault_text(alloc, fault)?;
    thread_refusal(name, fault, words)
}

/// The thread of this name, whose start the ledger refuses for this fault.
pub(crate) fn rule_refused(alloc: Global, name: &Text, fault: &TxFault) -> SetupFault {
    refused(by_rule(alloc, name, fault))
}

fn by_rule(alloc: Global, name: &Text, fault: &TxFault) -> Result<SetupRefusal, Memory>
    ensures { IfOk result (λ refusal. refusal ≡ by_rule name.now fault.now) }
{
    let words = rule_words(alloc, fault)?;
    let fault = tx_fault_text(alloc, fault)?;
    thread_refusal(name, fault, words)
}

fn thread_refusal(name: &Text, fault: String, words: String) -> Result<SetupRefusal, Memory>
    ensures { IfOk result (λ refusal. refusal ≡ refusals.Thread name.now (cause (string_bytes fault) (string_bytes words))) }
{
    let cause = Cause {
        fault: Text::from_string(fault),
        words: Text::from_string(words),
    };
    Ok(SetupRefusal::Thread(name.try_clone()?, cause))
}

// ---- causes

fn cause(alloc: Global, fault: &str, words: &str) -> Result<Cause, Memory>
    ensures { IfOk result (λ made. made ≡ cause fault.now words.now) }
{
    Ok(Cause {
        fault: text_of(alloc, fault)?,
        words: text_of(alloc, words)?,
    })
}

fn text_of(alloc: Global, text: &str) -> Result<Text, Memory>
    ensures { IfOk result (λ made. made ≡ text.now) }
{
    Ok(Text::from_string(String::from_str(alloc, text)?))
}
