//! The whole setup.
ghost use Rattle.std.specs.Prelude.{◌≡◌, [], map, List, IfOk};
ghost use Rattle.json_read_scenarios.specs.Named.{NamesWhatItHas};
ghost use Rattle.play_setup.specs.SetUp.{Begun, IsSetUp, object_of, start_output};

use crate::fault::SetupFault;
use crate::publishing::publish_all;
use crate::starts::start_all;
use parties::{Hub, OutputRef, Published, Scenario, Seat, Session, Watch};
use std::alloc::Global;
use std::sync::Wait;

/// What a setup makes.
#[derive(Drop)]
pub struct Stage {
    /// The scenario's contracts as they are published, in order.
    pub contracts: Vec<Published>,
    /// The start outputs of its threads, in order.
    pub starts: Vec<OutputRef>,
}

/// Publishes the scenario's contracts and starts its threads, in order, by a seat that was told nothing yet. After each answered
/// call the watch is called. Refused is what has a fault: a contract that isn't compiled or whose id is in use, a thread whose
/// start is refused by the builder or by a rule; else only a growth that was refused gives `Memory`.
pub fn set_up<R: Wait, J: Session, W: Watch>(
    rt: &R,
    alloc: Global,
    hub: &Hub<J>,
    seat: &mut Seat<J>,
    watch: &W,
    scenario: &Scenario,
) -> Result<Stage, SetupFault>
    requires names { NamesWhatItHas scenario.now }
    requires first { seat.old.answers ≡ [] }
    ensures contracts { IfOk result (λ stage. stage.contracts.items ≡ map object_of scenario.now.contracts) }
    ensures threads { IfOk result (λ stage. (begun : List Begun) × IsSetUp scenario.now begun seat.new.answers
        × (stage.starts.items ≡ map start_output begun) × (seat.new.number ≡ seat.old.number)) }
{
    let contracts = publish_all(rt, alloc, hub, seat, watch, scenario.contracts.as_slice())?;
    let threads = scenario.threads.as_slice();
    let starts = start_all(rt, alloc, hub, seat, watch, contracts.as_slice(), threads)?;
    Ok(Stage { contracts, starts })
}
