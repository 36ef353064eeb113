//! The names of what is there already.
ghost use Rattle.std.specs.Prelude.{◌≡◌, None, OnOk, option_map};
ghost use Rattle.serde_json.specs.Data.{Data};
ghost use Rattle.json_forms.specs.declared.sort.Sort.{Sort};
ghost use Rattle.std.specs.BTreeMap.{get_by_text};
ghost use Rattle.scenario_stops.specs.There.{There, after, nothing};
ghost use Rattle.scenario_stops.specs.Faults.{own_fault};
ghost use Rattle.scenario_stops.specs.Parts.{start};
ghost use Rattle.scenario_stops.specs.Stops.{name_in};
ghost use Rattle.scenario_stops.specs.StopsSupport.{Added, Leaves, NamesAre, Puts, has_name};

use contract::Memory;
use json_forms::{NamedSort, ScenarioSort};
use std::alloc::Global;
use std::collections::BTreeMap;

// No more plans than these are read.
const MOST_PLANS: usize = 63;

/// The names of contracts, threads and plans, each found in the logarithm of their number; and how many plans there are.
#[derive(Drop)]
pub(crate) struct Names {
    contracts: BTreeMap<String, bool>,
    threads: BTreeMap<String, bool>,
    plans: BTreeMap<String, bool>,
    plan_count: usize,
}

impl Names {
    /// There is nothing yet.
    pub(crate) fn new(alloc: Global) -> Names
        ensures { NamesAre result nothing }
    {
        Names {
            contracts: BTreeMap::new(alloc),
            threads: BTreeMap::new(alloc),
            plans: BTreeMap::new(alloc),
            plan_count: 0,
        }
    }

    /// Whether one of the kind has the name.
    pub(crate) fn has(&self, kind: NamedSort, name: &str) -> bool
        ensures { result ≡ has_name kind self.now name.now }
    {
        match kind {
            NamedSort::Contract => self.contracts.get(name).is_some(),
            NamedSort::Thread => self.threads.get(name).is_some(),
            NamedSort::Plan => self.plans.get(name).is_some(),
        }
    }

    /// How many plans there are.
    pub(crate) fn plan_count(&self) -> usize
        ensures { result ≡ self.now.plan_count }
    {
        self.plan_count
    }

    /// A scenario begins with nothing.
    pub(crate) fn begin(&mut self, alloc: Global, part: ScenarioSort)
        ensures { (t : There) → NamesAre self.old t → NamesAre self.new (start part t) }
    {
        match part {
            ScenarioSort::Scenario => *self = Names::new(alloc),
            _ => {}
        }
    }

    /// What was read as one of a sort adds its name. Behind a scenario there is nothing.
    pub(crate) fn keep(
        &mut self,
        alloc: Global,
        part: ScenarioSort,
        name: Option<&str>,
    ) -> Result<(), Memory>
        ensures { OnOk result ((t : There) (d : Data) → option_map (λ name. name.now) name.entry ≡ name_in d → Leaves part self.old t d
            → own_fault part t d ≡ None → NamesAre self.new (after (Sort.OfScenario part) t d)) }
    {
        match part {
            ScenarioSort::NamedContract => self.add(alloc, NamedSort::Contract, name),
            ScenarioSort::NamedThread => self.add(alloc, NamedSort::Thread, name),
            ScenarioSort::Plan => self.add(alloc, NamedSort::Plan, name),
            ScenarioSort::Scenario => {
                *self = Names::new(alloc);
                Ok(())
            }
            _ => Ok(()),
        }
    }

    // One more of the kind, if it has a name.
    fn add(&mut self, alloc: Global, kind: NamedSort, name: Option<&str>) -> Result<(), Memory>
        ensures { OnOk result (Added kind (option_map (λ name. name.now) name.entry) self.old self.new) }
    {
        let Some(name) = name else {
            return Ok(());
        };
        match kind {
            NamedSort::Contract => put(alloc, &mut self.contracts, name),
            NamedSort::Thread => put(alloc, &mut self.threads, name),
            NamedSort::Plan => {
                if self.plan_count < MOST_PLANS {
                    self.plan_count += 1;
                }
                put(alloc, &mut self.plans, name)
            }
        }
    }
}

fn put(alloc: Global, names: &mut BTreeMap<String, bool>, name: &str) -> Result<(), Memory>
    ensures { OnOk result (Puts name.now (get_by_text names.old) (get_by_text names.new)) }
{
    let key = String::from_str(alloc, name)?;
    let _ = names.insert(key, true)?;
    Ok(())
}
