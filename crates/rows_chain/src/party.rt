//! Parties.
use contract::{Bytes, Input, Interval, Items, Memory, Text};
use parties::{Intent, OutputRef, Party, Plan};
use rows_text::{both, done, one};
use std::alloc::Global;

const SOON: Interval = Interval { from: 0, to: 10 };

/// Who steps a thread by one notification, or several by one each in one transaction, from 0 to 10, as the one of that name.
pub fn stepper(alloc: Global, name: &str, threads: &[OutputRef]) -> Result<Party, Memory> {
    let names = both(text(alloc, name), text(alloc, name));
    let keys = one(alloc, text(alloc, name));
    let intents = one(alloc, intent(alloc, threads));
    let ((name, change), (keys, intents)) = both(names, both(keys, intents))?;
    Ok(Party {
        plan: Plan {
            name,
            keys,
            change,
            intents,
            stop_after: None,
        },
    })
}

fn intent(alloc: Global, threads: &[OutputRef]) -> Result<Intent<OutputRef, Bytes>, Memory> {
    match threads {
        [thread] => step(alloc, *thread),
        _ => steps(alloc, threads),
    }
}

fn step(alloc: Global, thread: OutputRef) -> Result<Intent<OutputRef, Bytes>, Memory> {
    Ok(Intent::Step {
        thread,
        inputs: notify(alloc)?,
        interval: SOON,
        pooled: false,
    })
}

fn steps(alloc: Global, threads: &[OutputRef]) -> Result<Intent<OutputRef, Bytes>, Memory> {
    let mut steps = Items::new(alloc);
    let put = put_steps(alloc, &mut steps, threads);
    Ok(Intent::Steps {
        steps: done(steps, put)?,
        interval: SOON,
        pooled: false,
    })
}

fn put_steps(
    alloc: Global,
    steps: &mut Items<(OutputRef, Items<Input>)>,
    threads: &[OutputRef],
) -> Result<(), Memory> {
    for thread in threads {
        steps.push((*thread, notify(alloc)?))?;
    }
    Ok(())
}

fn notify(alloc: Global) -> Result<Items<Input>, Memory> {
    one(alloc, Ok(Input::Notify))
}

fn text(alloc: Global, letters: &str) -> Result<Text, Memory> {
    Ok(Text::from_string(String::from_str(alloc, letters)?))
}
