//! Rows as they are read.
ghost use Rattle.std.specs.Prelude.{◌<◌, ◌≤◌};

/// The number of workers that is nearest from 1 to 16.
pub fn workers_of(count: u32) -> usize
    ensures some { 0 < result }
    ensures few { result ≤ 16 }
{
    count.clamp(1, 16) as usize
}

/// The number of seats that is nearest from 1 to 64.
pub fn seats_of(count: u32) -> u32
    ensures some { 0 < result }
    ensures few { result ≤ 64 }
{
    count.clamp(1, 64)
}

/// How many workers check, or seats call; how many payments or calls, of how many inputs each.
#[derive(Clone, Copy)]
pub struct Row {
    workers: u32,
    pub jobs: u32,
    pub inputs: u32,
}

impl Row {
    /// How many workers check: the number that the row has, or the nearest from 1 to 16.
    pub fn workers(self) -> usize
        ensures some { 0 < result }
        ensures few { result ≤ 16 }
    {
        workers_of(self.workers)
    }

    /// How many seats call: the same number, or the nearest from 1 to 64.
    pub fn seats(self) -> u32
        ensures some { 0 < result }
        ensures few { result ≤ 64 }
    {
        seats_of(self.workers)
    }

    /// How many outputs the payments of all seats spend, or the most that there can be.
    pub fn spends(self) -> u32 {
        self.seats()
            .saturating_mul(self.jobs)
            .saturating_mul(self.inputs)
    }
}

/// The row that three numbers spell, or two, for payments of one input.
pub fn row_of(words: &str) -> Option<Row> {
    let mut words = words.split_whitespace();
    let workers = number(words.next()?)?;
    let jobs = number(words.next()?)?;
    let inputs = number(words.next().unwrap_or("1"))?;
    Some(Row {
        workers,
        jobs,
        inputs,
    })
}

fn number(word: &str) -> Option<u32> {
    word.parse().ok()
}
