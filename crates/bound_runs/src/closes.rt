//! The places of a contract at which it is closed.
use analysis_spec::PathStep;
use contract::{Contract, Memory};
use std::alloc::Global;

// A part that is still to be gone through: so many steps lead to the contract that it lies in, and this one into it.
struct Branch<'c> {
    above: usize,
    step: Option<PathStep>,
    contract: &'c Contract,
}

// Dropped once.
impl<'c> Drop for Branch<'c> {
    fn drop(self) {
        let Branch {
            above: _,
            step: _,
            contract: _,
        } = self;
    }
}

/// The places of Close in a contract, one after another: a branch before the other, each case before the next, and the
/// timeout's continuation last.
#[derive(Drop)]
pub(crate) struct Closes<'c> {
    open: Vec<Branch<'c>>,
    place: Vec<PathStep>,
}

impl<'c> Closes<'c> {
    /// Before the first.
    pub(crate) fn new(alloc: Global, contract: &'c Contract) -> Result<Closes<'c>, Memory> {
        let mut open = Vec::new(alloc);
        open.push(Branch {
            above: 0,
            step: None,
            contract,
        })?;
        Ok(Closes {
            open,
            place: Vec::new(alloc),
        })
    }

    /// The steps that lead to the one that was found last.
    pub(crate) fn place(&self) -> &[PathStep] {
        self.place.as_slice()
    }

    /// Goes on to the next, and tells whether there is one, or whether the work is done. A part takes a unit of it.
    pub(crate) fn next(&mut self, left: &mut u64) -> Result<bool, Memory> {
        let most = *left;
        for _ in 0..most {
            *left = left.saturating_sub(1);
            let Some(branch) = self.open.pop() else {
                return Ok(false);
            };
            if self.enter(branch)? {
                return Ok(true);
            }
        }
        Ok(false)
    }

    // Enters a part, and tells whether it is Close. Else its own parts are still to be gone through.
    fn enter(&mut self, branch: Branch<'c>) -> Result<bool, Memory> {
        self.place.truncate(branch.above);
        if let Some(step) = branch.step {
            self.place.push(step)?;
        }
        match branch.contract {
            Contract::Close => Ok(true),
            Contract::Pay(_, _, _, _, then) => self.add(PathStep::Then, then.get()),
            Contract::Let(_, _, then) => self.add(PathStep::Then, then.get()),
            Contract::Assert(_, then) => self.add(PathStep::Then, then.get()),
            Contract::If(_, then, otherwise) => {
                self.add(PathStep::Else, otherwise.get())?;
                self.add(PathStep::Then, then.get())
            }
            Contract::When(cases, _, then) => {
                self.add(PathStep::TimeoutContinuation, then.get())?;
                for index in (0..cases.as_slice().len()).rev() {
                    self.add(PathStep::Case(index), &cases.as_slice()[index].then)?;
                }
                Ok(false)
            }
        }
    }

    // Adds a part below the place.
    fn add(&mut self, step: PathStep, contract: &'c Contract) -> Result<bool, Memory> {
        let above = self.place.len();
        self.open.push(Branch {
            above,
            step: Some(step),
            contract,
        })?;
        Ok(false)
    }
}
