//! Calls, replies and entries.
use crate::ask::Ask;
use crate::look::Look;
use contract::{Bytes, Contract, Items, Memory, Same, TryClone};
use roles::{CompileFault, Tx, TxFault, Verdict};

/// What a caller asks of the chain.
pub enum Call {
    /// To publish a contract with the currency symbol of its roles' tokens (Marlowe specification version 3,
    /// "Participants, roles and public keys").
    Publish { contract: Contract, currency: Bytes },
    /// To advance the tick, in POSIX milliseconds.
    Advance(i64),
    /// To be shown a thread and unspent outputs.
    Look(Ask),
    /// To judge a transaction, and accept it where no rule refuses it.
    Submit(Tx),
    /// To let a transaction wait for a round.
    Enqueue(Tx),
    /// To judge the first pending transactions, at most so many, in order.
    Round(u64),
}

/// The verdict of a transaction that was enqueued with this ticket.
#[derive(Drop)]
pub struct Ticketed {
    pub ticket: u64,
    pub verdict: Verdict,
}

/// What the chain answers to a call.
pub enum Reply {
    /// To Publish: the id of the contract's script, also where the same was published before.
    Published([u8; 32]),
    /// To Publish: the contract isn't compiled.
    NotCompiled(CompileFault),
    /// To Publish: another contract or currency has this id.
    IdInUse,
    /// To Advance: the tick is the one that was asked for.
    Advanced,
    /// To Advance: the tick that was asked for lies before the present one.
    Backward,
    /// To Look.
    Look(Look),
    /// To Submit: the transaction's id.
    Accepted([u8; 32]),
    /// To Submit: the fault of the first rule that refuses.
    Refused(TxFault),
    /// To Enqueue: the ticket. Tickets count from 0.
    Ticket(u64),
    /// To Enqueue: 1,024 transactions are pending.
    Full,
    /// To Round: the tickets that were taken out, in order, each with its verdict.
    Round(Items<Ticketed>),
}

/// An answered call: who made it, how many entries of the same seat stand before it, the call and the reply.
pub struct Entry {
    pub seat: u64,
    pub number: u64,
    pub call: Call,
    pub reply: Reply,
}

// Dropped once: the drops of calls, replies and entries are written, not derived, so that no crate above proves them
// again.
impl Drop for Call {
    fn drop(self) {
        match self {
            Call::Publish { contract, currency } => {
                let_go(contract);
                let_go(currency);
            }
            Call::Advance(_) => {}
            Call::Look(ask) => let_go(ask),
            Call::Submit(tx) => let_go(tx),
            Call::Enqueue(tx) => let_go(tx),
            Call::Round(_) => {}
        }
    }
}

// Drops what it is given, of any type: so no tree or transaction is opened in the drop of a call.
fn let_go<T: Drop>(value: T) {
    // dropped once
    let _owned = value;
}

impl Drop for Reply {
    fn drop(self) {
        match self {
            Reply::Published(_) => {}
            Reply::NotCompiled(_) => {}
            Reply::IdInUse => {}
            Reply::Advanced => {}
            Reply::Backward => {}
            Reply::Look(_) => {}
            Reply::Accepted(_) => {}
            Reply::Refused(_) => {}
            Reply::Ticket(_) => {}
            Reply::Full => {}
            Reply::Round(_) => {}
        }
    }
}

impl Drop for Entry {
    fn drop(self) {
        let Entry {
            seat: _,
            number: _,
            call: _,
            reply: _,
        } = self;
    }
}

impl TryClone for Call {
    fn try_clone(&self) -> Result<Call, Memory> {
        match self {
            Call::Publish { contract, currency } => {
                let currency = currency.try_clone()?;
                let contract = contract.try_clone()?;
                Ok(Call::Publish { contract, currency })
            }
            Call::Advance(tick) => Ok(Call::Advance(*tick)),
            Call::Look(ask) => Ok(Call::Look(ask.try_clone()?)),
            Call::Submit(tx) => Ok(Call::Submit(tx.try_clone()?)),
            Call::Enqueue(tx) => Ok(Call::Enqueue(tx.try_clone()?)),
            Call::Round(count) => Ok(Call::Round(*count)),
        }
    }
}

impl Same for Call {
    fn same(&self, other: &Call) -> bool {
        match self {
            Call::Publish {
                contract: c,
                currency: a,
            } => match other {
                Call::Publish {
                    contract: d,
                    currency: b,
                } => a.same(b) && c.same(d),
                _ => false,
            },
            Call::Advance(a) => match other {
                Call::Advance(b) => *a == *b,
                _ => false,
            },
            Call::Look(a) => match other {
                Call::Look(b) => a.same(b),
                _ => false,
            },
            Call::Submit(a) => match other {
                Call::Submit(b) => a.same(b),
                _ => false,
            },
            Call::Enqueue(a) => match other {
                Call::Enqueue(b) => a.same(b),
                _ => false,
            },
            Call::Round(a) => match other {
                Call::Round(b) => *a == *b,
                _ => false,
            },
        }
    }
}

impl TryClone for Ticketed {
    fn try_clone(&self) -> Result<Ticketed, Memory> {
        Ok(Ticketed {
            ticket: self.ticket,
            verdict: self.verdict.try_clone()?,
        })
    }
}

impl Same for Ticketed {
    fn same(&self, other: &Ticketed) -> bool {
        self.ticket == other.ticket && self.verdict.same(&other.verdict)
    }
}

impl TryClone for Reply {
    fn try_clone(&self) -> Result<Reply, Memory> {
        match self {
            Reply::Published(id) => Ok(Reply::Published(*id)),
            Reply::NotCompiled(fault) => Ok(Reply::NotCompiled(*fault)),
            Reply::IdInUse => Ok(Reply::IdInUse),
            Reply::Advanced => Ok(Reply::Advanced),
            Reply::Backward => Ok(Reply::Backward),
            Reply::Look(look) => Ok(Reply::Look(look.try_clone()?)),
            Reply::Accepted(id) => Ok(Reply::Accepted(*id)),
            Reply::Refused(fault) => Ok(Reply::Refused(fault.try_clone()?)),
            Reply::Ticket(ticket) => Ok(Reply::Ticket(*ticket)),
            Reply::Full => Ok(Reply::Full),
            Reply::Round(places) => Ok(Reply::Round(places.try_clone()?)),
        }
    }
}

impl Same for Reply {
    fn same(&self, other: &Reply) -> bool {
        match self {
            Reply::Published(a) => match other {
                Reply::Published(b) => *a == *b,
                _ => false,
            },
            Reply::NotCompiled(a) => match other {
                Reply::NotCompiled(b) => *a == *b,
                _ => false,
            },
            Reply::IdInUse => matches!(other, Reply::IdInUse),
            Reply::Advanced => matches!(other, Reply::Advanced),
            Reply::Backward => matches!(other, Reply::Backward),
            Reply::Look(a) => match other {
                Reply::Look(b) => a.same(b),
                _ => false,
            },
            Reply::Accepted(a) => match other {
                Reply::Accepted(b) => *a == *b,
                _ => false,
            },
            Reply::Refused(a) => match other {
                Reply::Refused(b) => a.same(b),
                _ => false,
            },
            Reply::Ticket(a) => match other {
                Reply::Ticket(b) => *a == *b,
                _ => false,
            },
            Reply::Full => matches!(other, Reply::Full),
            Reply::Round(a) => match other {
                Reply::Round(b) => a.same(b),
                _ => false,
            },
        }
    }
}

impl Same for Entry {
    fn same(&self, other: &Entry) -> bool {
        self.seat == other.seat
            && self.number == other.number
            && self.call.same(&other.call)
            && self.reply.same(&other.reply)
    }
}
