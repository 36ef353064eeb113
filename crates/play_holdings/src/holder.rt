//! Holders, in the order in which they are told.
ghost use Rattle.std.specs.Prelude.{◌≡◌};
ghost use Rattle.play_holdings.specs.Holders.{kind_of, currency_of, name_of, place_of, holder_cmp};

use eutxo::{Bytes, Memory, Text, TryClone};
use std::cmp::Ordering;

/// Who holds something that stands unspent. Holders stand in this order: addresses by their bytes, payouts by currency symbol
/// and then role, threads by their places.
#[derive(Drop)]
pub enum Holder {
    /// An address, whose key guards it.
    Address(Text),
    /// Whoever shows the token of this currency symbol that is named as the role: a payout that nobody has claimed.
    Payout { currency: Bytes, role: Text },
    /// The contract of a thread, by the place of the thread among those that are asked for, from 0.
    Thread(usize),
    /// A contract to which none of these threads has come.
    Elsewhere,
}

impl Holder {
    // Which kind it is.
    fn kind(&self) -> u8
        ensures { result ≡ kind_of self.now }
    {
        match self {
            Holder::Address(_) => 0,
            Holder::Payout { .. } => 1,
            Holder::Thread(_) => 2,
            Holder::Elsewhere => 3,
        }
    }

    // The currency symbol of a payout.
    fn currency(&self) -> &[u8]
        ensures { result.now ≡ currency_of self.now }
    {
        match self {
            Holder::Address(_) => &[],
            Holder::Payout { currency, .. } => currency.as_slice(),
            Holder::Thread(_) => &[],
            Holder::Elsewhere => &[],
        }
    }

    // An address, or the name of a payout's role.
    fn name(&self) -> &str
        ensures { result.now ≡ name_of self.now }
    {
        match self {
            Holder::Address(address) => address.as_str(),
            Holder::Payout { role, .. } => role.as_str(),
            Holder::Thread(_) => "",
            Holder::Elsewhere => "",
        }
    }

    // The place of a thread.
    fn place(&self) -> usize
        ensures { result ≡ place_of self.now }
    {
        match self {
            Holder::Address(_) => 0,
            Holder::Payout { .. } => 0,
            Holder::Thread(place) => *place,
            Holder::Elsewhere => 0,
        }
    }
}

/// How two holders stand.
pub(crate) fn compare_holders(a: &Holder, b: &Holder) -> Ordering
    ensures { result ≡ holder_cmp a.now b.now }
{
    a.kind()
        .cmp(&b.kind())
        .then(a.currency().cmp(&b.currency()))
        .then(a.name().cmp(b.name()))
        .then(a.place().cmp(&b.place()))
}

impl TryClone for Holder {
    fn try_clone(&self) -> Result<Holder, Memory> {
        match self {
            Holder::Address(address) => Ok(Holder::Address(address.try_clone()?)),
            Holder::Payout { currency, role } => Ok(Holder::Payout {
                currency: currency.try_clone()?,
                role: role.try_clone()?,
            }),
            Holder::Thread(place) => Ok(Holder::Thread(*place)),
            Holder::Elsewhere => Ok(Holder::Elsewhere),
        }
    }
}
