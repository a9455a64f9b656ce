//! The weights and ranks of an order, and which literals it selects.
#![tactic(auto)]

ghost use Rattle.std.specs.Prelude.{◌≡◌, ◌≤◌, ◌-◌, ◌++◌, [], length, replicate, OnOk, OnErr};
ghost use Rattle.cd_kbo.specs.Weights.{AreWeights};

use cd_list::{Copied, Equals, Sequence};
use std::alloc::{AllocError, Global};

/// Numbers of symbols: place `k` has that of symbol `k`.
pub type Numbers = Sequence<u16>;

/// Which negative literals of a clause are selected: inferences are then made on these alone.
#[derive(Clone, Copy, Debug, PartialEq, Eq)]
pub enum Select {
    /// None.
    Nothing,
    /// The first one.
    First,
}

/// What each symbol weighs, 1 to 255, and its rank. A symbol past the end of a list has weight 1 or rank 0.
#[derive(Debug, Drop)]
pub struct Order {
    pub weights: Numbers,
    pub ranks: Numbers,
    pub select: Select,
    ghost in_range: { AreWeights weights },
}

/// Makes a list longer by a default number, up to a length; a longer one stays as it is.
fn pad(list: &mut Numbers, len: usize, default: u16) -> Result<(), AllocError>
    ensures ok { OnOk result (list.new ≡ list.old ++ replicate (len - length list.old) default) }
    ensures err { OnErr result (list.new ≡ list.old) }
{
    let old = list.len();
    for _place in old..len {
        if let Err(error) = list.push(default) {
            list.truncate(old);
            return Err(error);
        }
    }
    Ok(())
}

impl Order {
    ghost use Rattle.cd_kbo.specs.Orders.{ChangesOnly};

    /// The order in which each symbol weighs 1 and has the rank 0, and nothing is selected. No memory is taken.
    pub fn plain(alloc: Global) -> Order
        ensures weights { result.weights ≡ [] }
        ensures ranks { result.ranks ≡ [] }
        ensures select { result.select ≡ Select.Nothing }
    {
        Order {
            weights: Sequence::new(alloc),
            ranks: Sequence::new(alloc),
            select: Select::Nothing,
        }
    }

    /// Sets the weight and the rank of a symbol, and leaves those of all others. A refusal changes nothing.
    pub fn set(&mut self, symbol: u16, weight: u8, rank: u16) -> Result<(), AllocError>
        requires { 1 ≤ weight }
        ensures ok { OnOk result (ChangesOnly self.old self.new symbol weight rank) }
        ensures err { OnErr result (self.new ≡ self.old) }
    {
        let place = usize::from(symbol);
        let old = self.weights.len();
        pad(&mut self.weights, place + 1, 1)?;
        if let Err(error) = pad(&mut self.ranks, place + 1, 0) {
            self.weights.truncate(old);
            return Err(error);
        }
        self.weights.set(place, u16::from(weight));
        self.ranks.set(place, rank);
        Ok(())
    }
}

impl Copied for Select {
    fn copy(&self, _alloc: Global) -> Result<Select, AllocError> {
        Ok(*self)
    }
}

impl Equals for Select {
    fn equals(&self, other: &Select) -> bool {
        matches!(
            (self, other),
            (Select::Nothing, Select::Nothing) | (Select::First, Select::First)
        )
    }
}

impl Copied for Order {
    fn copy(&self, alloc: Global) -> Result<Order, AllocError> {
        Ok(Order {
            weights: self.weights.copy(alloc)?,
            ranks: self.ranks.copy(alloc)?,
            select: self.select,
        })
    }
}

impl Equals for Order {
    fn equals(&self, other: &Order) -> bool {
        self.weights.equals(&other.weights)
            && self.ranks.equals(&other.ranks)
            && self.select.equals(&other.select)
    }
}
