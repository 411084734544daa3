// A frame as the rules accept it: what it is made of, and what is known of that.
ghost use Rattle.std.specs.Prelude.{◌≡◌, length};
ghost use Rattle.layout.specs.Parts.{view_of};
ghost use Rattle.plans.proofs.Deriving.{facts_prop};
ghost use Rattle.plans.specs.Facts.{Facts};

use crate::order::Order;
use crate::parts::Parts;
use plans::Entry;

#[derive(Clone, Copy)]
pub(crate) struct Frame {
    pub parts: Parts,
    ghost facts: { Facts (view_of parts) } by { facts_prop (view_of parts) },
    ghost counted: { parts.count ≡ length (view_of parts).entries },
}

impl Frame {
    ghost use Rattle.layout.specs.Orders.{order_in};
    ghost use Rattle.plans.specs.Views.{order_of};

    // The entries that are listed.
    pub(crate) fn listed(&self) -> &[Entry]
        ensures { result.now ≡ (view_of self.now.parts).entries }
    {
        &self.parts.table[..self.parts.count]
    }

    pub(crate) fn order(&self) -> Order
        ensures { order_in result ≡ order_of self.now.parts.interleave }
    {
        Order::from(self.parts.interleave)
    }
}
